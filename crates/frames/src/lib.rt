// The messages between stations and boxes, each in one frame (document 02, wish 3): the message, its reader and its writer.
#![tactic(auto)]

ghost use Rattle.std.specs.Prelude.{◌≡◌, ◌≤◌, [], ◌∷◌};
ghost use Rattle.frames.specs.Messages.{number_of, kind_numbered, fields_in, message_with, kind_of, first_of, second_of, wrong_message};
ghost use Rattle.frames.specs.Reader.{checked};

use base::Refusal;

mod reader;
mod writer;

pub use reader::{behind_frame, frame_end, message_of, read_frame};
pub use writer::write_frame;

// The kinds of messages, each with the number that its frames say it by.
#[derive(Clone, Copy, Debug, PartialEq, Eq)]
pub enum Kind {
    ReadRequest = 1,
    WriteRequest = 2,
    ReadAnswer = 3,
    Outranked = 4,
    Taken = 5,
    NotTaken = 6,
}

impl Kind {
    pub fn number(self) -> u8
        ensures { result ≡ number_of self }
    {
        self as u8
    }

    // How many fields its messages have.
    #[tactic(auto, using(base::proofs::Tests::picks), unfolding(crate::specs::Messages::fields_in))]
    fn field_count(self) -> u8
        ensures count { result ≡ fields_in (number_of self) }
        ensures few { result ≤ 2 }
    {
        match self {
            Kind::ReadRequest => 1,
            Kind::WriteRequest | Kind::ReadAnswer => 2,
            Kind::Outranked | Kind::Taken | Kind::NotTaken => 0,
        }
    }

    // Its message with these fields. A field that the kind does not have is not looked at.
    fn message(self, first: u32, second: u32) -> Message
        ensures { result ≡ message_with self first second }
    {
        match self {
            Kind::ReadRequest => Message::ReadRequest(first),
            Kind::WriteRequest => Message::WriteRequest(first, second),
            Kind::ReadAnswer => Message::ReadAnswer(first, second),
            Kind::Outranked => Message::Outranked,
            Kind::Taken => Message::Taken,
            Kind::NotTaken => Message::NotTaken,
        }
    }
}

// The kind with a number; refusal 21 where none has it. No other place looks at the number.
impl TryFrom<u32> for Kind {
    type Error = Refusal;

    ghost try_from_gives = { λ number r. r ≡ kind_numbered number };

    #[tactic(auto, using(base::proofs::Tests::picks), unfolding(crate::specs::Messages::kind_numbered))]
    fn try_from(number: u32) -> Result<Kind, Refusal> {
        match number {
            1 => Ok(Kind::ReadRequest),
            2 => Ok(Kind::WriteRequest),
            3 => Ok(Kind::ReadAnswer),
            4 => Ok(Kind::Outranked),
            5 => Ok(Kind::Taken),
            6 => Ok(Kind::NotTaken),
            _ => Err(Refusal::Message),
        }
    }
}

// A message: the requests of the two phases, with rank, and with rank and revision; the answers to a read, with write rank and value, or
// that it is outranked (the nack of a phase 1); the answers to a write.
#[derive(Clone, Copy, Debug, PartialEq, Eq)]
pub enum Message {
    ReadRequest(u32),
    WriteRequest(u32, u32),
    ReadAnswer(u32, u32),
    Outranked,
    Taken,
    NotTaken,
}

impl Message {
    pub fn kind(self) -> Kind
        ensures { number_of result ≡ kind_of self }
    {
        match self {
            Message::ReadRequest(_) => Kind::ReadRequest,
            Message::WriteRequest(_, _) => Kind::WriteRequest,
            Message::ReadAnswer(_, _) => Kind::ReadAnswer,
            Message::Outranked => Kind::Outranked,
            Message::Taken => Kind::Taken,
            Message::NotTaken => Kind::NotTaken,
        }
    }

    // Its two fields, 0 where it has none.
    pub fn fields(self) -> [u32; 2]
        ensures { result ≡ first_of self ∷ second_of self ∷ [] }
    {
        match self {
            Message::ReadRequest(rank) => [rank, 0],
            Message::WriteRequest(rank, revision) => [rank, revision],
            Message::ReadAnswer(rank, value) => [rank, value],
            Message::Outranked | Message::Taken | Message::NotTaken => [0, 0],
        }
    }

    // Refusal 21, of a message: the rank of a request is 0.
    fn is_wrong(self) -> bool
        ensures { result ≡ wrong_message self }
    {
        matches!(self, Message::ReadRequest(0) | Message::WriteRequest(0, _))
    }

    // The message, or refusal 21.
    #[tactic(auto, using(base::proofs::Tests::picks), unfolding(crate::specs::Reader::checked))]
    fn checked(self) -> Result<Message, Refusal>
        ensures { result ≡ checked self }
    {
        if self.is_wrong() {
            return Err(Refusal::Message);
        }
        Ok(self)
    }
}
