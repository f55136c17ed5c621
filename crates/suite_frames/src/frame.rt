// Reads and writes frames and says what came of it.
use base::Refusal;
use cases::{Case, Hex, Refused, RefusedBut};
use frames::{Kind, Message};
use std::{fmt, io};

// The message that was read, or the refusal.
#[derive(Drop)]
struct Answer(Result<Message, Refusal>);

impl fmt::Display for Answer {
    fn fmt<W: fmt::Write>(&self, f: &mut fmt::Formatter<W>) -> fmt::Result {
        match self.0 {
            Ok(m) => write!(f, "{}", Words(m)),
            Err(refusal) => write!(f, "{}", Refused(Some(refusal))),
        }
    }
}

#[derive(Drop)]
struct Words(Message);

impl fmt::Display for Words {
    fn fmt<W: fmt::Write>(&self, f: &mut fmt::Formatter<W>) -> fmt::Result {
        match self.0 {
            Message::ReadRequest(rank) => write!(f, "read request {rank}"),
            Message::WriteRequest(rank, revision) => write!(f, "write request {rank} {revision}"),
            Message::ReadAnswer(rank, value) => write!(f, "read answer {rank} {value}"),
            Message::Outranked => write!(f, "outranked"),
            Message::Taken => write!(f, "taken"),
            Message::NotTaken => write!(f, "not taken"),
        }
    }
}

// Whether a message, written into a buffer, is this frame, and the bytes behind it are as they were.
fn again(m: Message, frame: &[u8]) -> bool {
    let before = [0xee; 40];
    let mut buffer = before;
    frames::write_frame(&mut buffer, m) == Ok(frame.len()) && cases::left(&buffer, &before, frame)
}

// Says what is read at the start of an input, which bytes are behind the frame, and what comes of writing it again, if it is accepted.
fn one(rt: &impl Print, input: &[u8]) -> io::Result<()> {
    let read = frames::read_frame(input);
    let behind = Hex(frames::behind_frame(input));
    print!(rt; "{} /{behind}", Answer(read))?;
    if let Ok(m) = read {
        let same = again(m, cases::up_to(input, frames::frame_end(input)));
        let word = if same { "the same" } else { "ANOTHER FRAME" };
        print!(rt; "; written again: {word}")?;
    }
    Ok(())
}

// Reads an input, and what is left behind each frame, a line for each, until nothing is left. No index is counted: what is left shrinks.
#[tactic(auto, using(frames::proofs::ReaderLaws::behind_shorter))]
pub(crate) fn get(rt: &impl Print, case: Case) -> io::Result<()> {
    rt.write_all(case.line)?;
    print!(rt; " -> ")?;
    one(rt, case.bytes)?;
    let mut rest = frames::behind_frame(case.bytes);
    while !rest.is_empty() {
        print!(rt; "\n  then ")?;
        one(rt, rest)?;
        rest = frames::behind_frame(rest);
    }
    println!(rt)
}

// A message of any fields, those too that are turned away; of an unknown kind what `message_of` answers. `Kind::message` is private to
// `frames`, which hands out no message that it did not look at, so the messages of the kinds stand here again.
fn made(kind: u8, first: u32, second: u32) -> Result<Message, Refusal> {
    let number = kind as u32;
    match Kind::try_from(number) {
        Ok(Kind::ReadRequest) => Ok(Message::ReadRequest(first)),
        Ok(Kind::WriteRequest) => Ok(Message::WriteRequest(first, second)),
        Ok(Kind::ReadAnswer) => Ok(Message::ReadAnswer(first, second)),
        Ok(Kind::Outranked) => Ok(Message::Outranked),
        Ok(Kind::Taken) => Ok(Message::Taken),
        Ok(Kind::NotTaken) => Ok(Message::NotTaken),
        Err(_) => frames::message_of(number, first, second),
    }
}

// A refusal of the writer with its cause, or that there is none.
fn turned_away(refusal: Option<Refusal>) -> RefusedBut<'static> {
    RefusedBut {
        refusal,
        one: Refusal::Room,
        cause: "buffer shorter than the frame",
    }
}

// The parts of a case: the buffer's size, the kind, and two fields.
pub(crate) fn make(rt: &impl Print, case: Case) -> io::Result<()> {
    let bytes = case.bytes;
    let first = cases::number(bytes, 2);
    let second = cases::number(bytes, 6);
    rt.write_all(case.line)?;
    match made(base::byte_at(bytes, 1), first, second) {
        Err(refusal) => println!(rt; " -> no message: {}", turned_away(Some(refusal))),
        Ok(m) => {
            let mut buffer = [0xee; 40];
            let buffer = cases::first(&mut buffer, base::byte_at(bytes, 0) as usize);
            let answer = frames::write_frame(buffer, m);
            cases::written(rt, answer, turned_away(answer.err()), buffer)
        }
    }
}

// The refusal of the first so many bytes of an input.
fn refused(input: &[u8], size: usize) -> u8 {
    base::number_if(frames::read_frame(cases::up_to(input, size)).err())
}

// A length with the refusals of an input one byte shorter than the frame, of the frame, and of an input one byte longer.
fn row(rt: &impl Print, kind: u8, version: u8, stated: u8) -> io::Result<()> {
    let input = [0, stated, version, kind, 5, 5, 5, 5, 5, 5, 5, 5, 5, 5, 5];
    let size = stated as usize + 2;
    let shorter = refused(&input, size - 1);
    let whole = refused(&input, size);
    let longer = refused(&input, size + 1);
    print!(rt; "{stated}: {shorter} {whole} {longer}")
}

// The lengths 0 to 12. The bytes of a case: kind and version.
pub(crate) fn table(rt: &impl Print, case: Case) -> io::Result<()> {
    let kind = base::byte_at(case.bytes, 0);
    let version = base::byte_at(case.bytes, 1);
    rt.write_all(case.line)?;
    print!(rt; " -> ")?;
    for stated in 0..13 {
        if 0 < stated {
            print!(rt; ", ")?;
        }
        row(rt, kind, version, stated)?;
    }
    println!(rt)
}
