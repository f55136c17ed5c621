// Serving a request: reader, box routine and writer one after the other, as box firmware in C calls them.
ghost use Rattle.std.specs.Prelude.{◌≡◌, length, eqb};
ghost use Rattle.base.specs.Choice.{when◌then◌else◌};
ghost use Rattle.base.specs.Refusals.{number_in, size_in};
ghost use Rattle.firmware.specs.Firmware.{encode};
ghost use Rattle.firmware.specs.Serve.{loaded, read_done, write_done, served_of, serve_answer, record_after_serve, buffer_after_serve, size_after_serve};

use base::Refusal;
use frames::Message;
use register::{ReadDone, Register, WriteDone};

// What comes of a request that is served: the register after the routine, and the answer.
#[derive(Clone, Copy)]
pub struct Served {
    pub register: Register,
    pub answer: Message,
}

impl From<ReadDone> for Served {
    ghost from_gives = { λ done served. served ≡ read_done done };

    #[tactic(auto, using(base::proofs::Tests::picks), unfolding(crate::specs::Serve::answer_to_read))]
    fn from(done: ReadDone) -> Served {
        let answer = match done.answer {
            Some(held) => Message::ReadAnswer(held.rank, held.value.r0),
            None => Message::Outranked,
        };
        Served {
            register: done.register,
            answer,
        }
    }
}

impl From<WriteDone> for Served {
    ghost from_gives = { λ done served. served ≡ write_done done };

    #[tactic(auto, using(base::proofs::Tests::picks), unfolding(crate::specs::Serve::answer_to_write))]
    fn from(done: WriteDone) -> Served {
        let answer = if done.taken {
            Message::Taken
        } else {
            Message::NotTaken
        };
        Served {
            register: done.register,
            answer,
        }
    }
}

// The register in a record, or refusal 16.
#[tactic(auto, using(base::proofs::Tests::picks), unfolding(crate::specs::Serve::loaded))]
fn load(bytes: &[u8]) -> Result<Register, Refusal>
    ensures { result ≡ loaded bytes.now }
{
    let record = <[u8; 12]>::try_from(bytes).map_err(|_| Refusal::Length)?;
    Ok(crate::decode(record))
}

// Stores a register in a record. In what is no record nothing is stored.
#[tactic(auto, using(base::proofs::Tests::picks))]
fn store(bytes: &mut [u8], x: Register)
    ensures { bytes.new ≡ (when eqb (length bytes.old) 12 then encode x else bytes.old) }
{
    if let Some(record) = bytes.as_mut_array() {
        crate::store(record, x);
    }
}

// A message: a request is served, any other is turned away.
fn serve(bytes: &[u8], request: Message) -> Result<Served, Refusal>
    ensures { result ≡ served_of bytes.now request }
{
    match request {
        Message::ReadRequest(rank) => load(bytes).map(|x| Served::from(x.rmw_read(rank))),
        Message::WriteRequest(rank, revision) => {
            load(bytes).map(|x| Served::from(x.rmw_write(rank, suits::of_one(revision))))
        }
        Message::ReadAnswer(_, _) | Message::Outranked | Message::Taken | Message::NotTaken => {
            Err(Refusal::Message)
        }
    }
}

// The answer's frame is in the buffer before the register is stored.
#[tactic(auto, using(base::proofs::Tests::picks, crate::proofs::ServeLaws::stored), unfolding(crate::specs::Serve::serve_answer, crate::specs::Serve::record_after_serve, crate::specs::Serve::buffer_after_serve, crate::specs::Serve::size_after_serve))]
fn serve_frame(bytes: &mut [u8], input: &[u8], buffer: &mut [u8]) -> Result<usize, Refusal>
    ensures answer { number_in result ≡ serve_answer bytes.old input.now (length buffer.old) }
    ensures kept { bytes.new ≡ record_after_serve bytes.old input.now (length buffer.old) }
    ensures buffer { buffer.new ≡ buffer_after_serve bytes.old input.now buffer.old }
    ensures size { size_in result ≡ size_after_serve bytes.old input.now (length buffer.old) }
{
    let request = frames::read_frame(input)?;
    let served = serve(bytes, request)?;
    let size = frames::write_frame(buffer, served.answer)?;
    store(bytes, served.register);
    Ok(size)
}

// Serves the request frame at the start of the input on the record `bytes`, writes the answer's frame into the buffer and stores its size.
// Nothing is stored in the record before the answer is written.
pub fn box_serve(bytes: &mut [u8], input: &[u8], buffer: &mut [u8], size: &mut usize) -> u32
    ensures answer { result ≡ serve_answer bytes.old input.now (length buffer.old) }
    ensures kept { bytes.new ≡ record_after_serve bytes.old input.now (length buffer.old) }
    ensures buffer { buffer.new ≡ buffer_after_serve bytes.old input.now buffer.old }
    ensures size { size.new ≡ size_after_serve bytes.old input.now (length buffer.old) }
{
    let served = serve_frame(bytes, input, buffer);
    crate::answer_written(served, size)
}
