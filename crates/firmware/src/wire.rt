// The reader and the writer of frames as box firmware in C calls them: a message is its kind's number and two fields.
ghost use Rattle.std.specs.Prelude.{◌≡◌, length};
ghost use Rattle.base.specs.Refusals.{number_in, size_in};
ghost use Rattle.frames.specs.Reader.{formed, parsed, kind_in, first_in, second_in, frame_refusal, behind_start, behind_of};
ghost use Rattle.firmware.specs.Wire.{refusal_for, size_for, buffer_for};

use base::Refusal;

// The frame at the start of the input: stores the kind and its fields, where the part behind the frame starts and how many bytes it has.
// All are 0 where the input is refused.
#[tactic(auto, using(crate::proofs::WireLaws::starts, crate::proofs::WireLaws::within, crate::proofs::WireLaws::left, crate::proofs::WireLaws::no_start, crate::proofs::WireLaws::none_left))]
pub fn frame_read(
    input: &[u8],
    kind: &mut u32,
    first: &mut u32,
    second: &mut u32,
    rest: &mut usize,
    left: &mut usize,
) -> u32
    ensures answer { result ≡ frame_refusal input.now }
    ensures kind { kind.new ≡ kind_in (parsed input.now) }
    ensures first { first.new ≡ first_in (parsed input.now) }
    ensures second { second.new ≡ second_in (parsed input.now) }
    ensures rest { rest.new ≡ behind_start input.now }
    ensures left { left.new ≡ length (behind_of input.now) }
{
    match frames::read_frame(input) {
        Ok(message) => {
            let fields = message.fields();
            let end = frames::frame_end(input);
            *kind = u32::from(message.kind().number());
            *first = fields[0];
            *second = fields[1];
            *rest = end;
            *left = input.len() - end;
            0
        }
        Err(refusal) => {
            *kind = 0;
            *first = 0;
            *second = 0;
            *rest = 0;
            *left = 0;
            crate::answer_of(refusal)
        }
    }
}

// The frame of the message of that kind and fields.
fn write(buffer: &mut [u8], kind: u32, first: u32, second: u32) -> Result<usize, Refusal>
    ensures answer { number_in result ≡ refusal_for (length buffer.old) (formed kind first second) }
    ensures size { size_in result ≡ size_for (length buffer.old) (formed kind first second) }
    ensures buffer { buffer.new ≡ buffer_for buffer.old (formed kind first second) }
{
    let message = frames::message_of(kind, first, second)?;
    frames::write_frame(buffer, message)
}

// Writes the frame of the message of that kind and fields into the buffer, and stores its size.
pub fn frame_write(buffer: &mut [u8], kind: u32, first: u32, second: u32, size: &mut usize) -> u32
    ensures answer { result ≡ refusal_for (length buffer.old) (formed kind first second) }
    ensures size { size.new ≡ size_for (length buffer.old) (formed kind first second) }
    ensures buffer { buffer.new ≡ buffer_for buffer.old (formed kind first second) }
{
    let written = write(buffer, kind, first, second);
    crate::answer_written(written, size)
}
