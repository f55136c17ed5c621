// The writer: the frame of a message, in a lent buffer.
ghost use Rattle.std.specs.Prelude.{◌≡◌, ◌++◌, ◌+◌, ◌*◌, ◌≤◌, [], ◌∷◌, length, take, drop};
ghost use Rattle.base.specs.Bytes.{word32, bytes32};
ghost use Rattle.base.specs.Refusals.{number_in, size_in};
ghost use Rattle.frames.specs.Messages.{number_of, fields_in};
ghost use Rattle.frames.specs.Writer.{write_refusal, written_size, written_buffer};

use crate::{Kind, Message};
use base::Refusal;

// The first four bytes of a frame as a number: the length, the version, the kind.
fn head(kind: Kind) -> u32
    ensures { result ≡ word32 0 (2 + 4 * fields_in (number_of kind)) 1 (number_of kind) }
{
    base::be32(0, 2 + 4 * kind.field_count(), 1, kind.number())
}

// Puts the head and so many fields at the start of the buffer. Words are put, not bytes copied, so that a box's archive needs no C library.
fn put_words(buffer: &mut [u8], fields: usize, head: u32, first: u32, second: u32)
    requires { (fields ≤ 2) × (4 + 4 * fields ≤ length buffer.old) }
    ensures { buffer.new ≡ take (4 + 4 * fields) (bytes32 head ++ (bytes32 first ++ bytes32 second)) ++ drop (4 + 4 * fields) buffer.old }
{
    base::put_u32(buffer, 0, head);
    if fields < 1 {
        return;
    }
    base::put_u32(buffer, 4, first);
    if fields < 2 {
        return;
    }
    base::put_u32(buffer, 8, second);
}

// Writes the frame of the message into the buffer, and answers its size.
pub fn write_frame(buffer: &mut [u8], m: Message) -> Result<usize, Refusal>
    ensures refusal { number_in result ≡ write_refusal (length buffer.old) m }
    ensures size { size_in result ≡ written_size (length buffer.old) m }
    ensures buffer { buffer.new ≡ written_buffer buffer.old m }
{
    m.checked()?;
    let kind = m.kind();
    let fields = usize::from(kind.field_count());
    let size = 4 + 4 * fields;
    if buffer.len() < size {
        return Err(Refusal::Room);
    }
    let [first, second] = m.fields();
    put_words(buffer, fields, head(kind), first, second);
    Ok(size)
}
