// C interface: the calls of crate `firmware` for C, under the names and with the clauses that they have there, since no crate can use a
// library for C; include/box_firmware.h declares them.
#![tactic(auto)]

ghost use Rattle.std.specs.Prelude.{◌≡◌, length};
ghost use Rattle.frames.specs.Reader.{formed, parsed, kind_in, first_in, second_in, frame_refusal, behind_start, behind_of};
ghost use Rattle.firmware.specs.Firmware.{read_answer, record_after_read, reply_after_read, write_answer, record_after_write};
ghost use Rattle.firmware.specs.Serve.{serve_answer, record_after_serve, buffer_after_serve, size_after_serve};
ghost use Rattle.firmware.specs.Wire.{refusal_for, size_for, buffer_for};

#[unsafe(no_mangle)]
pub extern "C" fn box_read(bytes: &mut [u8], rank: u32, reply: &mut [u8]) -> u32
    ensures answer { result ≡ read_answer bytes.old rank reply.old }
    ensures kept { bytes.new ≡ record_after_read bytes.old rank reply.old }
    ensures replied { reply.new ≡ reply_after_read bytes.old rank reply.old }
{
    firmware::box_read(bytes, rank, reply)
}

#[unsafe(no_mangle)]
pub extern "C" fn box_write(bytes: &mut [u8], rank: u32, revision: u32) -> u32
    ensures answer { result ≡ write_answer bytes.old rank revision }
    ensures kept { bytes.new ≡ record_after_write bytes.old rank revision }
{
    firmware::box_write(bytes, rank, revision)
}

#[unsafe(no_mangle)]
pub extern "C" fn frame_read(
    input: &[u8],
    kind: &mut u32,
    first: &mut u32,
    second: &mut u32,
    rest: &mut usize,
    left: &mut usize,
) -> u32
    ensures answer { result ≡ frame_refusal input.now }
    ensures kind { kind.new ≡ kind_in (parsed input.now) }
    ensures first { first.new ≡ first_in (parsed input.now) }
    ensures second { second.new ≡ second_in (parsed input.now) }
    ensures rest { rest.new ≡ behind_start input.now }
    ensures left { left.new ≡ length (behind_of input.now) }
{
    firmware::frame_read(input, kind, first, second, rest, left)
}

#[unsafe(no_mangle)]
pub extern "C" fn frame_write(
    buffer: &mut [u8],
    kind: u32,
    first: u32,
    second: u32,
    size: &mut usize,
) -> u32
    ensures answer { result ≡ refusal_for (length buffer.old) (formed kind first second) }
    ensures size { size.new ≡ size_for (length buffer.old) (formed kind first second) }
    ensures buffer { buffer.new ≡ buffer_for buffer.old (formed kind first second) }
{
    firmware::frame_write(buffer, kind, first, second, size)
}

#[unsafe(no_mangle)]
pub extern "C" fn box_serve(
    bytes: &mut [u8],
    input: &[u8],
    buffer: &mut [u8],
    size: &mut usize,
) -> u32
    ensures answer { result ≡ serve_answer bytes.old input.now (length buffer.old) }
    ensures kept { bytes.new ≡ record_after_serve bytes.old input.now (length buffer.old) }
    ensures buffer { buffer.new ≡ buffer_after_serve bytes.old input.now buffer.old }
    ensures size { size.new ≡ size_after_serve bytes.old input.now (length buffer.old) }
{
    firmware::box_serve(bytes, input, buffer, size)
}
