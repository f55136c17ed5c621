// The writer of crate `drill_file` for C: returns the refusal's number and stores the size. include/drill_writer.h declares it.
#![tactic(auto)]

ghost use Rattle.std.specs.Prelude.{◌≡◌, length};
ghost use Rattle.drill_file.specs.Writer.{parts_given, write_refusal, written_size, written_buffer};

use drill_file::Drill;

// C interface: numbers and slices one by one, and an out-parameter.
#[unsafe(no_mangle)]
pub extern "C" fn drill_write(
    buffer: &mut [u8],
    version: u8,
    n: u8,
    m: u8,
    label: &[u8],
    departments: &[u8],
    records: &[u8],
    size: &mut usize,
) -> u32
    ensures refusal { result ≡ write_refusal (length buffer.old) (parts_given version n m label.now departments.now records.now) }
    ensures size { size.new ≡ written_size (length buffer.old) (parts_given version n m label.now departments.now records.now) }
    ensures buffer { buffer.new ≡ written_buffer buffer.old (parts_given version n m label.now departments.now records.now) }
{
    let drill = Drill {
        version,
        n,
        m,
        label,
        departments,
        records,
    };
    let written = drill_file::write_file(buffer, drill);
    *size = written.unwrap_or(0);
    u32::from(base::number_if(written.err()))
}
