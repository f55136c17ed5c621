// The drill file: its header, its label, its departments and its records (document 01, "The drill file" and the refusals 1 to 5; document
// 02, wish 6), and the writer.
#![tactic(auto)]

ghost use Rattle.std.specs.Prelude.{◌≡◌, ◌-◌, ◌≤◌, length};
ghost use Rattle.base.specs.Part.{IsPart};
ghost use Rattle.base.specs.Refusals.{number_in};
ghost use Rattle.drill_file.specs.DrillFile.{label_end, departments_due, records_start, after_header, outside, any_byte, wrong_size, unknown_version, wrong_version, wrong_floor, wrong_byte, wrong_length, wrong_label, wrong_departments, wrong_run, wrong_records, file_refusal, header_of, header_values, file_values, if_accepted, label_of, label_start, departments_of, departments_start};

mod writer;

use base::Refusal;
use std::ops::Range;
pub use writer::{Drill, write_file};

// What the header of an accepted file says: n, m, where the records start and how many there are.
#[derive(Clone, Copy, Debug, PartialEq, Eq)]
pub struct Header {
    pub n: u8,
    pub m: u8,
    pub start: usize,
    pub count: usize,
}

// Where the label ends.
fn label_end(file: &[u8]) -> usize
    ensures { result ≡ label_end file.now }
{
    6 + usize::from(base::byte_at(file, 5))
}

// How many department bytes a file of that version and with m stations has.
#[tactic(auto, unfolding(crate::specs::DrillFile::departments_due))]
fn departments_due(version: u8, m: u8) -> usize
    ensures { result ≡ departments_due version m }
{
    if version == 2 { usize::from(m) } else { 0 }
}

// Where the records start: behind the label and the departments.
#[tactic(auto, using(crate::proofs::FileLaws::due_most))]
fn records_start(file: &[u8]) -> usize
    ensures { result ≡ records_start file.now }
{
    label_end(file) + departments_due(base::byte_at(file, 2), base::byte_at(file, 4))
}

// How many bytes follow the label and the departments.
fn after_header(file: &[u8]) -> usize
    ensures { result ≡ after_header file.now }
{
    file.len().saturating_sub(records_start(file))
}

// Refusal 1.
#[tactic(auto, unfolding(crate::specs::DrillFile::wrong_size, crate::specs::DrillFile::outside))]
fn wrong_size(file: &[u8]) -> bool
    ensures { result ≡ wrong_size file.now }
{
    let size = file.len();
    !(6..=32822).contains(&size)
        || usize::from(base::be16(base::byte_at(file, 0), base::byte_at(file, 1))) != size - 2
}

// Whether a version is not 1 or 2.
#[tactic(auto, unfolding(crate::specs::DrillFile::unknown_version, crate::specs::DrillFile::outside))]
fn unknown_version(version: u8) -> bool
    ensures { result ≡ unknown_version version }
{
    !(1..=2).contains(&version)
}

// Refusal 2.
#[tactic(auto, unfolding(crate::specs::DrillFile::wrong_version))]
fn wrong_version(file: &[u8]) -> bool
    ensures { result ≡ wrong_version file.now }
{
    unknown_version(base::byte_at(file, 2))
}

// Refusal 3.
#[tactic(auto, unfolding(crate::specs::DrillFile::wrong_floor))]
fn wrong_floor(file: &[u8]) -> bool
    ensures { result ≡ wrong_floor file.now }
{
    !base::sizes_right(base::byte_at(file, 3), base::byte_at(file, 4))
}

// Whether a byte of a label is not 33 to 126.
#[tactic(auto, unfolding(crate::specs::DrillFile::any_byte, crate::specs::DrillFile::wrong_byte, crate::specs::DrillFile::outside))]
fn wrong_bytes(s: &[u8]) -> bool
    ensures { result ≡ any_byte wrong_byte s.now }
{
    s.iter().any(|b| !(33..=126).contains(b))
}

// Whether a label may not have that many bytes.
#[tactic(auto, unfolding(crate::specs::DrillFile::wrong_length, crate::specs::DrillFile::outside))]
fn wrong_length(k: usize) -> bool
    ensures { result ≡ wrong_length k }
{
    !(1..=32).contains(&k)
}

// Refusal 4.
#[tactic(auto, unfolding(crate::specs::DrillFile::wrong_label))]
fn wrong_label(file: &[u8]) -> bool
    ensures { result ≡ wrong_label file.now }
{
    let end = label_end(file);
    wrong_length(usize::from(base::byte_at(file, 5)))
        || file.len() < end
        || wrong_bytes(&file[6..end])
}

// Refusal 22.
#[tactic(auto, unfolding(crate::specs::DrillFile::wrong_departments))]
fn wrong_departments(file: &[u8]) -> bool
    ensures { result ≡ wrong_departments file.now }
{
    let first = label_end(file);
    let records = records_start(file);
    file.len() < records || base::not_departments(&file[first..records])
}

// Whether that many bytes are not whole records, or too many of them.
#[tactic(auto, unfolding(crate::specs::DrillFile::wrong_run))]
fn wrong_run(k: usize) -> bool
    ensures { result ≡ wrong_run k }
{
    k % 8 != 0 || 4096 < k / 8
}

// Refusal 5.
#[tactic(auto, unfolding(crate::specs::DrillFile::wrong_records))]
fn wrong_records(file: &[u8]) -> bool
    ensures { result ≡ wrong_records file.now }
{
    wrong_run(after_header(file))
}

// The first of the refusals 1 to 5 and 22 that applies.
#[tactic(auto, using(base::proofs::Tests::picks), unfolding(crate::specs::DrillFile::file_refusal))]
fn accept(file: &[u8]) -> Result<(), Refusal>
    ensures { number_in result ≡ file_refusal file.now }
{
    if wrong_size(file) {
        return Err(Refusal::FileSize);
    }
    if wrong_version(file) {
        return Err(Refusal::Version);
    }
    if wrong_floor(file) {
        return Err(Refusal::Sizes);
    }
    if wrong_label(file) {
        return Err(Refusal::Label);
    }
    if wrong_departments(file) {
        return Err(Refusal::Departments);
    }
    if wrong_records(file) {
        return Err(Refusal::Records);
    }
    Ok(())
}

// The header of a file of any bytes.
#[tactic(auto, using(crate::proofs::FileLaws::header_accepted, crate::proofs::FileLaws::values_accepted))]
pub fn read_header(file: &[u8]) -> Result<Header, Refusal>
    ensures answer { result ≡ header_of file.now }
    ensures number { number_in result ≡ file_refusal file.now }
    ensures values { header_values result ≡ file_values file.now }
{
    accept(file)?;
    Ok(Header {
        n: base::byte_at(file, 3),
        m: base::byte_at(file, 4),
        start: records_start(file),
        count: after_header(file) / 8,
    })
}

// That part of an accepted file; of a refused file, the empty part at its start.
fn accepted_part(file: &[u8], part: Range<usize>) -> &[u8]
    requires { file_refusal file.now ≡ 0 → (part.start ≤ part.end) × (part.end ≤ length file.now) }
    ensures { IsPart result file.entry (if_accepted file.now part.start) (if_accepted file.now (part.end - part.start)) }
{
    match accept(file) {
        Ok(()) => &file[part],
        Err(_) => &file[..0],
    }
}

// The label, as that part of the file; of a refused file, the empty part at its start.
pub fn label(file: &[u8]) -> &[u8]
    ensures bytes { result.now ≡ label_of file.now }
    ensures place { IsPart result file.entry (label_start file.now) (length (label_of file.now)) }
{
    accepted_part(file, 6..label_end(file))
}

// The department bytes, as that part of the file, empty in version 1; of a refused file, the empty part at its start.
pub fn departments(file: &[u8]) -> &[u8]
    ensures bytes { result.now ≡ departments_of file.now }
    ensures place { IsPart result file.entry (departments_start file.now) (length (departments_of file.now)) }
{
    accepted_part(file, label_end(file)..records_start(file))
}
