// The writer: a drill file of version 1 or 2 from its parts, in a lent buffer (document 02, wishes 1, 6 and 8).
ghost use Rattle.std.specs.Prelude.{◌≡◌, [], ◌∷◌, ◌++◌, ◌+◌, ◌-◌, ◌≤◌, ◌<◌, ltb, length, not};
ghost use Rattle.base.specs.Bytes.{bytes16};
ghost use Rattle.base.specs.Records.{records_in};
ghost use Rattle.base.specs.Refusals.{number_in, size_in};
ghost use Rattle.drill_file.specs.Writer.{parts_in, wrong_text, wrong_given, has_kind, write_refusal, written_size, written_buffer};

use base::Refusal;

// The parts of a drill that is to be written; of its records the bytes, record behind record.
#[derive(Clone, Copy)]
pub struct Drill<'a> {
    pub version: u8,
    pub n: u8,
    pub m: u8,
    pub label: &'a [u8],
    pub departments: &'a [u8],
    pub records: &'a [u8],
}

// Refusal 4.
#[tactic(auto, unfolding(crate::specs::Writer::wrong_text))]
fn wrong_text(label: &[u8]) -> bool
    ensures { result ≡ wrong_text label.now }
{
    crate::wrong_length(label.len()) || crate::wrong_bytes(label)
}

// Refusal 22.
#[tactic(auto, unfolding(crate::specs::Writer::wrong_given))]
fn wrong_given(version: u8, m: u8, departments: &[u8]) -> bool
    ensures { result ≡ wrong_given version m departments.now }
{
    base::departments_wrong(crate::departments_due(version, m), departments)
}

// Whether one of the records is of that kind. Nothing else in a record is looked at.
#[tactic(auto, unfolding(crate::specs::Writer::has_kind))]
fn has_kind(kind: u8, records: &[[u8; 8]]) -> bool
    ensures { result ≡ has_kind kind records.now }
{
    for record in records {
        if record[0] == kind {
            return true;
        }
    }
    false
}

// Refusal 7, of records given as their bytes.
#[tactic(auto, using(crate::proofs::WriterLaws::records_are_whole))]
fn any_kind_6(records: &[u8]) -> bool
    ensures { result ≡ has_kind 6 (records_in records.now) }
{
    has_kind(6, records.as_chunks::<8>().0)
}

impl<'a> Drill<'a> {
    // Refusal 18: whether so many bytes of room are too few.
    fn too_long(self, room: usize) -> bool
        ensures { result ≡ ltb room (6 + length self.entry.label.now + length self.entry.departments.now + length self.entry.records.now) }
    {
        room.checked_sub(6)
            .and_then(|rest| rest.checked_sub(self.label.len()))
            .and_then(|rest| rest.checked_sub(self.departments.len()))
            .is_none_or(|rest| rest < self.records.len())
    }

    // The first refusal that applies, where the buffer has so many bytes of room.
    #[tactic(auto, using(base::proofs::Tests::picks, crate::proofs::WriterLaws::short_said), unfolding(crate::specs::Writer::write_refusal))]
    fn accept(self, room: usize) -> Result<(), Refusal>
        ensures { number_in result ≡ write_refusal room (parts_in self.entry) }
    {
        if crate::unknown_version(self.version) {
            return Err(Refusal::Version);
        }
        if !base::sizes_right(self.n, self.m) {
            return Err(Refusal::Sizes);
        }
        if wrong_text(self.label) {
            return Err(Refusal::Label);
        }
        if wrong_given(self.version, self.m, self.departments) {
            return Err(Refusal::Departments);
        }
        if crate::wrong_run(self.records.len()) {
            return Err(Refusal::Records);
        }
        if any_kind_6(self.records) {
            return Err(Refusal::Kind);
        }
        if self.too_long(room) {
            return Err(Refusal::Room);
        }
        Ok(())
    }

    // The bytes before the label, of a file of that size.
    fn head(self, size: usize) -> [u8; 6]
        requires { (2 ≤ size) × (size < 65536) × (length self.label.now < 256) }
        ensures { result ≡ bytes16 (size - 2) ++ (self.entry.version ∷ self.entry.n ∷ self.entry.m ∷ length self.entry.label.now ∷ []) }
    {
        let l = base::split16((size - 2) as u16);
        [
            l[0],
            l[1],
            self.version,
            self.n,
            self.m,
            self.label.len() as u8,
        ]
    }
}

// Writes the file of these parts into the buffer, and returns its size.
#[tactic(auto, using(crate::proofs::WriterLaws::parts_short))]
pub fn write_file(buffer: &mut [u8], drill: Drill) -> Result<usize, Refusal>
    ensures refusal { number_in result ≡ write_refusal (length buffer.old) (parts_in drill.entry) }
    ensures size { size_in result ≡ written_size (length buffer.old) (parts_in drill.entry) }
    ensures buffer { buffer.new ≡ written_buffer buffer.old (parts_in drill.entry) }
{
    drill.accept(buffer.len())?;
    let end = 6 + drill.label.len();
    let start = end + drill.departments.len();
    let size = start + drill.records.len();
    let first = drill.head(size);
    base::put_bytes(buffer, 0, &first);
    base::put_bytes(buffer, 6, drill.label);
    base::put_bytes(buffer, end, drill.departments);
    base::put_bytes(buffer, start, drill.records);
    Ok(size)
}
