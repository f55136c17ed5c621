// The tally of box records, of one department: how many boxes are not away, and the highest write rank of the department's records
// among those. Wish 6 of document 02: "Each box keeps one record a department, and the tally is told which."
#![tactic(auto)]

ghost use Rattle.std.specs.Prelude.{◌≡◌, take};
ghost use Rattle.tally.specs.Tally.{tally_of};

use register::{Department, StorageBox};

// How many boxes are not away, and the highest write rank of a department among those; 0 and 0 where there are none.
#[derive(Clone, Copy)]
pub struct Tally {
    pub count: usize,
    pub highest: u32,
}

// The department's tally of a lent run of boxes, in one pass.
pub fn tally_of(boxes: &[StorageBox], d: Department) -> Tally
    ensures { result ≡ tally_of d boxes.now }
{
    let mut t = Tally {
        count: 0,
        highest: 0,
    };
    for b in boxes {
        if !b.away {
            t = Tally {
                count: t.count + 1,
                highest: t.highest.max(b.registers.of(d).write),
            };
        }
    }
    t
}

// That of the first n boxes of an array, by value; of all of them where n is more.
#[tactic(auto, using(crate::proofs::TallyLaws::take_min))]
fn tally_first<const N: usize>(boxes: [StorageBox; N], n: u8, d: Department) -> Tally
    ensures { result ≡ tally_of d (take n boxes.entry) }
{
    let k = (n as usize).min(N);
    tally_of(&boxes[..k], d)
}

// The department's tally of the first n boxes of a floor: document 01's form, over the floor's array by value.
pub fn tally_floor(boxes: [StorageBox; 9], n: u8, d: Department) -> Tally
    ensures { result ≡ tally_of d (take n boxes) }
{
    tally_first(boxes, n, d)
}

// The department's tally of a run of at most 16 boxes: for callers that hold an array by value (docs/DECISIONS.md, reading 16).
pub fn tally_lent(boxes: [StorageBox; 16], n: u8, d: Department) -> Tally
    ensures { result ≡ tally_of d (take n boxes) }
{
    tally_first(boxes, n, d)
}
