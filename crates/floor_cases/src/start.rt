// The floor that a case starts on, its records, and one step of it.
ghost use Rattle.std.specs.Prelude.{◌≡◌};
ghost use Rattle.floor.specs.Step.{step_of};
ghost use Rattle.floor_cases.specs.Start.{told_count, behind_label, records_behind, start_of};

use crate::standing::CanvasStations;
use crate::words::Took;
use cases::Case;
use floor::{Floor, NewFloor};
use std::io;

// How many department bytes a file has: one a station in version 2, none in version 1.
#[tactic(auto, using(base::proofs::Tests::picks), unfolding(crate::specs::Start::told_count))]
fn told(file: &[u8]) -> u8
    ensures { result ≡ told_count file.now }
{
    if base::byte_at(file, 2) == 2 {
        base::byte_at(file, 4)
    } else {
        0
    }
}

// What stands behind the label of a file.
fn behind_label(file: &[u8]) -> &[u8]
    ensures { result.now ≡ behind_label file.now }
{
    cases::from(file, base::byte_at(file, 5) as usize + 6)
}

// The records of a file: what stands behind its label and its department bytes.
pub fn records(file: &[u8]) -> &[u8]
    ensures { result.now ≡ records_behind file.now }
{
    cases::from(behind_label(file), told(file) as usize)
}

// The new floor of the sizes and departments in a file.
#[tactic(auto, using(base::proofs::Tests::picks), unfolding(crate::specs::Start::start_of))]
fn floor_of(file: &[u8]) -> NewFloor
    ensures { result ≡ start_of file.now }
{
    let n = base::byte_at(file, 3);
    let m = base::byte_at(file, 4);
    let count = told(file);
    if count == 0 {
        return steps::new_floor(n, m, cases::up_to(&[0; 16], m as usize));
    }
    steps::new_floor(n, m, cases::up_to(behind_label(file), count as usize))
}

// The new floor of a case.
pub fn started(bytes: &[u8]) -> Floor
    ensures { result ≡ (start_of bytes.now).floor }
{
    floor_of(bytes).floor
}

// Says what the case is and its new floor, with the sizes that the case says, be these refused or not.
pub fn print_start(rt: &impl Print, case: Case, f: &Floor) -> io::Result<()> {
    let n = base::byte_at(case.bytes, 3);
    let m = base::byte_at(case.bytes, 4);
    rt.write_all(case.words)?;
    print!(rt; "(new floor: boxes {n}, stations {m}{})", CanvasStations(f))
}

// Takes one step, and gives it and what came of it.
pub fn step(f: &mut Floor, r: [u8; 8]) -> Took
    ensures floor { f.new ≡ (step_of f.old r).floor }
    ensures step { result.step ≡ r }
    ensures outcome { result.outcome ≡ (step_of f.old r).outcome }
{
    let s = steps::step(*f, r);
    *f = s.floor;
    Took {
        step: r,
        outcome: s.outcome,
    }
}

// Takes each record of a run as `turn` does, a line for each with its number.
pub fn turns<F: Fn(&mut Floor, [u8; 8]) -> io::Result<()>>(
    rt: &impl Print,
    f: &mut Floor,
    run: &[u8],
    turn: F,
) -> io::Result<()>
    requires { F.IsAlwaysCallable turn }
{
    let (records, _) = run.as_chunks::<8>();
    for (k, r) in records.iter().enumerate() {
        print!(rt; "\n  {k} ")?;
        turn(f, *r)?;
    }
    Ok(())
}
