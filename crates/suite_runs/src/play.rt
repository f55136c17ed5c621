// Plays a file and says what came of it.
use crate::write;
use base::Refusal;
use cases::{Case, Hex, Refused};
use floor_cases::{CanvasStations, Step};
use std::io;

// Whether a refusal is of a step, and not of the file.
fn of_step(refusal: Refusal) -> bool {
    matches!(
        refusal,
        Refusal::Unsound
            | Refusal::Kind
            | Refusal::Unknown
            | Refusal::Gone
            | Refusal::Busy
            | Refusal::Round
            | Refusal::NoRow
            | Refusal::Away
            | Refusal::NotDue
            | Refusal::NotAway
    )
}

// How many steps of a file were accepted, and the refusal, with the step that it turned back; and what comes of writing the file
// again, if it is accepted.
fn ended(
    rt: &impl Print,
    file: &[u8],
    accepted: usize,
    refusal: Option<Refusal>,
) -> io::Result<()> {
    print!(rt; "accepted {accepted}, {}", Refused(refusal))?;
    if refusal.is_some_and(of_step) {
        let record = runs::record_at(floor_cases::records(file), accepted);
        print!(rt; " of the step: {}", Step(record))?;
    }
    write::accepted(rt, file)?;
    println!(rt)
}

// The department bytes that the reader hands back, if there are any.
fn departments(rt: &impl Print, file: &[u8]) -> io::Result<()> {
    let told = drill_file::departments(file);
    if told.is_empty() {
        return Ok(());
    }
    print!(rt; "departments{}, ", Hex(told))
}

// What a file is, its label in brackets and its department bytes, and how it ended.
pub(crate) fn file(rt: &impl Print, case: Case) -> io::Result<()> {
    rt.write_all(case.line)?;
    print!(rt; " -> panel [")?;
    rt.write_all(drill_file::label(case.bytes))?;
    print!(rt; "], ")?;
    departments(rt, case.bytes)?;
    let played = player::play(case.bytes);
    ended(rt, case.bytes, played.accepted, played.refusal)
}

// The same, and the stations at the end.
pub(crate) fn play(rt: &impl Print, case: Case) -> io::Result<()> {
    file(rt, case)?;
    let played = player::play(case.bytes);
    print!(rt; "{}", floor_cases::stations(&played.floor))
}

// What came of each step of a file, also behind a refused one, the stations and boxes at the end, and how the file ends.
pub(crate) fn run(rt: &impl Print, case: Case) -> io::Result<()> {
    let bytes = case.bytes;
    let mut f = floor_cases::started(bytes);
    floor_cases::print_start(rt, case, &f)?;
    floor_cases::turns(rt, &mut f, floor_cases::records(bytes), |f, r| {
        print!(rt; "{}", floor_cases::step(f, r))
    })?;
    print!(rt;
        "\n{}{}  as a file: ",
        floor_cases::stations(&f),
        floor_cases::boxes(&f)
    )?;
    let played = player::play(bytes);
    ended(rt, bytes, played.accepted, played.refusal)
}

// A new floor: its sizes, the refusal, and the stations that are of canvas. The bytes of a case: n, m and the department bytes.
pub(crate) fn new_floor(rt: &impl Print, case: Case) -> io::Result<()> {
    let n = base::byte_at(case.bytes, 0);
    let m = base::byte_at(case.bytes, 1);
    let made = steps::new_floor(n, m, cases::from(case.bytes, 2));
    let f = made.floor;
    rt.write_all(case.line)?;
    print!(rt;
        " -> boxes {}, stations {}, {}",
        f.n,
        f.m,
        Refused(made.refusal)
    )?;
    println!(rt; "{}", CanvasStations(&f))
}
