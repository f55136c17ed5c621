// Writes drill files and says what came of it.
use base::Refusal;
use cases::{Case, RefusedBut};
use drill_file::Drill;
use std::io;

// A refusal of the writer with its cause, or that there is none.
fn turned_away(refusal: Option<Refusal>) -> RefusedBut<'static> {
    RefusedBut {
        refusal,
        one: Refusal::Kind,
        cause: "a record of kind 6",
    }
}

// Writes a file of these parts into so many bytes, and says what came of it.
fn shown(rt: &impl Print, room: usize, drill: Drill) -> io::Result<()> {
    let mut bytes = [0xee; 32832];
    let buffer = cases::first(&mut bytes, room);
    let answer = drill_file::write_file(buffer, drill);
    cases::written(rt, answer, turned_away(answer.err()), buffer)
}

// The buffer's size, in the first two bytes of a case.
fn room(bytes: &[u8]) -> usize {
    u16::from_be_bytes([base::byte_at(bytes, 0), base::byte_at(bytes, 1)]) as usize
}

// A part with its length before it: the bytes behind the first byte, as many as that says; and what stands behind them.
fn part(bytes: &[u8]) -> (&[u8], &[u8]) {
    match bytes {
        [] => (&[], &[]),
        [size, rest @ ..] => rest.split_at(rest.len().min(*size as usize)),
    }
}

// The parts of a case of version 1: the buffer's size in two bytes, n, m, the label's length and the label; then the records.
pub(crate) fn parts(rt: &impl Print, case: Case) -> io::Result<()> {
    let bytes = case.bytes;
    let (label, records) = part(cases::from(bytes, 4));
    rt.write_all(case.line)?;
    let drill = Drill {
        version: 1,
        n: base::byte_at(bytes, 2),
        m: base::byte_at(bytes, 3),
        label,
        departments: &[],
        records,
    };
    shown(rt, room(bytes), drill)
}

// The parts of a case of any version: the buffer's size in two bytes, the version, n, m, the label's length and the label, the number
// of department bytes and these; then the records.
pub(crate) fn composed(rt: &impl Print, case: Case) -> io::Result<()> {
    let bytes = case.bytes;
    let (label, behind) = part(cases::from(bytes, 5));
    let (departments, records) = part(behind);
    rt.write_all(case.line)?;
    let drill = Drill {
        version: base::byte_at(bytes, 2),
        n: base::byte_at(bytes, 3),
        m: base::byte_at(bytes, 4),
        label,
        departments,
        records,
    };
    shown(rt, room(bytes), drill)
}

// Writes the parts of a file into a buffer, and says whether it is the same file, or that it was refused.
fn again(rt: &impl Print, file: &[u8], drill: Drill) -> io::Result<()> {
    let before = [0xee; 32832];
    let mut buffer = before;
    match drill_file::write_file(&mut buffer, drill) {
        Ok(size) => {
            let same = size == file.len() && cases::left(&buffer, &before, file);
            let word = if same { "the same" } else { "ANOTHER FILE" };
            print!(rt; "; written again: {word}")
        }
        Err(refusal) => {
            let kept = cases::left(&buffer, &before, &[]);
            let word = if kept { "" } else { ", THE BUFFER CHANGED" };
            print!(rt; "; written again: {}{word}", turned_away(Some(refusal)))
        }
    }
}

// Says it of an accepted file.
pub(crate) fn accepted(rt: &impl Print, file: &[u8]) -> io::Result<()> {
    let Ok(header) = drill_file::read_header(file) else {
        return Ok(());
    };
    let drill = Drill {
        version: base::byte_at(file, 2),
        n: header.n,
        m: header.m,
        label: drill_file::label(file),
        departments: drill_file::departments(file),
        records: cases::from(file, header.start),
    };
    again(rt, file, drill)
}
