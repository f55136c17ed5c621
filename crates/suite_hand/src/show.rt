// Plays a case on a floor and says what came of it.
use crate::{hand, say};
use cases::{Case, Refused};
use floor::Floor;
use floor_cases::{Part, Said};
use register::{ByDepartment, Department};
use std::io;

// A solo finish, and what came of it.
fn alone(rt: &impl Print, f: &mut Floor, r: [u8; 8]) -> io::Result<()> {
    let station = r[1];
    let revision = cases::number(&r, 4);
    let d = solo::solo_finish(*f, station, suits::of_one(revision));
    *f = d.floor;
    print!(rt;
        "solo finish of station {station}, revision {revision} -> steps {}, {}",
        d.steps,
        Said(d.outcome)
    )
}

// The department's tally of the floor's first boxes by value, and that of a lent run of as many.
fn tallies(rt: &impl Print, f: &Floor, count: u8, department: u8) -> io::Result<()> {
    let d = Department::from(department);
    let t = tally::tally_floor(f.boxes, count, d);
    let u = tally::tally_lent(hand::sixteen(f.boxes), count, d);
    let of = ByDepartment {
        sails: "",
        canvas: "canvas: ",
    };
    let of = of.of(d);
    print!(rt;
        "{of}tally of the first {count} boxes -> not away {}, highest write rank {}",
        t.count, t.highest
    )?;
    print!(rt;
        "; of a lent run of {count} -> not away {}, highest write rank {}",
        u.count, u.highest
    )
}

// Hands bytes to `run` and says how many steps were accepted, and the refusal.
fn run_of(rt: &impl Print, f: &mut Floor, bytes: &[u8]) -> io::Result<()> {
    let played = steps::run(*f, bytes);
    *f = played.floor;
    let size = bytes.len();
    print!(rt;
        "run of {size} bytes -> accepted {}, {}",
        played.accepted,
        Refused(played.refusal)
    )
}

// A run of the last bytes of three records of kind 6, the stop of box 0, of box 1, and of box 0 again.
fn run_of_bytes(rt: &impl Print, f: &mut Floor, size: u8) -> io::Result<()> {
    let stops = [
        6, 0, 0, 0, 0, 0, 0, 0, 6, 1, 0, 0, 0, 0, 0, 0, 6, 0, 0, 0, 0, 0, 0, 0,
    ];
    run_of(rt, f, &stops[24 - (size % 25) as usize..])
}

// The rank of a row by hand.
fn row_rank(rt: &impl Print, f: &mut Floor, r: [u8; 8]) -> io::Result<()> {
    let row = r[1];
    let rank = cases::number(&r, 2);
    hand::row_rank(f, row, rank);
    print!(rt; "by hand: row {row} of rank {rank}")
}

// The highest rank begun by hand.
fn highest(rt: &impl Print, f: &mut Floor, r: [u8; 8]) -> io::Result<()> {
    let rank = cases::number(&r, 1);
    let d = Department::from(r[5]);
    hand::highest(f, d, rank);
    print!(rt; "by hand: highest rank begun {rank}{}", say::of_canvas(d))
}

// The row that the next begin of a department takes.
fn next_row(rt: &impl Print, f: &Floor, department: u8) -> io::Result<()> {
    let d = Department::from(department);
    let of = ByDepartment {
        sails: "sails",
        canvas: "canvas",
    };
    let of = of.of(d);
    print!(rt; "the next row of {of} -> {}", steps::next_row(*f, d))
}

// A record that is no step. Its kind is a byte of the case's notation, as crate::hand and the legend of the program's input have it; the
// words say the bytes as they stand, so that an enum would hold them once more.
fn by_other(rt: &impl Print, f: &mut Floor, r: [u8; 8]) -> io::Result<()> {
    let [kind, number, what, ..] = r;
    match kind {
        0xf4 => alone(rt, f, r),
        0xf5 => tallies(rt, f, number, what),
        0xf6 => run_of_bytes(rt, f, number),
        0xfb => row_rank(rt, f, r),
        0xfc => highest(rt, f, r),
        0xfd => print!(rt;
            "{}",
            Part {
                floor: f,
                number,
                what
            }
        ),
        0xff => next_row(rt, f, number),
        _ => {
            hand::change(f, r);
            print!(rt; "{}", say::Change(r))
        }
    }
}

// Takes the step, or what stands in its place.
fn turn(rt: &impl Print, f: &mut Floor, r: [u8; 8]) -> io::Result<()> {
    if 0xf0 <= r[0] {
        return by_other(rt, f, r);
    }
    print!(rt; "{}", floor_cases::step(f, r))
}

// Each step on a floor that records change by hand, also behind a refused one.
pub(crate) fn by_hand(rt: &impl Print, case: Case) -> io::Result<()> {
    let mut f = floor_cases::started(case.bytes);
    floor_cases::print_start(rt, case, &f)?;
    let records = floor_cases::records(case.bytes);
    floor_cases::turns(rt, &mut f, records, |f, r| turn(rt, f, r))?;
    println!(rt)
}

// The same, but for the records before the first byte fe, which are handed to `run`; those behind the record of that byte are listed.
pub(crate) fn behind(rt: &impl Print, case: Case) -> io::Result<()> {
    let mut f = floor_cases::started(case.bytes);
    floor_cases::print_start(rt, case, &f)?;
    print!(rt; "\n  ")?;
    let records = floor_cases::records(case.bytes);
    let (handed, rest) = records.split_at(cases::find(records, 0xfe));
    run_of(rt, &mut f, handed)?;
    floor_cases::turns(rt, &mut f, cases::from(rest, 8), |f, r| turn(rt, f, r))?;
    println!(rt)
}
