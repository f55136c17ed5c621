// Solo finishes around the ranks at which the round that they pick changes.
use cases::Case;
use floor::{Floor, Share};
use floor_cases::Said;
use register::{ByDepartment, Department};
use std::io;

// What the other department has begun, where it has: 64 rows and the highest rank of 32 bits.
fn other(begun: bool) -> Share {
    let (used, highest) = if begun { (64, u32::MAX) } else { (0, 0) };
    Share { used, highest }
}

// A new floor of one box and sixteen stations of the department, but for what each department has begun: the department this share, and
// the other what `other` says.
fn with_shares(d: Department, begun: bool, share: Share) -> Floor {
    let other = other(begun);
    let both = ByDepartment {
        sails: other,
        canvas: other,
    };
    let mut f = steps::new_floor(1, 16, &[u8::from(d); 16]).floor;
    f.shares = both.with(d, share);
    f
}

// What came of the solo finish of a station; where it began, with its round and its rank.
fn finish(rt: &impl Print, f: Floor, s: u8) -> io::Result<()> {
    let d = solo::solo_finish(f, s, suits::of_one(7));
    print!(rt; " station {s} ")?;
    if 0 < d.steps {
        let round = d.floor.stations[(s % 16) as usize].last;
        let rank = player::last_rank(round, s);
        print!(rt; "round {round}, rank {rank}, ")?;
    }
    print!(rt; "{}", Said(d.outcome))
}

// The solo finishes of three stations on a floor on which the department has begun this share.
fn stations(rt: &impl Print, d: Department, begun: bool, share: Share) -> io::Result<()> {
    let f = with_shares(d, begun, share);
    print!(rt; "\n  rank {}:", share.highest)?;
    finish(rt, f, 0)?;
    print!(rt; ";")?;
    finish(rt, f, 1)?;
    print!(rt; ";")?;
    finish(rt, f, 15)
}

// The bytes of a case: how many rows are in use, the first rank, how many ranks from there on, and a kind: the department, 0 or 1, and 2
// more where the other department has begun something. Nothing is said of ranks past 32 bits.
pub(crate) fn ranks(rt: &impl Print, case: Case) -> io::Result<()> {
    let used = base::byte_at(case.bytes, 0);
    let first = cases::number(case.bytes, 1);
    let count = base::byte_at(case.bytes, 5);
    let kind = base::byte_at(case.bytes, 6);
    let d = Department::from(kind % 2);
    rt.write_all(case.words)?;
    print!(rt; "->")?;
    for k in 0..count {
        if let Some(highest) = first.checked_add(k as u32) {
            stations(rt, d, 2 <= kind, Share { used, highest })?;
        }
    }
    println!(rt)
}
