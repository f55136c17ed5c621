// A change by hand in words.
use crate::hand;
use floor_cases::Decided;
use register::{ByDepartment, Department};
use std::fmt;

// Says that a change is of canvas, where its department is.
pub(crate) fn of_canvas(d: Department) -> &'static str {
    let of = ByDepartment {
        sails: "",
        canvas: ", of canvas",
    };
    of.of(d)
}

// A change by hand: the end of it is the rows of canvas in use, what a station decided, or that it is of canvas. Its kind stays a byte,
// for the reason at `show::by_other`.
#[derive(Drop)]
pub(crate) struct Change(pub(crate) [u8; 8]);

impl fmt::Display for Change {
    fn fmt<W: fmt::Write>(&self, f: &mut fmt::Formatter<W>) -> fmt::Result {
        let [kind, a, b, c, d, e, department, told] = self.0;
        let of = of_canvas(Department::from(department));
        match kind {
            0xf0 => {
                write!(f, "by hand: boxes {a}, stations {b}, rows in use {c}")?;
                match d {
                    0 => Ok(()),
                    _ => write!(f, ", of canvas {d}"),
                }
            }
            0xf1 => {
                write!(
                    f,
                    "by hand: row {a} of station {b}, read answers received by mask {c}, write answers by mask {d}"
                )
            }
            0xf2 => {
                write!(
                    f,
                    "by hand: box {a} read rank {b}, write rank {c}, value {d}, away {e} (0 no, 1 yes){of}"
                )
            }
            0xf3 => {
                let states = "0 idle, 1 reading, 2 writing, 3 decided, 4 gone";
                let decided = Decided(hand::decision(e, told));
                write!(
                    f,
                    "by hand: station {a} in state {b} ({states}), attempt {c}, last round {d}, decided revision {decided}{of}"
                )
            }
            0xf7 => write!(f, "by hand: row {a}, read answers outranked by mask {b}"),
            _ => write!(f, "{of}"),
        }
    }
}
