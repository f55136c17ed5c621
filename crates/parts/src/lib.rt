// Internal to `steps`: the parts of a floor that one step reads and stores, and the step on these alone. `turn` of `steps` is the one place
// that reads them out of a floor and stores them into it, so that no whole floor is moved for a step.
#![tactic(auto)]

ghost use Rattle.std.specs.Prelude.{◌≡◌};

use attempts::{Row, Station};
use commands::Outcome;
use register::Register;

mod begin;
mod deliver;
mod kinds;
mod leave;
mod named;
mod returns;
mod serve;
mod stop;

pub use kinds::change;

// The parts of a floor that one step looks at, and all that it can change: of a department's things those of its own department. `first`
// is the department's first row, `used` how many of its rows are in use, `highest` its highest rank begun, and `register` the box's
// record for it. `next` is the row that a begin takes, 128 or above where there is none, as `next_row` of
// `steps` says it; no step but a begin looks at it.
#[derive(Clone, Copy)]
pub struct Parts {
    pub n: u8,
    pub m: u8,
    pub first: u8,
    pub used: u8,
    pub next: u8,
    pub highest: u32,
    pub row: Row,
    pub register: Register,
    pub away: bool,
    pub station: Station,
}

// The parts after a step, and what came of it: what definitions speak of. `change` changes the parts where they are.
#[derive(Clone, Copy)]
pub struct Changed {
    pub parts: Parts,
    pub outcome: Outcome,
}
