// What the test programs on floors share: the floor that a case starts on, a step and what came of it, rows, boxes and stations in words.
#![tactic(auto)]

mod standing;
mod start;
mod words;

pub use standing::{CanvasStations, Lines, Part, boxes, stations};
pub use start::{print_start, records, started, step, turns};
pub use words::{Decided, Said, Step, Took};
