// The cutting floor: its state here; a new floor, the steps that change it and runs of them in specs/, their laws in proofs/. No function:
// those stand in crate `steps`, so that a crate that speaks of floors alone does not wait for them.
#![tactic(auto)]

use attempts::{Row, Station};
use base::Refusal;
use commands::Outcome;
use register::{ByDepartment, StorageBox};

// What a department has begun: how many of its 64 rows are in use, and its highest rank, 0 where it has begun none.
#[derive(Clone, Copy)]
pub struct Share {
    pub used: u8,
    pub highest: u32,
}

// The floor: n boxes, m stations, what each department has begun, and the rows of attempts, 0 to 63 of sails and 64 to 127 of canvas. Its
// arrays have the most there can be, with how many there are beside them: document 01's form, in fixed memory.
#[derive(Clone, Copy)]
pub struct Floor {
    pub n: u8,
    pub m: u8,
    pub shares: ByDepartment<Share>,
    pub boxes: [StorageBox; 9],
    pub stations: [Station; 16],
    pub rows: [Row; 128],
}

// A floor and what came of the step that led to it.
#[derive(Clone, Copy)]
pub struct Stepped {
    pub floor: Floor,
    pub outcome: Outcome,
}

// A new floor, or refusal 3 or 22 with the new floor of one box and one station, sails. No Result: a refused call promises that floor too.
#[derive(Clone, Copy)]
pub struct NewFloor {
    pub floor: Floor,
    pub refusal: Option<Refusal>,
}

// The floor that the accepted steps of a run left, how many they are, and what the last step said, the refused one included.
#[derive(Clone, Copy)]
pub struct Ran {
    pub floor: Floor,
    pub accepted: usize,
    pub outcome: Outcome,
}

// The floor that the accepted steps of a list left, how many they are, and the refusal, if any. Steps are numbered from 0, so the
// step that was turned back has the number `accepted`.
#[derive(Clone, Copy)]
pub struct Played {
    pub floor: Floor,
    pub accepted: usize,
    pub refusal: Option<Refusal>,
}
