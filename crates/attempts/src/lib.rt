// An attempt: its row, with what its two phases were answered, and the station that is in it.
#![tactic(auto)]

use register::{Answer, Department, Register};
use requests::Requests;
use suits::Suit;

mod rows;
mod states;

pub use rows::{
    comes, department_of, first_row, issue, new_row, requests_of, revision_of, serve, unused,
    used_after, waits, waits_at, with_requests,
};
pub use states::{active, busy, gone, in_phase, with_state};

// What a station does, with the attempt that it is in.
#[derive(Clone, Copy)]
pub enum State {
    Idle,
    Reading(u8),
    Writing(u8),
    Decided(u8),
    Gone,
}

// A station: the paper's client, of one department. Its last round and what it decided survive its going. Revision 0, "do not cut", is
// decided like any other.
#[derive(Clone, Copy)]
pub struct Station {
    pub department: Department,
    pub state: State,
    pub last: u16,
    pub decided: Option<Suit>,
}

// The row of an attempt (the paper's invocation of decide with one rank): its two phases, and what its reads were answered, 0 and 0 where
// one was outranked. The answers stand beside the slots of `read`, not in them: `Requests` is the same for reads and for writes, and
// `row_served`, and `row_of` of crate `panel`, read them there.
#[derive(Clone, Copy)]
pub struct Row {
    pub station: u8,
    pub rank: u32,
    pub offer: Suit,
    pub written: Suit,
    pub read: Requests,
    pub answers: [Answer; 9],
    pub write: Requests,
}

// The row and the register after the box's routine ran.
#[derive(Clone, Copy)]
pub struct Served {
    pub row: Row,
    pub register: Register,
}
