// One phase of an attempt at every box: where its request stands at each, whether the answer is a yes, and whose answers were
// received. Nothing here knows a rank or a revision: those that answers carry stand beside a phase, in the row.
#![tactic(auto)]

ghost use Rattle.std.specs.Prelude.{◌≡◌, ltb};
ghost use Rattle.base.specs.Choice.{when◌then◌else◌};
ghost use Rattle.requests.specs.Requests.{slot_at, none_issued, standing_of, is_waiting, is_on_the_way, issued_to, served_at, received_from, heard_from, at_quorum, all_yes, read_verdict, write_verdict, verdict_of};

mod masks;

// A phase of an attempt.
#[derive(Clone, Copy)]
pub enum Phase {
    Read,
    Write,
}

// How far a request has come, up to the reception of its answer, which the mask records.
#[derive(Clone, Copy)]
pub enum Stage {
    Unissued,
    Waiting,
    Answered,
}

// A request at one box; `ok` is its answer's yes or no: a read's is a yes unless it is outranked, a write's if it is taken. It stands beside
// the stage, not in it: `standing_of` is of every pair of the two, which `suite_hand` sets by hand, and `all_yes` reads `ok` at any stage.
#[derive(Clone, Copy)]
pub struct Slot {
    pub stage: Stage,
    pub ok: bool,
}

// The requests of one phase at every box. The mask `heard` is the set of boxes whose answers were received; nothing else records
// a reception, so that nothing here contradicts it.
#[derive(Clone, Copy)]
pub struct Requests {
    pub slots: [Slot; 9],
    pub heard: u16,
}

// What the answers received come to: the phase goes on, or it has ended with a yes of each, or with a no.
#[derive(Clone, Copy)]
pub enum Verdict {
    Open,
    Yes,
    No,
}

impl Slot {
    // A request that is not issued.
    const UNISSUED: Slot = Slot {
        stage: Stage::Unissued,
        ok: false,
    };

    // One that waits.
    const WAITING: Slot = Slot {
        stage: Stage::Waiting,
        ok: false,
    };
}

// No request is issued.
pub fn none_issued() -> Requests
    ensures { result ≡ none_issued }
{
    Requests {
        slots: [Slot::UNISSUED; 9],
        heard: 0,
    }
}

// A request waits at each box below n, and no answer was received. From box 9 on there is no slot.
pub fn issued(n: u8) -> Requests
    ensures { result ≡ issued_to n }
{
    let mut slots = [Slot::UNISSUED; 9];
    for k in 0..n.min(9) {
        slots[k as usize] = Slot::WAITING;
    }
    Requests { slots, heard: 0 }
}

// The slot of box b. From box 9 on no request is issued.
fn slot_at(q: Requests, b: u8) -> Slot
    ensures { result ≡ slot_at q b }
{
    q.slots.get(b as usize).copied().unwrap_or(Slot::UNISSUED)
}

// The request waits at box b: its stage says so and its answer was not received. This test and the next differ in a stage, and each is
// promised in a word of its own, `is_waiting` and `is_on_the_way`: a third function that is handed the stage would be no plainer.
#[tactic(auto, using(crate::proofs::StandingTests::standings))]
pub fn waits(q: Requests, b: u8) -> bool
    ensures { result ≡ is_waiting (standing_of q b) }
{
    !heard_from(q, b) && matches!(slot_at(q, b).stage, Stage::Waiting)
}

// The answer is on the way from box b.
#[tactic(auto, using(crate::proofs::StandingTests::standings))]
pub fn on_the_way(q: Requests, b: u8) -> bool
    ensures { result ≡ is_on_the_way (standing_of q b) }
{
    !heard_from(q, b) && matches!(slot_at(q, b).stage, Stage::Answered)
}

// Box b has answered: its answer is on the way. From box 9 on nothing is stored.
pub fn served(q: Requests, b: u8, ok: bool) -> Requests
    ensures { result ≡ served_at q b ok }
{
    let mut g = q;
    if b < 9 {
        g.slots[b as usize] = Slot {
            stage: Stage::Answered,
            ok,
        };
    }
    g
}

// The answer of box b is received. From box 9 on nothing is received.
#[tactic(auto, using(crate::proofs::Shifts::shifts, base::proofs::Tests::picks))]
pub fn received(q: Requests, b: u8) -> Requests
    ensures { result ≡ (when ltb b 9 then received_from q b else q) }
{
    if b < 9 {
        return Requests {
            heard: q.heard | 1 << b,
            ..q
        };
    }
    q
}

// The answer of box b was received.
pub fn heard_from(q: Requests, b: u8) -> bool
    ensures { result ≡ heard_from q b }
{
    masks::has(q.heard, b)
}

// The boxes below n whose answers were received are exactly a quorum.
#[tactic(auto, unfolding(crate::specs::Requests::at_quorum))]
pub fn at_quorum(q: Requests, n: u8) -> bool
    ensures { result ≡ at_quorum q n }
{
    masks::count_below(q.heard, n) == base::majority(n) as u32
}

// Each answer received from a box below n says yes. From box 9 on there is no slot: an answer received there is no yes.
#[tactic(auto, using(crate::proofs::RequestLaws::answers))]
pub fn all_yes(q: Requests, n: u8) -> bool
    ensures { result ≡ all_yes q n }
{
    for b in 0..n.min(9) {
        if heard_from(q, b) && !q.slots[b as usize].ok {
            return false;
        }
    }
    n <= 9 || masks::count_below(q.heard, n) == masks::count_below(q.heard, 9)
}

// Reads end with the first answer that says no, or with the q-th.
#[tactic(auto, using(base::proofs::Tests::picks), unfolding(crate::specs::Requests::read_verdict))]
fn read_verdict(q: Requests, n: u8) -> Verdict
    ensures { result ≡ read_verdict q n }
{
    if !all_yes(q, n) {
        return Verdict::No;
    }
    if at_quorum(q, n) {
        Verdict::Yes
    } else {
        Verdict::Open
    }
}

// Writes end with the q-th answer.
#[tactic(auto, using(base::proofs::Tests::picks), unfolding(crate::specs::Requests::write_verdict))]
fn write_verdict(q: Requests, n: u8) -> Verdict
    ensures { result ≡ write_verdict q n }
{
    if !at_quorum(q, n) {
        return Verdict::Open;
    }
    if all_yes(q, n) {
        Verdict::Yes
    } else {
        Verdict::No
    }
}

pub fn verdict_of(q: Requests, p: Phase, n: u8) -> Verdict
    ensures { result ≡ verdict_of p q n }
{
    match p {
        Phase::Read => read_verdict(q, n),
        Phase::Write => write_verdict(q, n),
    }
}
