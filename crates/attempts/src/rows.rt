// The row of an attempt: its two phases, the choice among the answers to its reads, and what a box's routine makes of it.
ghost use Rattle.std.specs.Prelude.{◌≡◌, min};
ghost use Rattle.requests.specs.declared.Phase.TheVariants.{Read, Write};
ghost use Rattle.requests.specs.Requests.{standing_of, is_waiting, is_on_the_way};
ghost use Rattle.attempts.specs.Rows.{unused_row, row_department, first_row, requests_of, new_row, better, best_of, revision_from, revision_of, waits_at, used_after, issued, row_served, register_served, with_requests};

use crate::{Row, Served};
use register::{Answer, Department, Register};
use requests::{Phase, Requests};
use suits::Suit;

// What is kept of a read that is not answered, or is outranked.
const NO_ANSWER: Answer = Answer {
    rank: 0,
    value: Suit { r0: 0 },
};

// The department that owns the row a.
#[tactic(auto, using(base::proofs::Tests::picks), unfolding(crate::specs::Rows::row_department))]
pub fn department_of(a: u8) -> Department
    ensures { result ≡ row_department a }
{
    if a < 64 {
        Department::Sails
    } else {
        Department::Canvas
    }
}

// The first row of the department.
pub fn first_row(d: Department) -> u8
    ensures { result ≡ first_row d }
{
    match d {
        Department::Sails => 0,
        Department::Canvas => 64,
    }
}

// A row that is not in use.
pub fn unused() -> Row
    ensures { result ≡ unused_row }
{
    Row {
        station: 0,
        rank: 0,
        offer: suits::none(),
        written: suits::none(),
        read: requests::none_issued(),
        answers: [NO_ANSWER; 9],
        write: requests::none_issued(),
    }
}

// One phase of the attempt. The two are fields by name in every definition of a row, and these two functions alone choose between them: a
// struct by phase, as ByDepartment is by department, would be no plainer.
pub fn requests_of(w: Row, p: Phase) -> Requests
    ensures { result ≡ requests_of p w }
{
    match p {
        Phase::Read => w.read,
        Phase::Write => w.write,
    }
}

// The row of an attempt that begins.
#[tactic(auto, unfolding(crate::specs::Rows::new_row))]
pub fn new_row(n: u8, s: u8, round: u16, v: Suit) -> Row
    ensures { result ≡ new_row n s round v }
{
    Row {
        station: s,
        rank: round as u32 * 16 + s as u32,
        offer: v,
        read: requests::issued(n),
        ..unused()
    }
}

// The box's routine runs for the read of the row, and its answer is on the way. From box 9 on nothing is stored.
fn serve_read(w: Row, held: Register, b: u8) -> Served
    ensures { result ≡ record { row = row_served Read w held b; register = register_served Read w held } }
{
    let done = held.rmw_read(w.rank);
    let mut row = w;
    row.read = requests::served(w.read, b, done.answer.is_some());
    if b < 9 {
        row.answers[b as usize] = done.answer.unwrap_or(NO_ANSWER);
    }
    Served {
        row,
        register: done.register,
    }
}

// The same for its write, which has no answer to keep: one function of both would ask for the phase at each line.
fn serve_write(w: Row, held: Register, b: u8) -> Served
    ensures { result ≡ record { row = row_served Write w held b; register = register_served Write w held } }
{
    let done = held.rmw_write(w.rank, w.written);
    let write = requests::served(w.write, b, done.taken);
    Served {
        row: Row { write, ..w },
        register: done.register,
    }
}

pub fn serve(w: Row, held: Register, p: Phase, b: u8) -> Served
    ensures { result ≡ record { row = row_served p w held b; register = register_served p w held } }
{
    match p {
        Phase::Read => serve_read(w, held, b),
        Phase::Write => serve_write(w, held, b),
    }
}

// The request of that phase waits at box b. It and `comes` are one line each over the two of `requests`, each promised in a word of its own.
pub fn waits(w: Row, p: Phase, b: u8) -> bool
    ensures { result ≡ is_waiting (standing_of (requests_of p w) b) }
{
    requests::waits(requests_of(w, p), b)
}

// The read or the write of the row waits at box b.
#[tactic(auto, using(base::proofs::Tests::picks), unfolding(crate::specs::Rows::waits_at))]
pub fn waits_at(w: Row, b: u8) -> bool
    ensures { result ≡ waits_at w b }
{
    waits(w, Phase::Read, b) || waits(w, Phase::Write, b)
}

// How many rows are in use once one was begun.
#[tactic(auto, using(base::proofs::Tests::picks), unfolding(crate::specs::Rows::used_after))]
pub fn used_after(used: u8) -> u8
    ensures { result ≡ used_after used }
{
    if used < 64 { used + 1 } else { used }
}

// The answer of that phase is on the way from box b.
pub fn comes(w: Row, p: Phase, b: u8) -> bool
    ensures { result ≡ is_on_the_way (standing_of (requests_of p w) b) }
{
    requests::on_the_way(requests_of(w, p), b)
}

// The row with one phase replaced.
pub fn with_requests(w: Row, p: Phase, h: Requests) -> Row
    ensures { result ≡ with_requests p w h }
{
    match p {
        Phase::Read => Row { read: h, ..w },
        Phase::Write => Row { write: h, ..w },
    }
}

// The best answer so far and one more, if that was received: of equals the first stays.
#[tactic(auto, using(base::proofs::Tests::picks), unfolding(crate::specs::Rows::better, crate::specs::Rows::higher))]
fn better(best: Option<Answer>, received: bool, s: Answer) -> Option<Answer>
    ensures { result ≡ better best received s }
{
    if !received {
        return best;
    }
    match best {
        Some(x) if s.rank <= x.rank => best,
        _ => Some(s),
    }
}

// The best of the answers received from boxes below n, if there is one. From box 9 on there is none.
fn best_of(answers: [Answer; 9], h: Requests, n: u8) -> Option<Answer>
    ensures { result ≡ best_of answers h (min n 9) }
{
    let mut best = None;
    for k in 0..n.min(9) {
        best = better(best, requests::heard_from(h, k), answers[k as usize]);
    }
    best
}

// The revision that follows from the best answer: the offer where there is none, or where it holds nothing.
#[tactic(auto, using(base::proofs::Tests::picks), unfolding(crate::specs::Rows::revision_from))]
fn revision_from(best: Option<Answer>, offer: Suit) -> Suit
    ensures { result ≡ revision_from best offer }
{
    match best {
        Some(x) if x.rank > 0 => x.value,
        _ => offer,
    }
}

// The revision that the attempt writes.
pub fn revision_of(w: Row, n: u8) -> Suit
    ensures { result ≡ revision_of w n }
{
    revision_from(best_of(w.answers, w.read, n), w.offer)
}

// The row with its write of v issued.
#[tactic(auto, unfolding(crate::specs::Rows::issued))]
pub fn issue(w: Row, v: Suit, n: u8) -> Row
    ensures { result ≡ issued w v n }
{
    Row {
        written: v,
        write: requests::issued(n),
        ..w
    }
}
