// The places of a floor's arrays that a command names, and the row of the smallest rank found so far. No floor is known here: how long an
// array is, is handed in, so that floors of other sizes use the same.
#![tactic(auto)]

ghost use Rattle.std.specs.Prelude.{◌≡◌};
ghost use Rattle.places.specs.Places.{place_in, attempt_in, box_in, station_in};
ghost use Rattle.places.specs.Search.{lower_in};

use commands::Command;

// The free row of the smallest rank found so far, and that rank.
#[derive(Clone, Copy)]
pub struct Lowest {
    pub row: u8,
    pub rank: u32,
}

// A place of an array of that length: the number itself where it is one, else 0.
#[tactic(auto, using(base::proofs::Tests::picks), unfolding(crate::specs::Places::place_in))]
fn place(limit: u8, x: u8) -> u8
    ensures { result ≡ place_in limit x }
{
    if x < limit { x } else { 0 }
}

fn attempt_in(next: u8, c: Command) -> u8
    ensures { result ≡ attempt_in next c }
{
    match c {
        Command::Begin(_, _, _) => next,
        Command::Serve(_, a, _) | Command::Deliver(_, a, _) => a,
        Command::Stop(_) | Command::Leave(_) | Command::Return(_) | Command::Malformed => 0,
    }
}

fn box_in(c: Command) -> u8
    ensures { result ≡ box_in c }
{
    match c {
        Command::Serve(_, _, b) => b,
        Command::Deliver(_, _, b) | Command::Stop(b) | Command::Return(b) => b,
        Command::Begin(_, _, _) | Command::Leave(_) | Command::Malformed => 0,
    }
}

fn station_in(owner: u8, c: Command) -> u8
    ensures { result ≡ station_in owner c }
{
    match c {
        Command::Begin(s, _, _) | Command::Leave(s) => s,
        Command::Serve(_, _, _) | Command::Deliver(_, _, _) => owner,
        Command::Stop(_) | Command::Return(_) | Command::Malformed => 0,
    }
}

// The place of the row that a command names, where a begin takes the row `next`.
pub fn row_place(limit: u8, next: u8, c: Command) -> u8
    ensures { result ≡ place_in limit (attempt_in next c) }
{
    place(limit, attempt_in(next, c))
}

pub fn box_place(limit: u8, c: Command) -> u8
    ensures { result ≡ place_in limit (box_in c) }
{
    place(limit, box_in(c))
}

// That of the station, where the row named belongs to `owner`.
pub fn station_place(limit: u8, owner: u8, c: Command) -> u8
    ensures { result ≡ place_in limit (station_in owner c) }
{
    place(limit, station_in(owner, c))
}

// The rank is smaller than that of the row found so far, if there was one.
#[tactic(auto, unfolding(crate::specs::Search::lower_in))]
pub fn lower(x: Option<Lowest>, rank: u32) -> bool
    ensures { result ≡ lower_in x rank }
{
    x.is_none_or(|x| rank < x.rank)
}
