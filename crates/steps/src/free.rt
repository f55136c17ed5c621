// Wishes 5, 6 and 8 of document 02: when a row is free, and the row that a begin takes in its department.
ghost use Rattle.std.specs.Prelude.{◌≡◌, ◌≤◌};
ghost use Rattle.floor.specs.Free.{all_served, free_in, better_in, next_row, row_in, taken_by};
ghost use Rattle.floor.specs.Soundness.{Sound};

use attempts::{Row, State};
use commands::Command;
use floor::Floor;
use places::Lowest;
use register::Department;

// At none of the first n boxes a request of the row waits.
#[tactic(auto, using(base::proofs::Tests::picks), unfolding(floor::specs::Free::all_served, floor::specs::Free::still_served))]
fn all_served(w: Row, n: u8) -> bool
    ensures { result ≡ all_served w n }
{
    (0..n).all(|k| !attempts::waits_at(w, k))
}

// The attempt is over, and its requests are served at every box, away or not; its station is in that state.
#[tactic(auto, using(base::proofs::Tests::picks), unfolding(floor::specs::Free::free_in))]
fn free(w: Row, state: State, n: u8, a: u8) -> bool
    ensures { result ≡ free_in w state n a }
{
    !attempts::active(state, a) && all_served(w, n)
}

// The better of the row found so far and the row a.
#[tactic(auto, using(base::proofs::Tests::picks), unfolding(floor::specs::Free::better_in))]
fn better(x: Option<Lowest>, w: Row, state: State, n: u8, a: u8) -> Option<Lowest>
    ensures { result ≡ better_in x w state n a }
{
    if places::lower(x, w.rank) && free(w, state, n, a) {
        return Some(Lowest {
            row: a,
            rank: w.rank,
        });
    }
    x
}

// The number of the row found, 128 where there is none.
fn row(x: Option<Lowest>) -> u8
    ensures { result ≡ row_in x }
{
    x.map_or(128, |x| x.row)
}

// The row that a begin of the department takes on a sound floor: the next, or with all its 64 used the free one with the smallest rank, of
// equals the lowest. 128 where no row is unused or free. It and `taken`
// only read the floor, so that it is lent as it is, and `Sound` is asked.
#[tactic(auto, using(base::proofs::Tests::picks), unfolding(floor::specs::Free::next_row, floor::specs::Free::free_below))]
pub(crate) fn next_sound(f: &Floor, d: Department) -> u8
    requires { Sound f.now }
    ensures { result ≡ next_row f.now d }
{
    let used = f.shares.of(d).used;
    let first = attempts::first_row(d);
    if used < 64 {
        return first + used;
    }
    let mut found = None;
    for k in 0..64 {
        let a = first + k;
        let w = f.rows[a as usize];
        found = better(found, w, f.stations[w.station as usize].state, f.n, a);
    }
    row(found)
}

// The row that the command takes: only a begin takes one.
pub(crate) fn taken(f: &Floor, d: Department, c: Command) -> u8
    requires { Sound f.now }
    ensures { result ≡ taken_by f.now d c }
{
    match c {
        Command::Begin(_, _, _) => next_sound(f, d),
        _ => 0,
    }
}
