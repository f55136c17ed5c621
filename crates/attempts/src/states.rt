// A station's state.
ghost use Rattle.std.specs.Prelude.{◌≡◌};
ghost use Rattle.attempts.specs.Stations.{is_gone, is_busy, is_active, is_in, with_state};

use crate::{State, Station};
use requests::Phase;

pub fn gone(s: State) -> bool
    ensures { result ≡ is_gone s }
{
    matches!(s, State::Gone)
}

pub fn busy(s: State) -> bool
    ensures { result ≡ is_busy s }
{
    matches!(s, State::Reading(_) | State::Writing(_) | State::Decided(_))
}

// The station reads or writes in attempt a.
pub fn active(s: State, a: u8) -> bool
    ensures { result ≡ is_active s a }
{
    matches!(s, State::Reading(x) | State::Writing(x) if x == a)
}

// The station is in that phase of attempt a.
pub fn in_phase(s: State, p: Phase, a: u8) -> bool
    ensures { result ≡ is_in p s a }
{
    match (p, s) {
        (Phase::Read, State::Reading(x)) => x == a,
        (Phase::Write, State::Writing(x)) => x == a,
        _ => false,
    }
}

// The station in another state; its department, its last round and what it decided stay.
pub fn with_state(x: Station, state: State) -> Station
    ensures { result ≡ with_state x state }
{
    Station { state, ..x }
}
