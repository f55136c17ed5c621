// The going of a station on the parts that it looks at: its refusal, and its effect where it is accepted.
ghost use Rattle.std.specs.Prelude.{◌≡◌};
ghost use Rattle.base.specs.Refusals.{number_in};
ghost use Rattle.parts.specs.Parts.{leave_in, changed, gone_station};

use crate::Parts;
use attempts::State;
use base::Refusal;
use commands::Outcome;

#[tactic(auto, using(base::proofs::Tests::picks), unfolding(crate::specs::Parts::leave_in))]
pub(crate) fn leave_refusal(x: &Parts, s: u8) -> Result<(), Refusal>
    ensures { number_in result ≡ leave_in x.now s }
{
    if x.m <= s {
        return Err(Refusal::Unknown);
    }
    if attempts::gone(x.station.state) {
        return Err(Refusal::Gone);
    }
    Ok(())
}

pub(crate) fn leave(x: &mut Parts, s: u8) -> Outcome
    ensures { changed x.new result ≡ gone_station x.old s }
{
    x.station = attempts::with_state(x.station, State::Gone);
    Outcome::Gone(s)
}
