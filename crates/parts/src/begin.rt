// A begin on the parts that it looks at: its refusal, and its effect where it is accepted.
ghost use Rattle.std.specs.Prelude.{◌≡◌};
ghost use Rattle.base.specs.Refusals.{number_in};
ghost use Rattle.parts.specs.Parts.{begin_in, changed, begun};

use crate::Parts;
use attempts::{State, Station};
use base::Refusal;
use commands::Outcome;
use suits::Suit;

#[tactic(auto, using(base::proofs::Tests::picks), unfolding(crate::specs::Parts::begin_in))]
pub(crate) fn begin_refusal(x: &Parts, s: u8, round: u16) -> Result<(), Refusal>
    ensures { number_in result ≡ begin_in x.now s round }
{
    if x.m <= s {
        return Err(Refusal::Unknown);
    }
    if attempts::gone(x.station.state) {
        return Err(Refusal::Gone);
    }
    if attempts::busy(x.station.state) {
        return Err(Refusal::Busy);
    }
    if round == 0 || round <= x.station.last {
        return Err(Refusal::Round);
    }
    if 128 <= x.next {
        return Err(Refusal::NoRow);
    }
    Ok(())
}

#[tactic(auto, using(base::proofs::Tests::picks), unfolding(crate::specs::Parts::begun))]
pub(crate) fn begin(x: &mut Parts, s: u8, round: u16, v: Suit) -> Outcome
    ensures { changed x.new result ≡ begun x.old s round v }
{
    x.used = attempts::used_after(x.used);
    x.highest = x.highest.max(u32::from(round) * 16 + u32::from(s));
    x.row = attempts::new_row(x.n, s, round, v);
    x.station = Station {
        state: State::Reading(x.next),
        last: round,
        ..x.station
    };
    Outcome::Begun(x.next)
}
