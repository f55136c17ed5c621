// The stop of a box on the parts that it looks at: its refusal, and its effect where it is accepted.
ghost use Rattle.std.specs.Prelude.{◌≡◌};
ghost use Rattle.base.specs.Refusals.{number_in};
ghost use Rattle.parts.specs.Parts.{stop_in, changed, stopped_box};

use crate::Parts;
use base::Refusal;
use commands::Outcome;

#[tactic(auto, using(base::proofs::Tests::picks), unfolding(crate::specs::Parts::stop_in))]
pub(crate) fn stop_refusal(x: &Parts, b: u8) -> Result<(), Refusal>
    ensures { number_in result ≡ stop_in x.now b }
{
    if x.n <= b {
        return Err(Refusal::Unknown);
    }
    if x.away {
        return Err(Refusal::Away);
    }
    Ok(())
}

pub(crate) fn stop(x: &mut Parts, b: u8) -> Outcome
    ensures { changed x.new result ≡ stopped_box x.old b }
{
    x.away = true;
    Outcome::Stopped(b)
}
