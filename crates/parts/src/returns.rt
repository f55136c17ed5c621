// The return of a box on the parts that it looks at: its refusal, and its effect where it is accepted.
ghost use Rattle.std.specs.Prelude.{◌≡◌};
ghost use Rattle.base.specs.Refusals.{number_in};
ghost use Rattle.parts.specs.Parts.{return_in, changed, returned_box};

use crate::Parts;
use base::Refusal;
use commands::Outcome;

#[tactic(auto, using(base::proofs::Tests::picks), unfolding(crate::specs::Parts::return_in))]
pub(crate) fn return_refusal(x: &Parts, b: u8) -> Result<(), Refusal>
    ensures { number_in result ≡ return_in x.now b }
{
    if x.n <= b {
        return Err(Refusal::Unknown);
    }
    if !x.away {
        return Err(Refusal::NotAway);
    }
    Ok(())
}

pub(crate) fn returned(x: &mut Parts, b: u8) -> Outcome
    ensures { changed x.new result ≡ returned_box x.old b }
{
    x.away = false;
    Outcome::Back(b)
}
