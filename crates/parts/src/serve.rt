// A serve on the parts that it looks at: its refusal, and its effect where it is accepted.
ghost use Rattle.std.specs.Prelude.{◌≡◌};
ghost use Rattle.base.specs.Refusals.{number_in};
ghost use Rattle.parts.specs.Parts.{serve_in, changed, served};

use crate::Parts;
use base::Refusal;
use commands::Outcome;
use requests::Phase;

#[tactic(auto, using(base::proofs::Tests::picks), unfolding(crate::specs::Parts::serve_in))]
pub(crate) fn serve_refusal(x: &Parts, p: Phase, a: u8, b: u8) -> Result<(), Refusal>
    ensures { number_in result ≡ serve_in x.now p a b }
{
    if super::named::unknown(x, a, b) {
        return Err(Refusal::Unknown);
    }
    if x.away {
        return Err(Refusal::Away);
    }
    if !attempts::waits(x.row, p, b) {
        return Err(Refusal::NotDue);
    }
    Ok(())
}

#[tactic(auto, using(base::proofs::Tests::picks), unfolding(crate::specs::Parts::served))]
pub(crate) fn serve(x: &mut Parts, p: Phase, a: u8, b: u8) -> Outcome
    ensures { changed x.new result ≡ served x.old p a b }
{
    let done = attempts::serve(x.row, x.register, p, b);
    x.row = done.row;
    x.register = done.register;
    Outcome::Served(a)
}
