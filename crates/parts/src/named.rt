// What a serve and a delivery name.
ghost use Rattle.std.specs.Prelude.{◌≡◌, ◌+◌, true, leb};
ghost use Rattle.base.specs.Choice.{when◌then◌else◌};

use crate::Parts;

// The attempt is not begun in its department, or there is no such box: refusal 8 of a serve and of a delivery.
#[tactic(auto, using(base::proofs::Tests::picks))]
pub(crate) fn unknown(x: &Parts, a: u8, b: u8) -> bool
    ensures { result ≡ (when leb (x.now.first + x.now.used) a then true else leb x.now.n b) }
{
    u16::from(x.first) + u16::from(x.used) <= u16::from(a) || x.n <= b
}
