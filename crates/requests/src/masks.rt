// A set of boxes as the bits of a mask.
ghost use Rattle.std.specs.Prelude.{◌≡◌};
ghost use Rattle.base.specs.Mask.{bit, count_below};

// Of any number: a mask has no digit from 16 on.
#[tactic(auto, using(crate::proofs::Shifts::shifts))]
pub(crate) fn has(mask: u16, b: u8) -> bool
    ensures { result ≡ bit mask b }
{
    b < 16 && mask >> b & 1 == 1
}

// How many of the boxes below n are in the mask.
#[tactic(auto, using(crate::proofs::Shifts::shifts))]
pub(crate) fn count_below(mask: u16, n: u8) -> u32
    ensures { result ≡ count_below mask n }
{
    if n < 16 {
        (mask & ((1 << n) - 1)).count_ones()
    } else {
        mask.count_ones()
    }
}
