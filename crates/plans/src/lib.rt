// What the plan of a solo finish is made of, on whatever floor: the round that it picks, and the two steps with each box that it asks.
#![tactic(auto)]

ghost use Rattle.std.specs.Prelude.{◌≡◌};
ghost use mathlib.Core.List.{flatten};
ghost use Rattle.base.specs.Bytes.{bytes_put};
ghost use Rattle.plans.specs.Plans.{round_above, exchange};

use commands::Command;
use requests::Phase;

// The smallest round of at least 1 whose rank for the station passes h.
#[tactic(auto, unfolding(crate::specs::Plans::round_above))]
pub fn round_above(h: u32, s: u8) -> u32
    ensures { result ≡ round_above h s }
{
    (h.saturating_sub(s as u32) >> 4) + 1
}

// Stores the records of two steps from a place on: attempt a's read or write is served at box b, and its answer is delivered. Past the end
// nothing is stored. A lent buffer and a place in it are what the contract speaks of; nothing here takes a heap.
pub fn put_exchange(out: &mut [u8], at: usize, p: Phase, a: u8, b: u8)
    ensures { out.new ≡ bytes_put out.old at (flatten (exchange p a b)) }
{
    let mut steps = [0; 16];
    steps[..8].copy_from_slice(&commands::encode(Command::Serve(p, a, b)));
    steps[8..].copy_from_slice(&commands::encode(Command::Deliver(p, a, b)));
    base::put_bytes(out, at, &steps);
}
