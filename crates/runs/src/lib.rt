// Runs of steps one after the other, whatever is stepped: where a run ends, what turns it back before its first step, and the records that
// it is handed. What a step says is told by two tests, whether it was refused and whether it ended an attempt.
#![tactic(auto)]

ghost use Rattle.std.specs.Prelude.{◌≡◌, true, leb, get_or, replicate};
ghost use Rattle.base.specs.Choice.{when◌then◌else◌};
ghost use Rattle.base.specs.Records.{records_in};
ghost use Rattle.base.specs.Refusals.{number_in};
ghost use Rattle.runs.specs.Runs.{stops_by, refusal_by};

use base::Refusal;

// Where a run of steps ends before its last: behind a step that was refused, or also behind one that ended an attempt.
#[derive(Clone, Copy, PartialEq, Eq)]
pub enum Until {
    Refusal,
    End,
}

// A run ends behind a step that said so.
#[tactic(auto, unfolding(crate::specs::Runs::stops_by), using(base::proofs::Tests::picks))]
pub fn stops(until: Until, refused: bool, ends: bool) -> bool
    ensures { result ≡ stops_by until refused ends }
{
    refused || ends && until == Until::End
}

// The step was the last of its run: no record is left, or the run ends behind what it said.
#[tactic(auto, using(base::proofs::Tests::picks))]
pub fn over(left: usize, until: Until, refused: bool, ends: bool) -> bool
    ensures { result ≡ when leb left 0 then true else stops_by until refused ends }
{
    left == 0 || stops(until, refused, ends)
}

// The k-th record of the bytes, zeros where there is none. Byte by byte: the edit `last_byte_twice` reads one for another.
#[tactic(auto, using(crate::proofs::HandedLaws::record_there, crate::proofs::HandedLaws::record_none), unfolding(base::specs::Records::record_at))]
pub fn record_at(s: &[u8], k: usize) -> [u8; 8]
    ensures { result ≡ get_or (records_in s.now) k (replicate 8 0) }
{
    if s.len() >> 3 <= k {
        return [0; 8];
    }
    let at = 8 * k;
    [
        s[at],
        s[at + 1],
        s[at + 2],
        s[at + 3],
        s[at + 4],
        s[at + 5],
        s[at + 6],
        s[at + 7],
    ]
}

// What turns a run back before its first step: 6, then 5. Whether the floor is sound is handed in, so that no floor is moved for it.
#[tactic(auto, unfolding(crate::specs::Runs::refusal_by), using(base::proofs::Tests::picks))]
pub fn run_refusal(right: bool, size: usize) -> Result<(), Refusal>
    ensures { number_in result ≡ refusal_by right size }
{
    if !right {
        return Err(Refusal::Unsound);
    }
    if size & 7 != 0 {
        return Err(Refusal::Records);
    }
    Ok(())
}
