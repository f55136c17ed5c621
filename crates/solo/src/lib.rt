// The solo finish: one station driven alone, from its begin to its decision.
//
// The checks only read the floor. Then the records of the plan are written into a buffer and run by one call, so that no floor is
// moved for a step.
#![tactic(auto)]

ghost use Rattle.std.specs.Prelude.{◌≡◌, ◌+◌, ◌*◌, ◌<◌, ◌≤◌, not, length, take, ltb, count_by};
ghost use mathlib.Core.List.{◌++◌, flatten};
ghost use Rattle.base.specs.Numbers.{quorum};
ghost use Rattle.base.specs.Refusals.{number, number_in};
ghost use Rattle.commands.specs.Outcomes.{number_of, value_of};
ghost use Rattle.floor.specs.Floors.{department_at};
ghost use Rattle.floor.specs.Effects.{row_taken};
ghost use Rattle.floor.specs.Runs.{run_of};
ghost use Rattle.floor.specs.Soundness.{Sound};
ghost use Rattle.runs.specs.declared.Until.TheVariants.{End};
ghost use Rattle.plans.specs.Plans.{exchanges};
ghost use Rattle.solo.specs.Plan.{round_of, answering_from, lowest, begin_of, exchanges_of};
ghost use Rattle.solo.specs.Solo.{front_refusal, turned_away, of_run, solo_of, solo_number, solo_value};

use base::Refusal;
use commands::{Command, Outcome};
use floor::Floor;
use register::{Department, StorageBox};
use requests::Phase;
use suits::Suit;

// A floor, how many steps led to it, and what the last step said, a refused one included.
#[derive(Clone, Copy)]
pub struct Solo {
    pub floor: Floor,
    pub steps: u8,
    pub outcome: Outcome,
}

fn turned_away(f: Floor, r: Refusal) -> Solo
    ensures { result ≡ turned_away f (number r) }
{
    Solo {
        floor: f,
        steps: 0,
        outcome: Outcome::Refused(r.number()),
    }
}

// The department of a station; sails past the last.
fn department_at(f: &Floor, s: u8) -> Department
    ensures { result ≡ department_at f.now s }
{
    f.stations
        .get(usize::from(s))
        .map_or(Department::Sails, |x| x.department)
}

// The first of refusals 8 to 12 and 15 that applies; `next` is the row that the begin takes. It is called behind the test of refusal 6,
// which has what is asked of n and m.
#[tactic(auto, using(base::proofs::Tests::picks, crate::proofs::PlanLaws::answering_counted), unfolding(crate::specs::Solo::front_refusal))]
fn refusal(f: &Floor, s: u8, round: u32, next: u8) -> Result<(), Refusal>
    requires { (f.now.n ≤ 9) × (f.now.m ≤ 16) × (next ≡ row_taken f.now s) }
    ensures { number_in result ≡ front_refusal f.now s round }
{
    if f.m <= s {
        return Err(Refusal::Unknown);
    }
    let state = f.stations[s as usize].state;
    if attempts::gone(state) {
        return Err(Refusal::Gone);
    }
    if attempts::busy(state) {
        return Err(Refusal::Busy);
    }
    if 65535 < round {
        return Err(Refusal::Round);
    }
    if 128 <= next {
        return Err(Refusal::NoRow);
    }
    if register::count_going(&f.boxes[..f.n as usize]) < base::majority(f.n) as usize {
        return Err(Refusal::TooFew);
    }
    Ok(())
}

// Stores the records of a phase from a place on: the exchanges of attempt a with the lowest-numbered of the first n boxes that are not
// away, a quorum of them, one box after the other. It returns the place behind them: `put_exchange` stores in a lent buffer, at a
// place. Where it is called the floor is sound, and n at most 9.
fn put_phase(out: &mut [u8], at: usize, boxes: &[StorageBox; 9], n: u8, p: Phase, a: u8) -> usize
    requires { (n ≤ 9) × (at + 16 * quorum n ≤ length out.old) }
    ensures within { result ≤ at + 16 * quorum n }
    ensures records { take result out.new ≡ take at out.old ++ flatten (exchanges p a (lowest (quorum n) boxes.now n)) }
{
    let mut end = at;
    for b in (0..n)
        .filter(|&b| !boxes[b as usize].away)
        .take(base::majority(n) as usize)
    {
        plans::put_exchange(out, end, p, a, b);
        end += 16;
    }
    end
}

// The steps of the plan, up to the first that is turned back or that ends the attempt. Two phases with at most 5 boxes each are 20
// records of 8 bytes behind the begin. What is asked is of one floor, its round and its row, and `solo_finish` alone calls it.
fn drive(f: Floor, s: u8, round: u16, v: Suit, next: u8) -> Solo
    requires { (Sound f) × (round ≡ round_of f s) × (next ≡ row_taken f s) }
    ensures { result ≡ of_run (run_of End f (begin_of f s v) (exchanges_of f s)) }
{
    let mut out = [0u8; 160];
    let reads = put_phase(&mut out, 0, &f.boxes, f.n, Phase::Read, next);
    let end = put_phase(&mut out, reads, &f.boxes, f.n, Phase::Write, next);
    let first = commands::encode(Command::Begin(s, round, v));
    let ran = steps::drive(f, first, &out[..end]);
    Solo {
        floor: ran.floor,
        steps: ran.accepted as u8,
        outcome: ran.outcome,
    }
}

// For a station and a revision: the floor, how many steps led to it, and what the last step said.
pub fn solo_finish(f: Floor, s: u8, v: Suit) -> Solo
    ensures finished { result ≡ solo_of f s v }
    ensures number { number_of result.outcome ≡ solo_number f s v }
    ensures value { value_of result.outcome ≡ solo_value f s v }
{
    if !steps::sound(f) {
        return turned_away(f, Refusal::Unsound);
    }
    let d = department_at(&f, s);
    let round = plans::round_above(f.shares.of(d).highest, s);
    let next = steps::next_row(f, d);
    if let Err(r) = refusal(&f, s, round, next) {
        return turned_away(f, r);
    }
    drive(f, s, round as u16, v, next)
}
