// A delivery on the parts that it looks at: its refusal, and its effect where it is accepted.
ghost use Rattle.std.specs.Prelude.{◌≡◌, ◌<◌};
ghost use Rattle.base.specs.Refusals.{number_in};
ghost use Rattle.parts.specs.Parts.{deliver_in, changed, read_ended, decided_by, heard_by, delivered};

use crate::Parts;
use attempts::{Row, State, Station};
use base::Refusal;
use commands::Outcome;
use requests::{Phase, Verdict};

#[tactic(auto, using(base::proofs::Tests::picks), unfolding(crate::specs::Parts::deliver_in))]
pub(crate) fn deliver_refusal(x: &Parts, p: Phase, a: u8, b: u8) -> Result<(), Refusal>
    ensures { number_in result ≡ deliver_in x.now p a b }
{
    if super::named::unknown(x, a, b) {
        return Err(Refusal::Unknown);
    }
    if attempts::gone(x.station.state) {
        return Err(Refusal::Gone);
    }
    if !attempts::comes(x.row, p, b) {
        return Err(Refusal::NotDue);
    }
    Ok(())
}

// The q-th read answer: the write is issued.
#[tactic(auto, using(base::proofs::Tests::picks), unfolding(crate::specs::Parts::read_ended))]
fn read_ended(x: &mut Parts, a: u8, w: Row) -> Outcome
    ensures { changed x.new result ≡ read_ended x.old a w }
{
    let v = attempts::revision_of(w, x.n);
    x.row = attempts::issue(w, v, x.n);
    x.station = attempts::with_state(x.station, State::Writing(a));
    Outcome::WriteIssued(v)
}

// The q-th write answer, all taken: the station decides.
fn decided(x: &mut Parts, a: u8, w: Row) -> Outcome
    ensures { changed x.new result ≡ decided_by x.old a w }
{
    x.row = w;
    x.station = Station {
        state: State::Decided(a),
        decided: Some(w.written),
        ..x.station
    };
    Outcome::Decided(w.written)
}

// What came of the answers received in the phase that the station is in; w is the row with this one.
fn heard(x: &mut Parts, p: Phase, a: u8, w: Row, verdict: Verdict) -> Outcome
    ensures { changed x.new result ≡ heard_by x.old p a w verdict }
{
    match (verdict, p) {
        (Verdict::Open, _) => {
            x.row = w;
            Outcome::Received(a)
        }
        (Verdict::No, _) => {
            x.row = w;
            x.station = attempts::with_state(x.station, State::Idle);
            Outcome::Aborted(a)
        }
        (Verdict::Yes, Phase::Read) => read_ended(x, a, w),
        (Verdict::Yes, Phase::Write) => decided(x, a, w),
    }
}

#[tactic(auto, using(base::proofs::Tests::picks), unfolding(crate::specs::Parts::delivered))]
pub(crate) fn deliver(x: &mut Parts, p: Phase, a: u8, b: u8) -> Outcome
    requires { b < 9 }
    ensures { changed x.new result ≡ delivered x.old p a b }
{
    let h = requests::received(attempts::requests_of(x.row, p), b);
    let w = attempts::with_requests(x.row, p, h);
    if attempts::in_phase(x.station.state, p, a) {
        return heard(x, p, a, w, requests::verdict_of(h, p, x.n));
    }
    x.row = w;
    Outcome::Received(a)
}
