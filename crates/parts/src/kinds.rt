// The step on the parts that it looks at, by its kind.
ghost use Rattle.std.specs.Prelude.{◌≡◌, ◌≤◌, leb};
ghost use Rattle.base.specs.Choice.{when◌then◌else◌};
ghost use Rattle.base.specs.Refusals.{number_in};
ghost use Rattle.parts.specs.Parts.{refusal_in, changed, turned_back, effect_in, change_in};

use crate::Parts;
use base::Refusal;
use commands::{Command, Outcome};

// The refusal of a step on a sound floor.
fn refusal(x: &Parts, c: Command) -> Result<(), Refusal>
    ensures { number_in result ≡ refusal_in x.now c }
{
    match c {
        Command::Begin(s, round, _) => super::begin::begin_refusal(x, s, round),
        Command::Serve(p, a, b) => super::serve::serve_refusal(x, p, a, b),
        Command::Deliver(p, a, b) => super::deliver::deliver_refusal(x, p, a, b),
        Command::Stop(b) => super::stop::stop_refusal(x, b),
        Command::Leave(s) => super::leave::leave_refusal(x, s),
        Command::Return(b) => super::returns::return_refusal(x, b),
        Command::Malformed => Err(Refusal::Kind),
    }
}

// What an accepted step does to the parts. `change`, which alone calls it, tests what is asked.
#[tactic(auto, using(crate::proofs::EffectNeeds::deliver_needs))]
fn effect(x: &mut Parts, c: Command) -> Outcome
    requires { (x.old.n ≤ 9) × (refusal_in x.old c ≡ 0) }
    ensures { changed x.new result ≡ effect_in x.old c }
{
    match c {
        Command::Begin(s, round, v) => super::begin::begin(x, s, round, v),
        Command::Serve(p, a, b) => super::serve::serve(x, p, a, b),
        Command::Deliver(p, a, b) => super::deliver::deliver(x, p, a, b),
        Command::Stop(b) => super::stop::stop(x, b),
        Command::Leave(s) => super::leave::leave(x, s),
        Command::Return(b) => super::returns::returned(x, b),
        Command::Malformed => Outcome::Refused(Refusal::Kind.number()),
    }
}

// The step on the parts, refused or accepted: one that is refused leaves them as they are. More than nine boxes are refusal 6, as on a floor.
#[tactic(auto, using(base::proofs::Tests::picks, commands::proofs::OutcomeLaws::on_number, base::proofs::RefusalLaws::on_accepted), unfolding(crate::specs::Parts::change_in))]
pub fn change(x: &mut Parts, c: Command) -> Outcome
    ensures { changed x.new result ≡ (when leb x.old.n 9 then change_in x.old c else turned_back x.old 6) }
{
    if 9 < x.n {
        return Outcome::Refused(Refusal::Unsound.number());
    }
    match refusal(x, c) {
        Ok(()) => effect(x, c),
        Err(r) => Outcome::Refused(r.number()),
    }
}
