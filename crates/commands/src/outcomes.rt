// Document 01's number and value of an outcome, and tests of it.
ghost use Rattle.std.specs.Prelude.{◌≡◌};
ghost use Rattle.base.specs.Refusals.{named};
ghost use Rattle.commands.specs.Outcomes.{number_of, refusal_said, value_of, is_refused, is_end};

use crate::Outcome;
use base::Refusal;

// All refusals by their numbers, from 1 on.
const REFUSALS: [Refusal; 23] = [
    Refusal::FileSize,
    Refusal::Version,
    Refusal::Sizes,
    Refusal::Label,
    Refusal::Records,
    Refusal::Unsound,
    Refusal::Kind,
    Refusal::Unknown,
    Refusal::Gone,
    Refusal::Busy,
    Refusal::Round,
    Refusal::NoRow,
    Refusal::Away,
    Refusal::NotDue,
    Refusal::TooFew,
    Refusal::Length,
    Refusal::RankZero,
    Refusal::Room,
    Refusal::FrameLength,
    Refusal::FrameVersion,
    Refusal::Message,
    Refusal::Departments,
    Refusal::NotAway,
];

// The refusal with a number. Which one it is of a number that none has says nothing.
fn named(number: u8) -> Refusal
    ensures { result ≡ named number }
{
    match REFUSALS.get(usize::from(number.saturating_sub(1))) {
        Some(&r) => r,
        None => Refusal::Unsound,
    }
}

impl Outcome {
    // Document 01's number of an outcome: that of the refusal, 0 where the step was accepted.
    pub fn number(self) -> u8
        ensures { result ≡ number_of self }
    {
        match self {
            Outcome::Refused(k) => k,
            _ => 0,
        }
    }

    // The refusal by its name, where the step was refused; which one it is of a number that none has says nothing.
    pub fn refusal(self) -> Option<Refusal>
        ensures { result ≡ refusal_said self }
    {
        match self {
            Outcome::Refused(k) => Some(named(k)),
            _ => None,
        }
    }

    // Document 01's value of an outcome: the attempt, revision, box or station that it names, 0 for a refusal.
    pub fn value(self) -> u32
        ensures { result ≡ value_of self }
    {
        match self {
            Outcome::Begun(x)
            | Outcome::Served(x)
            | Outcome::Received(x)
            | Outcome::Aborted(x)
            | Outcome::Stopped(x)
            | Outcome::Gone(x)
            | Outcome::Back(x) => u32::from(x),
            Outcome::WriteIssued(v) | Outcome::Decided(v) => v.r0,
            Outcome::Refused(_) => 0,
        }
    }

    pub fn refused(self) -> bool
        ensures { result ≡ is_refused self }
    {
        matches!(self, Outcome::Refused(_))
    }

    // The step ended an attempt.
    pub fn ends(self) -> bool
        ensures { result ≡ is_end self }
    {
        matches!(self, Outcome::Aborted(_) | Outcome::Decided(_))
    }
}
