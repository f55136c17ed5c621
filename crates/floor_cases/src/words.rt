// A step, and what came of it, in words.
use cases::Refused;
use commands::Outcome;
use std::fmt;
use suits::Suit;

// A record. Only a begin has a third number. Its bytes are said as they stand, of a record too that is no command, so that there is no
// `Command` to match on.
#[derive(Drop)]
pub struct Step(pub [u8; 8]);

impl fmt::Display for Step {
    fn fmt<W: fmt::Write>(&self, f: &mut fmt::Formatter<W>) -> fmt::Result {
        let [kind, x, y, z, r, s, t, u] = self.0;
        match kind {
            1 => {
                let round = u16::from_be_bytes([y, z]);
                let revision = u32::from_be_bytes([r, s, t, u]);
                write!(f, "begin: station {x}, round {round}, revision {revision}")
            }
            2 => write!(f, "serve the read of attempt {x} at box {y}"),
            3 => write!(f, "serve the write of attempt {x} at box {y}"),
            4 => write!(f, "deliver the read answer of attempt {x} from box {y}"),
            5 => write!(f, "deliver the write answer of attempt {x} from box {y}"),
            6 | 8 => write!(f, "stop box {x}"),
            7 => write!(f, "station {x} goes"),
            9 => write!(f, "box {x} comes back"),
            _ => write!(f, "a record of kind {kind}"),
        }
    }
}

// The revision that a station decided, 0 too, or that it decided none.
#[derive(Drop)]
pub struct Decided(pub Option<Suit>);

impl fmt::Display for Decided {
    fn fmt<W: fmt::Write>(&self, f: &mut fmt::Formatter<W>) -> fmt::Result {
        match self.0 {
            None => write!(f, "none"),
            Some(v) => write!(f, "{}", v.r0),
        }
    }
}

// What came of a step.
#[derive(Drop)]
pub struct Said(pub Outcome);

impl fmt::Display for Said {
    fn fmt<W: fmt::Write>(&self, f: &mut fmt::Formatter<W>) -> fmt::Result {
        match self.0 {
            Outcome::Begun(a) => write!(f, "begun {a}"),
            Outcome::Served(a) => write!(f, "served {a}"),
            Outcome::Received(a) => write!(f, "received {a}"),
            Outcome::Aborted(a) => write!(f, "aborted {a}"),
            Outcome::WriteIssued(v) => write!(f, "write issued {}", v.r0),
            Outcome::Decided(v) => write!(f, "decided {}", v.r0),
            Outcome::Stopped(b) => write!(f, "stopped {b}"),
            Outcome::Gone(s) => write!(f, "gone {s}"),
            Outcome::Back(b) => write!(f, "back {b}"),
            // A number that no refusal has is said as it stands.
            Outcome::Refused(k) if base::number_if(self.0.refusal()) == k => {
                write!(f, "{}", Refused(self.0.refusal()))
            }
            Outcome::Refused(0) => write!(f, "{}", Refused(None)),
            Outcome::Refused(k) => write!(f, "refusal {k}"),
        }
    }
}

// A step and what came of it.
#[derive(Drop)]
pub struct Took {
    pub step: [u8; 8],
    pub outcome: Outcome,
}

impl fmt::Display for Took {
    fn fmt<W: fmt::Write>(&self, f: &mut fmt::Formatter<W>) -> fmt::Result {
        write!(f, "{} -> {}", Step(self.step), Said(self.outcome))
    }
}
