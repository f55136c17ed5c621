// Refusals in words, and what a writer answered.
use crate::buffers::Halves;
use base::Refusal;
use std::{fmt, io};

// The cause of a refusal. Those of a box call are not told.
fn cause(refusal: Refusal) -> &'static str {
    match refusal {
        Refusal::FileSize => " (size or L)",
        Refusal::Version => " (version)",
        Refusal::Sizes => " (number of boxes or stations)",
        Refusal::Label => " (label)",
        Refusal::Records => " (not whole records, or more than 4,096)",
        Refusal::Unsound => " (floor not sound)",
        Refusal::Kind => " (kind, or a byte that should be zero)",
        Refusal::Unknown => " (no such station, box or attempt)",
        Refusal::Gone => " (station gone)",
        Refusal::Busy => " (station reading, writing or decided)",
        Refusal::Round => " (round)",
        Refusal::NoRow => " (no row unused or free)",
        Refusal::Away => " (box away)",
        Refusal::NotDue => " (not waiting, or not on the way)",
        Refusal::TooFew => " (fewer than q boxes not away)",
        Refusal::Length | Refusal::RankZero => "",
        Refusal::Room => " (buffer shorter than the file)",
        Refusal::FrameLength => " (length of the frame)",
        Refusal::FrameVersion => " (version of the frame)",
        Refusal::Message => " (kind, or rank 0)",
        Refusal::Departments => " (departments)",
        Refusal::NotAway => " (box not away)",
    }
}

// A refusal with its cause, or that there is none.
#[derive(Drop)]
pub struct Refused(pub Option<Refusal>);

impl fmt::Display for Refused {
    fn fmt<W: fmt::Write>(&self, f: &mut fmt::Formatter<W>) -> fmt::Result {
        match self.0 {
            None => write!(f, "no refusal"),
            Some(refusal) => write!(f, "refusal {}{}", refusal.number(), cause(refusal)),
        }
    }
}

// The same, but for one refusal, whose cause is another here.
#[derive(Drop)]
pub struct RefusedBut<'a> {
    pub refusal: Option<Refusal>,
    pub one: Refusal,
    pub cause: &'a str,
}

impl fmt::Display for RefusedBut<'_> {
    fn fmt<W: fmt::Write>(&self, f: &mut fmt::Formatter<W>) -> fmt::Result {
        if self.refusal == Some(self.one) {
            return write!(f, "refusal {} ({})", self.one.number(), self.cause);
        }
        write!(f, "{}", Refused(self.refusal))
    }
}

// Says what a writer answered, its refusal in these words, and shows the buffer: what it wrote, a stroke, and what stands behind it.
pub fn written(
    rt: &impl Print,
    answer: Result<usize, Refusal>,
    refused: RefusedBut<'_>,
    buffer: &[u8],
) -> io::Result<()> {
    let end = answer.unwrap_or(0);
    print!(rt; " -> size {end}, {refused}{}", Halves { buffer, end })
}
