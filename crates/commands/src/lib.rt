// A step as it is asked for, by its 8-byte record or its fields, and as it answers.
#![tactic(auto)]

ghost use Rattle.std.specs.Prelude.{◌≡◌, drop, ◌≤◌};
ghost use Rattle.requests.specs.Requests.{of_phase};
ghost use Rattle.commands.specs.Commands.{all_zero, spared, command_of, encode_of};

use requests::Phase;
use suits::Suit;

mod outcomes;

// A step as its record's fields say it: station, round and revision; phase, attempt and box; box; station; box. `Malformed` is any
// record that refusal 7 turns back: a case and no Option, since every record is a step, which a floor accepts or refuses.
#[derive(Clone, Copy)]
pub enum Command {
    Begin(u8, u16, Suit),
    Serve(Phase, u8, u8),
    Deliver(Phase, u8, u8),
    Stop(u8),
    Leave(u8),
    Return(u8),
    Malformed,
}

// What came of a step; `Refused` has the number under "Turned back". A case and no Result: a trace is a list of what steps said, the
// refused ones included, and number and value are of every case (`number_of`, `value_of`).
#[derive(Clone, Copy)]
pub enum Outcome {
    Begun(u8),
    Served(u8),
    Received(u8),
    Aborted(u8),
    WriteIssued(Suit),
    Decided(Suit),
    Stopped(u8),
    Gone(u8),
    Back(u8),
    Refused(u8),
}

// All bytes are zero.
#[tactic(auto, unfolding(crate::specs::Commands::all_zero))]
fn zeros(bytes: &[u8]) -> bool
    ensures { result ≡ all_zero bytes.now }
{
    bytes.iter().all(|&x| x == 0)
}

// The command, if the bytes behind its fields are zero.
fn spare(r: [u8; 8], from: usize, c: Command) -> Command
    requires { from ≤ 8 }
    ensures { result ≡ spared (drop from r) c }
{
    if zeros(&r[from..]) {
        return c;
    }
    Command::Malformed
}

#[tactic(auto, using(base::proofs::Tests::picks), unfolding(crate::specs::Commands::command_of))]
pub fn decode(r: [u8; 8]) -> Command
    ensures { result ≡ command_of r }
{
    // Document 01's form: one match on the record's kind, whose arms name every kind.
    match r[0] {
        1 => Command::Begin(
            r[1],
            base::be16(r[2], r[3]),
            suits::of_one(base::be32(r[4], r[5], r[6], r[7])),
        ),
        2 => spare(r, 3, Command::Serve(Phase::Read, r[1], r[2])),
        3 => spare(r, 3, Command::Serve(Phase::Write, r[1], r[2])),
        4 => spare(r, 3, Command::Deliver(Phase::Read, r[1], r[2])),
        5 => spare(r, 3, Command::Deliver(Phase::Write, r[1], r[2])),
        6 => spare(r, 2, Command::Stop(r[1])),
        7 => spare(r, 2, Command::Leave(r[1])),
        8 => spare(r, 2, Command::Stop(r[1])),
        9 => spare(r, 2, Command::Return(r[1])),
        0 => Command::Malformed,
        10..=255 => Command::Malformed,
    }
}

// The kind of a request's record, by its phase.
fn by_phase(p: Phase, read: u8, write: u8) -> u8
    ensures { result ≡ of_phase p read write }
{
    match p {
        Phase::Read => read,
        Phase::Write => write,
    }
}

// The record of a command, a stop's of kind 8; that of `Malformed` is zeros.
pub fn encode(c: Command) -> [u8; 8]
    ensures { result ≡ encode_of c }
{
    match c {
        Command::Begin(s, round, v) => {
            let r = base::split16(round);
            let w = base::split32(v.r0);
            [1, s, r[0], r[1], w[0], w[1], w[2], w[3]]
        }
        Command::Serve(p, a, b) => [by_phase(p, 2, 3), a, b, 0, 0, 0, 0, 0],
        Command::Deliver(p, a, b) => [by_phase(p, 4, 5), a, b, 0, 0, 0, 0, 0],
        Command::Stop(b) => [8, b, 0, 0, 0, 0, 0, 0],
        Command::Leave(s) => [7, s, 0, 0, 0, 0, 0, 0],
        Command::Return(b) => [9, b, 0, 0, 0, 0, 0, 0],
        Command::Malformed => [0; 8],
    }
}
