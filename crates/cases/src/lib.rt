// What the test programs share: the notation of the bytes of a case, bytes and texts, and what is printed of them.
//
// A line of a program's input that begins with a small letter is a case: a word that says how it is played, what the case is in words,
// a bar, and the notation of its bytes. Any other line is printed as it stands; among them is the legend of the program's words.
#![tactic(auto)]

mod buffers;
mod notation;
mod output;
mod program;
mod refusals;
mod text;

pub use buffers::{Hex, first, left};
pub use notation::bytes;
pub use output::Output;
pub use program::{Case, play, room, unknown};
pub use refusals::{Refused, RefusedBut, written};
pub use text::{find, from, number, up_to};
