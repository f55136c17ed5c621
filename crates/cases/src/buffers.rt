// Bytes as they are printed, and what a writer left in a buffer.
ghost use Rattle.std.specs.Prelude.{◌≡◌, true, take, drop, ◌++◌, length};

use crate::text;
use std::{fmt, str};

const DIGITS: [u8; 16] = *b"0123456789abcdef";

// Bytes, each as two hexadecimal digits behind a space. By sixteen, since each piece of a text is written by a call of its own.
#[derive(Drop)]
pub struct Hex<'a>(pub &'a [u8]);

impl fmt::Display for Hex<'_> {
    fn fmt<W: fmt::Write>(&self, f: &mut fmt::Formatter<W>) -> fmt::Result {
        for part in self.0.chunks(16) {
            let mut text = [b' '; 48];
            for (k, &b) in part.iter().enumerate() {
                text[3 * k + 1] = DIGITS[usize::from(b / 16)];
                text[3 * k + 2] = DIGITS[usize::from(b % 16)];
            }
            f.write_str(str::from_utf8(&text[..(3 * part.len()).min(48)]).unwrap_or(""))?;
        }
        Ok(())
    }
}

// The same; of more than 40 bytes the first 20 and the last 20.
#[derive(Drop)]
struct Short<'a>(&'a [u8]);

impl fmt::Display for Short<'_> {
    fn fmt<W: fmt::Write>(&self, f: &mut fmt::Formatter<W>) -> fmt::Result {
        let s = self.0;
        if s.len() <= 40 {
            return write!(f, "{}", Hex(s));
        }
        write!(
            f,
            "{} ..{}",
            Hex(text::up_to(s, 20)),
            Hex(text::from(s, s.len() - 20))
        )
    }
}

// A buffer on a line of its own: the bytes up to an end, a stroke, and those behind.
#[derive(Drop)]
pub(crate) struct Halves<'a> {
    pub(crate) buffer: &'a [u8],
    pub(crate) end: usize,
}

impl fmt::Display for Halves<'_> {
    fn fmt<W: fmt::Write>(&self, f: &mut fmt::Formatter<W>) -> fmt::Result {
        let front = Short(text::up_to(self.buffer, self.end));
        let back = Short(text::from(self.buffer, self.end));
        writeln!(f, "\n {front} /{back}")
    }
}

// Whether a writer left these bytes at the start of a buffer, and behind them what was there before. It says so of nothing else.
pub fn left(buffer: &[u8], before: &[u8], bytes: &[u8]) -> bool
    ensures front { result ≡ true → take (length bytes.now) buffer.now ≡ bytes.now }
    ensures back { result ≡ true → drop (length bytes.now) buffer.now ≡ drop (length bytes.now) before.now }
{
    let size = bytes.len();
    text::up_to(buffer, size) == bytes && text::from(buffer, size) == text::from(before, size)
}

// The first so many bytes of a buffer. Not by `get_mut`: it lends the buffer also where it answers none.
pub fn first(buffer: &mut [u8], room: usize) -> &mut [u8]
    ensures { result.now ≡ take room buffer.old }
{
    let end = room.min(buffer.len());
    &mut buffer[..end]
}
