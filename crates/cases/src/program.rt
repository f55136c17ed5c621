// A program's input, and the cases in it.
ghost use Rattle.std.specs.Prelude.{◌≡◌, ◌≤◌, length};

use crate::{notation, text};

// A case: the letter of its kind, its line, the words before the bar, and the bytes that its notation gives.
#[derive(Clone, Copy, Debug)]
pub struct Case<'a> {
    pub kind: u8,
    pub line: &'a [u8],
    pub words: &'a [u8],
    pub bytes: &'a [u8],
}

// Room for a program's input. Bytes behind it are not read: the last line of an input is printed, and would be missing.
// A function of its own, though `play` alone calls it: it is public and promises its size.
pub fn room() -> [u8; 196608]
    ensures { 196608 ≡ length result }
{
    [0; 196608]
}

// The longest case is one byte longer than a drill file may be.
fn play_case<F: Fn(Case<'_>) -> std::io::Result<()>>(
    kind: u8,
    line: &[u8],
    one: &F,
) -> std::io::Result<()>
    requires { F.IsAlwaysCallable one.now }
{
    let (words, notation) = line.split_at(text::find(line, b'|'));
    let mut out = [0u8; 32823];
    let size = notation::bytes(notation, &mut out);
    let bytes = &out[..size];
    one(Case {
        kind,
        line,
        words,
        bytes,
    })
}

fn play_line<F: Fn(Case<'_>) -> std::io::Result<()>>(
    rt: &impl Print,
    line: &[u8],
    one: &F,
) -> std::io::Result<()>
    requires { F.IsAlwaysCallable one.now }
{
    match line {
        [kind @ b'a'..=b'z', ..] => play_case(*kind, line, one),
        _ => {
            rt.write_all(line)?;
            println!(rt)
        }
    }
}

// Says that a program has no case of a kind.
pub fn unknown(rt: &impl Print) -> std::io::Result<()> {
    println!(rt; "no such kind of case")
}

// Plays each case of the standard input, and prints any other line as it stands.
// Not by std's reader: that rests on errno of the C library too, that of `io` on read alone.
pub fn play<F: Fn(Case<'_>) -> std::io::Result<()>>(rt: &impl Print, one: F) -> std::io::Result<()>
    requires { F.IsAlwaysCallable one }
{
    let mut bytes = room();
    let size = io::read_full(0, &mut bytes);
    for piece in bytes[..size].split_inclusive(|&b| b == b'\n') {
        play_line(rt, piece.strip_suffix(b"\n").unwrap_or(piece), &one)?;
    }
    Ok(())
}
