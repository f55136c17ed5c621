// The bytes of a case from their notation: hexadecimal digits, two to a byte; `L`, two bytes that are set to the number of bytes
// behind them; `:` before the records; `;` behind a record, which fills it up to 8 bytes with zeros. Anything else parts bytes.
//
// Some records stand for others (`Place::expand`):
//
//     f8 boxes count row station   a chain of that many attempts, each of which outranks the one before (`Place::attempt`), through
//                                  the 64 rows from that row on, by that station and the next
//     f9 size                      zeros up to that size of the file, a number of two bytes
//     fa kind attempt count        the reads (2) or writes (3) of an attempt at that many boxes from box 0 on (`Place::phase`)
ghost use Rattle.std.specs.Prelude.{◌≤◌, length};

use crate::text;

// How far a notation was read: the buffer and how many bytes it was given, where the present record starts, a digit that waits for
// the second of its byte, and whether L is to be set, a flag that no value goes with.
#[derive(Drop)]
struct Place<'a> {
    out: &'a mut [u8],
    end: usize,
    record: usize,
    digit: Option<u8>,
    sized: bool,
}

impl Place<'_> {
    // Puts a byte at the end, if there is room.
    fn push(&mut self, b: u8) {
        if self.end < self.out.len() {
            self.out[self.end] = b;
            self.end += 1;
        }
    }

    fn push_record(&mut self, r: [u8; 8]) {
        for b in r {
            self.push(b);
        }
    }

    // One phase of an attempt at the boxes below n: each request served (kind 2 or 3) and its answer delivered (4 or 5).
    fn phase(&mut self, kind: u8, a: u8, n: u8) {
        for b in 0..n {
            self.push_record([kind, a, b, 0, 0, 0, 0, 0]);
            self.push_record([kind % 8 + 2, a, b, 0, 0, 0, 0, 0]);
        }
    }

    // Attempt k of a chain. Two stations begin in turn, each with the lowest round that outranks the other, and offer the revision
    // 256 + k, from row 64 on 512 + k. The read comes before the write of attempt k - 1, which is therefore not taken. From attempt
    // 64 on the rows are taken again in their order: of those that are over the oldest has the smallest rank.
    fn attempt(&mut self, n: u8, k: u8, row: u8, station: u8) {
        let first = row % 128;
        self.push_record([
            1,
            k % 2 + station % 16,
            0,
            k / 2 + 1,
            0,
            0,
            first / 64 + 1,
            k,
        ]);
        self.phase(2, k % 64 + first, n);
        if 0 < k {
            self.phase(3, (k - 1) % 64 + first, n);
        }
    }

    // Ends the record, and puts what it stands for in its place: itself, or the records named above.
    fn expand(&mut self) {
        let start = self.record;
        let [kind, x, y, z, station, ..] = runs::record_at(text::from(self.out, start), 0);
        self.end = start;
        // The notation's own kinds are bytes, as the input writes them.
        match kind {
            0xf8 => {
                for k in 0..y {
                    self.attempt(x, k, z, station);
                }
            }
            0xf9 => {
                self.push_record([0; 8]);
                self.end = u16::from_be_bytes([x, y]) as usize;
            }
            0xfa => self.phase(x, y, z),
            _ => self.end = self.out.len().min(start.saturating_add(8)),
        }
        self.record = self.end;
    }

    fn digit(&mut self, d: u8) {
        match self.digit.take() {
            None => self.digit = Some(d),
            Some(first) => self.push(first << 4 | d),
        }
    }

    fn sign(&mut self, c: u8) {
        match c {
            b'0'..=b'9' => self.digit(c - b'0'),
            b'a'..=b'f' => self.digit(c - b'a' + 10),
            b'L' => {
                self.end = 2;
                self.sized = true;
            }
            b':' => self.record = self.end,
            b';' => self.expand(),
            _ => {}
        }
    }

    // Sets L for a file that ends here. By `zip`, which asks for no proof that the buffer has two bytes.
    fn set_size(&mut self) {
        if 2 <= self.end {
            let size = ((self.end - 2) % 65536) as u16;
            for (b, x) in self.out.iter_mut().zip(size.to_be_bytes()) {
                *b = x;
            }
        }
    }
}

// Fills a buffer of zeros with the bytes that a notation gives, as far as there is room, and returns how many they are.
pub fn bytes(notation: &[u8], out: &mut [u8]) -> usize
    ensures { result ≤ length out.old }
{
    let room = out.len();
    let mut place = Place {
        out,
        end: 0,
        record: 0,
        digit: None,
        sized: false,
    };
    for c in notation {
        place.sign(*c);
    }
    if place.sized {
        place.set_size();
    }
    place.end.min(room)
}
