// Parts of a text.
ghost use Rattle.std.specs.Prelude.{◌≡◌, ◌≤◌, length, take, drop};
ghost use Rattle.base.specs.Bytes.{word_at};

use std::array;

// The place of the first byte `b`, or the end.
pub fn find(s: &[u8], b: u8) -> usize
    ensures { result ≤ length s.now }
{
    s.iter().position(|&c| c == b).unwrap_or(s.len())
}

// What stands up to an end. As `get`, for any end: what is said of a case's parts is said by `take` and `drop`.
pub fn up_to<T>(s: &[T], end: usize) -> &[T]
    ensures { result.now ≡ take end s.now }
{
    s.get(..end).unwrap_or(s)
}

// What stands from a place on.
pub fn from<T>(s: &[T], start: usize) -> &[T]
    ensures { result.now ≡ drop start s.now }
{
    s.get(start..).unwrap_or(&[])
}

// The number of the four bytes from a place on, big-endian; a byte past the end is 0.
#[tactic(auto, unfolding(base::specs::Bytes::word_at))]
pub fn number(s: &[u8], at: usize) -> u32
    ensures { result ≡ word_at s.now at }
{
    let bytes = from(s, at);
    u32::from_be_bytes(array::from_fn(|i| base::byte_at(bytes, i)))
}
