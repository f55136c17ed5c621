// What several crates compute: big-endian numbers, bytes at places of a slice, the size of a quorum, and the tests of refusals 3 and 22;
// and the refusals by name.
#![tactic(auto)]

ghost use Rattle.std.specs.Prelude.{◌≡◌, ◌+◌, leb, length, get_or};
ghost use Rattle.base.specs.Refusals.{number, number_if};
ghost use Rattle.base.specs.Choice.{when◌then◌else◌};
ghost use Rattle.base.specs.Numbers.{sizes_right, quorum};
ghost use Rattle.base.specs.Departments.{not_departments, departments_wrong};
ghost use Rattle.base.specs.Bytes.{word16, word32, bytes16, bytes32, word_at, with_word, bytes_put};

// Why a file, a floor, a step, a box call or a frame is turned back, each with the number that document 01 gives it under "Turned back",
// and document 02 in its wishes.
#[derive(Clone, Copy, Debug, PartialEq, Eq)]
pub enum Refusal {
    FileSize = 1,
    Version = 2,
    Sizes = 3,
    Label = 4,
    Records = 5,
    Unsound = 6,
    Kind = 7,
    Unknown = 8,
    Gone = 9,
    Busy = 10,
    Round = 11,
    NoRow = 12,
    Away = 13,
    NotDue = 14,
    TooFew = 15,
    Length = 16,
    RankZero = 17,
    Room = 18,
    FrameLength = 19,
    FrameVersion = 20,
    Message = 21,
    Departments = 22,
    NotAway = 23,
}

impl Refusal {
    pub fn number(self) -> u8
        ensures { result ≡ number self }
    {
        self as u8
    }
}

// The number of a refusal, 0 where there is none.
pub fn number_if(refusal: Option<Refusal>) -> u8
    ensures { result ≡ number_if refusal }
{
    refusal.map_or(0, Refusal::number)
}

// The number of two bytes, big-endian. It and its like name the words that contracts are said in, one for each width.
pub fn be16(high: u8, low: u8) -> u16
    ensures { result ≡ word16 high low }
{
    u16::from_be_bytes([high, low])
}

// The number of four bytes, big-endian.
pub fn be32(a: u8, b: u8, c: u8, d: u8) -> u32
    ensures { result ≡ word32 a b c d }
{
    u32::from_be_bytes([a, b, c, d])
}

// The bytes of a number, big-endian: two, and four. By shifts: std's `to_be_bytes` divides, and nothing that a solo finish reaches does
// (tests/division).
pub fn split16(x: u16) -> [u8; 2]
    ensures { result ≡ bytes16 x }
{
    [(x >> 8) as u8, (x & 255) as u8]
}

pub fn split32(x: u32) -> [u8; 4]
    ensures { result ≡ bytes32 x }
{
    [
        (x >> 24) as u8,
        (x >> 16 & 255) as u8,
        (x >> 8 & 255) as u8,
        (x & 255) as u8,
    ]
}

// The byte at a place, 0 past the end.
pub fn byte_at(s: &[u8], at: usize) -> u8
    ensures { result ≡ get_or s.now at 0 }
{
    s.get(at).copied().unwrap_or(0)
}

// The number whose four bytes stand from a place on. Past the end nothing is read: 0.
pub fn get_u32(s: &[u8], at: usize) -> u32
    ensures { result ≡ (when leb (at + 4) (length s.now) then word_at s.now at else 0) }
{
    let Some(from) = s.get(at..) else {
        return 0;
    };
    match from {
        [a, b, c, d, ..] => be32(*a, *b, *c, *d),
        _ => 0,
    }
}

// Stores a number's four bytes from a place on. Past the end nothing is stored.
pub fn put_u32(s: &mut [u8], at: usize, x: u32)
    ensures { s.new ≡ (when leb (at + 4) (length s.old) then with_word s.old at x else s.old) }
{
    put_bytes(s, at, &split32(x))
}

// Stores bytes from a place on. Past the end nothing is stored.
// A rule of the project, that a library for C calls nothing of the C library: `copy_from_slice` of an unknown length would call `memmove`.
pub fn put_bytes(s: &mut [u8], at: usize, bytes: &[u8])
    ensures { s.new ≡ bytes_put s.old at bytes.now }
{
    if s.len() < bytes.len() || s.len() - bytes.len() < at {
        return;
    }
    for (i, &byte) in bytes.iter().enumerate() {
        s[at + i] = byte;
    }
}

// The size of a quorum of n boxes, a majority.
pub fn majority(n: u8) -> u8
    ensures { result ≡ quorum n }
{
    (n >> 1) + 1
}

// Whether a floor may have n boxes and m stations: refusal 3 does not apply.
#[tactic(auto, unfolding(crate::specs::Numbers::sizes_right))]
pub fn sizes_right(n: u8, m: u8) -> bool
    ensures { result ≡ sizes_right n m }
{
    (1..=9).contains(&n) && (1..=16).contains(&m)
}

// Whether a department byte is not 0 or 1.
#[tactic(auto, unfolding(crate::specs::Departments::not_departments, crate::specs::Departments::not_department))]
pub fn not_departments(s: &[u8]) -> bool
    ensures { result ≡ not_departments s.now }
{
    s.iter().any(|&b| 1 < b)
}

// Refusal 22, of department bytes that are to be k.
#[tactic(auto, unfolding(crate::specs::Departments::departments_wrong))]
pub fn departments_wrong(k: usize, s: &[u8]) -> bool
    ensures { result ≡ departments_wrong k s.now }
{
    s.len() != k || not_departments(s)
}
