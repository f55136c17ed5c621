// A suit, the value of consensus: what is decided as one. A box, a row and a station keep whole suits, of one revision.
#![tactic(auto)]

ghost use Rattle.std.specs.Prelude.{◌≡◌};
ghost use Rattle.suits.specs.Suits.{suit0, single};

// Numbers and no array: an enum may hold it.
#[derive(Clone, Copy)]
pub struct Suit {
    pub r0: u32,
}

// A suit of one revision.
pub fn of_one(v: u32) -> Suit
    ensures { result ≡ single v }
{
    Suit { r0: v }
}

// Where nothing is written.
pub fn none() -> Suit
    ensures { result ≡ suit0 }
{
    of_one(0)
}
