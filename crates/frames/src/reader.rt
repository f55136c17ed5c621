// The reader: the message in the frame at the start of an input of any bytes, and the part behind it.
ghost use Rattle.std.specs.Prelude.{◌≡◌, length};
ghost use Rattle.base.specs.Part.{IsPart};
ghost use Rattle.base.specs.Refusals.{number_in};
ghost use Rattle.frames.specs.Reader.{stated_length, end_of, wrong_for, wrong_length, wrong_version, formed, parsed, frame_refusal, behind_start, behind_of};

use crate::{Kind, Message};
use base::Refusal;

// The length that the frame states.
fn stated(input: &[u8]) -> u16
    ensures { result ≡ stated_length input.now }
{
    base::be16(base::byte_at(input, 0), base::byte_at(input, 1))
}

// Where the frame ends, by that length.
pub fn frame_end(input: &[u8]) -> usize
    ensures { result ≡ end_of input.now }
{
    2 + usize::from(stated(input))
}

// Whether the length is not the kind's; of an unknown kind any is right.
#[tactic(auto, using(crate::proofs::KindLaws::wrong_of, crate::proofs::KindLaws::wrong_of_none))]
fn wrong_for(kind: u8, stated: u16) -> bool
    ensures { result ≡ wrong_for kind stated }
{
    Kind::try_from(u32::from(kind)).is_ok_and(|k| stated != u16::from(2 + 4 * k.field_count()))
}

// Refusal 19.
#[tactic(auto, using(base::proofs::Tests::picks), unfolding(crate::specs::Reader::wrong_length))]
fn wrong_length(input: &[u8]) -> bool
    ensures { result ≡ wrong_length input.now }
{
    let rest = stated(input);
    input.len() < 2
        || input.len() < frame_end(input)
        || rest < 2
        || wrong_for(base::byte_at(input, 3), rest)
}

// Refusal 20.
#[tactic(auto, unfolding(crate::specs::Reader::wrong_version))]
fn wrong_version(input: &[u8]) -> bool
    ensures { result ≡ wrong_version input.now }
{
    base::byte_at(input, 2) != 1
}

// The message of a kind, given by its number, with these fields; refusal 21 also where no kind has the number. A field that the kind does
// not have is not looked at.
pub fn message_of(kind: u32, first: u32, second: u32) -> Result<Message, Refusal>
    ensures { result ≡ formed kind first second }
{
    Kind::try_from(kind)?.message(first, second).checked()
}

// The message in the frame at the start of the input.
#[tactic(auto, using(base::proofs::Tests::picks), unfolding(crate::specs::Reader::parsed, crate::specs::Reader::field_at))]
pub fn read_frame(input: &[u8]) -> Result<Message, Refusal>
    ensures answer { result ≡ parsed input.now }
    ensures number { number_in result ≡ frame_refusal input.now }
{
    if wrong_length(input) {
        return Err(Refusal::FrameLength);
    }
    if wrong_version(input) {
        return Err(Refusal::FrameVersion);
    }
    message_of(
        u32::from(base::byte_at(input, 3)),
        base::get_u32(input, 4),
        base::get_u32(input, 8),
    )
}

// The part of the input behind the frame; of a refused input, the empty part at its start.
pub fn behind_frame(input: &[u8]) -> &[u8]
    ensures bytes { result.now ≡ behind_of input.now }
    ensures place { IsPart result input.entry (behind_start input.now) (length (behind_of input.now)) }
{
    if read_frame(input).is_err() {
        return &input[0..0];
    }
    let end = frame_end(input);
    &input[end..]
}
