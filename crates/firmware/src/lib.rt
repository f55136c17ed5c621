// The box routine as box firmware in C calls it: document 01's section "The box routine" and wish 2 of document 02, on a record of 12
// bytes. The routine itself is crate `register`'s, which the floor runs too; here are the bytes, the answers and the refusals. Beside it the
// frames of crate `frames` for C, and the call that serves a request (wish 3). What C calls answers a number and fills what it is lent: the
// C interface (include/box_firmware.h).
#![tactic(auto)]

ghost use Rattle.std.specs.Prelude.{◌≡◌};
ghost use Rattle.base.specs.Refusals.{number, number_in, size_in};
ghost use Rattle.firmware.specs.Firmware.{decode, encode, reply_of, read_answer, record_after_read, reply_after_read, write_answer, record_after_write};

use base::Refusal;
use register::Register;

mod serve;
mod wire;

pub use serve::{Served, box_serve};
pub use wire::{frame_read, frame_write};

// ---- The record of 12 bytes and the reply of 8

#[tactic(auto, using(base::proofs::Tests::picks), unfolding(crate::specs::Firmware::decode))]
fn decode(bytes: [u8; 12]) -> Register
    ensures { result ≡ decode bytes }
{
    Register {
        read: base::get_u32(&bytes, 0),
        write: base::get_u32(&bytes, 4),
        value: suits::of_one(base::get_u32(&bytes, 8)),
    }
}

// Stores a register in a record; a read rank alone, where nothing else of it changed; and the two words of an answer in a reply. Word by
// word: the compiler stores the bytes of an array that is made of words one by one.
fn store(bytes: &mut [u8; 12], x: Register)
    ensures { bytes.new ≡ encode x }
{
    base::put_u32(bytes, 0, x.read);
    base::put_u32(bytes, 4, x.write);
    base::put_u32(bytes, 8, x.value.r0);
}

fn store_read_rank(bytes: &mut [u8; 12], rank: u32)
    ensures { bytes.new ≡ encode (record { read = rank; write = (decode bytes.old).write; value = (decode bytes.old).value }) }
{
    base::put_u32(bytes, 0, rank);
}

fn fill(reply: &mut [u8; 8], rank: u32, value: u32)
    ensures { reply.new ≡ reply_of rank value }
{
    base::put_u32(reply, 0, rank);
    base::put_u32(reply, 4, value);
}

// ---- What C is answered

fn answer_of(refusal: Refusal) -> u32
    ensures { result ≡ number refusal }
{
    u32::from(refusal.number())
}

// Of what a writer answered; its size is stored.
fn answer_written(written: Result<usize, Refusal>, size: &mut usize) -> u32
    ensures answer { result ≡ number_in written }
    ensures size { size.new ≡ size_in written }
{
    match written {
        Ok(bytes) => {
            *size = bytes;
            0
        }
        Err(refusal) => {
            *size = 0;
            answer_of(refusal)
        }
    }
}

// ---- The two calls, `bytes` being the record. A refusal, 16 or 17, is decided before the first store.

// A read: the record's read rank becomes the rank, and the reply is filled with write rank and value. 100 where its read rank or its
// write rank is above the rank: then the record stays as it is, and the reply is zeroed.
#[tactic(auto, using(base::proofs::Tests::picks, crate::proofs::CallLaws::read_keeps), unfolding(crate::specs::Firmware::read_answer, crate::specs::Firmware::record_after_read, crate::specs::Firmware::reply_after_read))]
pub fn box_read(bytes: &mut [u8], rank: u32, reply: &mut [u8]) -> u32
    ensures answer { result ≡ read_answer bytes.old rank reply.old }
    ensures kept { bytes.new ≡ record_after_read bytes.old rank reply.old }
    ensures replied { reply.new ≡ reply_after_read bytes.old rank reply.old }
{
    let Some(record) = bytes.as_mut_array() else {
        return answer_of(Refusal::Length);
    };
    let Some(filled) = reply.as_mut_array() else {
        return answer_of(Refusal::Length);
    };
    if rank == 0 {
        return answer_of(Refusal::RankZero);
    }
    let done = decode(*record).rmw_read(rank);
    match done.answer {
        Some(held) => {
            store_read_rank(record, done.register.read);
            fill(filled, held.rank, held.value.r0);
            0
        }
        None => {
            *filled = [0; 8];
            100
        }
    }
}

// A write: 0 where it is taken, and 100 where it is not; then the record stays as it is.
#[tactic(auto, using(base::proofs::Tests::picks), unfolding(crate::specs::Firmware::write_answer, crate::specs::Firmware::record_after_write))]
pub fn box_write(bytes: &mut [u8], rank: u32, revision: u32) -> u32
    ensures answer { result ≡ write_answer bytes.old rank revision }
    ensures kept { bytes.new ≡ record_after_write bytes.old rank revision }
{
    let Some(record) = bytes.as_mut_array() else {
        return answer_of(Refusal::Length);
    };
    if rank == 0 {
        return answer_of(Refusal::RankZero);
    }
    let done = decode(*record).rmw_write(rank, suits::of_one(revision));
    if done.taken {
        store(record, done.register);
        return 0;
    }
    100
}
