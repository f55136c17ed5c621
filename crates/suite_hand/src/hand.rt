// Changes of a floor by hand, as records; a department is 0 for sails, and 1 for canvas:
//
//     f0 boxes stations rows canvas                      how many there are, of rows how many are in use, in sails and in canvas
//     f1 row station readers writers                     the station of a row, and its masks of the boxes whose answers were
//                                                        received; those to reads say what the box held
//     f2 box read write value away department            the department's record of a box, and whether the box is away
//     f3 station state attempt last decided department told
//                                                        a station; its state counts from 0, in the order of `State`; it decided
//                                                        nothing where both the revision and the last byte are 0, else the
//                                                        revision, so that a last byte 1 says that it decided revision 0
//     f7 row boxes                                       the answers to the reads of a row that are outranked, as a mask of boxes
//     fb row rank                                        the rank of a row, a number of four bytes
//     fc rank department                                 the department's highest rank begun, a number of four bytes
use attempts::{State, Station};
use floor::{Floor, Share};
use register::{Department, Register, StorageBox};
use requests::Requests;
use std::array;
use suits::Suit;

// The answers of the boxes in a mask, each a yes or a no.
fn answer(q: &mut Requests, boxes: u8, ok: bool) {
    for b in 0u8..8 {
        if (boxes >> b) % 2 == 1 {
            q.slots[b as usize].ok = ok;
        }
    }
}

// A box with the record of one department; that of the other stays.
fn storage(x: StorageBox, r: [u8; 8]) -> StorageBox {
    let register = Register {
        read: r[2] as u32,
        write: r[3] as u32,
        value: suits::of_one(r[4] as u32),
    };
    StorageBox {
        registers: x.registers.with(Department::from(r[6]), register),
        away: r[5] != 0,
    }
}

// The state of a number, which stays a byte for the reason at `show::by_other`.
fn state(number: u8, attempt: u8) -> State {
    match number {
        0 => State::Idle,
        1 => State::Reading(attempt),
        2 => State::Writing(attempt),
        3 => State::Decided(attempt),
        _ => State::Gone,
    }
}

// What the station of a record decided.
pub(crate) fn decision(revision: u8, told: u8) -> Option<Suit> {
    if revision | told == 0 {
        return None;
    }
    Some(suits::of_one(revision as u32))
}

fn station(r: [u8; 8]) -> Station {
    Station {
        department: Department::from(r[6]),
        state: state(r[2], r[3]),
        last: r[4] as u16,
        decided: decision(r[5], r[7]),
    }
}

// Changes the floor as a record says. Its kind stays a byte, for the reason at `show::by_other`.
pub(crate) fn change(f: &mut Floor, r: [u8; 8]) {
    let [kind, place, x, y, z, ..] = r;
    match kind {
        0xf0 => {
            f.n = place;
            f.m = x;
            f.shares.sails.used = y;
            f.shares.canvas.used = z;
        }
        0xf1 => {
            let row = &mut f.rows[(place % 128) as usize];
            row.station = x;
            answer(&mut row.read, y, true);
            row.read.heard = y as u16;
            row.write.heard = z as u16;
        }
        0xf2 => {
            let b = (place % 9) as usize;
            f.boxes[b] = storage(f.boxes[b], r);
        }
        0xf7 => answer(&mut f.rows[(place % 128) as usize].read, x, false),
        _ => f.stations[(place % 16) as usize] = station(r),
    }
}

// Gives a row another rank.
pub(crate) fn row_rank(f: &mut Floor, row: u8, rank: u32) {
    f.rows[(row % 128) as usize].rank = rank;
}

// Gives a department another highest rank begun.
pub(crate) fn highest(f: &mut Floor, d: Department, rank: u32) {
    let highest = Share {
        highest: rank,
        ..f.shares.of(d)
    };
    f.shares = f.shares.with(d, highest);
}

// Sixteen boxes: the nine, and the first seven of them again.
pub(crate) fn sixteen(boxes: [StorageBox; 9]) -> [StorageBox; 16] {
    array::from_fn(|i| boxes[i % 9])
}
