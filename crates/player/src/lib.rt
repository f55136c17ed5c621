// Plays a drill file on a new floor.
#![tactic(auto)]

ghost use Rattle.std.specs.Prelude.{◌≡◌, ◌≤◌};
ghost use Rattle.floor.specs.Floors.{new_floor_of};
ghost use Rattle.floor.specs.Runs.{played_in};
ghost use Rattle.player.specs.Play.{told_from, played_of, last_rank};

use floor::Played;

// Plays records on the new floor of n boxes and m stations, with the department bytes given.
fn play_records(n: u8, m: u8, departments: &[u8], records: &[u8]) -> Played
    ensures { result ≡ played_in (new_floor_of n m departments.now).floor records.now }
{
    steps::run(steps::new_floor(n, m, departments).floor, records)
}

// The same with the department bytes of a file: where it has none all m stations are sails.
#[tactic(auto, using(crate::proofs::PlayLaws::told_none, crate::proofs::PlayLaws::told_some))]
fn play_told(n: u8, m: u8, told: &[u8], records: &[u8]) -> Played
    requires { m ≤ 16 }
    ensures { result ≡ played_in (new_floor_of n m (told_from m told.now)).floor records.now }
{
    if told.is_empty() {
        let sails = [0u8; 16];
        return play_records(n, m, &sails[..usize::from(m)], records);
    }
    play_records(n, m, told, records)
}

// Plays a file of any bytes.
pub fn play(file: &[u8]) -> Played
    ensures { result ≡ played_of file.now }
{
    match drill_file::read_header(file) {
        Ok(header) => play_told(
            header.n,
            header.m,
            drill_file::departments(file),
            &file[header.start..],
        ),
        Err(refusal) => Played {
            floor: steps::new_floor(1, 1, &[0]).floor,
            accepted: 0,
            refusal: Some(refusal),
        },
    }
}

// The rank of the last attempt of a station, from its last round and its number; 0 if it has none.
#[tactic(auto, using(base::proofs::Tests::picks), unfolding(crate::specs::Play::last_rank))]
pub fn last_rank(last: u16, station: u8) -> u32
    ensures { result ≡ last_rank last station }
{
    if last == 0 {
        0
    } else {
        u32::from(last) * 16 + u32::from(station)
    }
}
