// The functions of the cutting floor: a new floor, whether a floor is sound, the row that a begin takes, and the steps that change a floor.
// What they do is said in crate `floor`.
//
// A step looks at one row, one box and one station and changes no other. `parts` decides on these alone; `turn` is the one place
// that reads them out of a floor and stores them into it. The floor stays where it is: no whole floor is moved for a step.
#![tactic(auto)]

ghost use Rattle.std.specs.Prelude.{◌≡◌, length, ◌≤◌, [], Some, ltb};
ghost use Rattle.std.specs.List.{list_all};
ghost use Rattle.attempts.specs.declared.Row.{Row};
ghost use Rattle.base.specs.Choice.{when◌then◌else◌};
ghost use Rattle.base.specs.Records.{records_in};
ghost use Rattle.commands.specs.Commands.{command_of};
ghost use Rattle.commands.specs.Outcomes.{number_of, value_of};
ghost use Rattle.floor.specs.Floors.{new_station, stations_told, empty_floor, new_floor_of};
ghost use Rattle.floor.specs.Sound.{share_sound, sound_of};
ghost use Rattle.floor.specs.Free.{next_row};
ghost use Rattle.floor.specs.Effects.{stepped};
ghost use Rattle.floor.specs.Step.{apply_of, step_of, refusal_of, value_said};
ghost use Rattle.floor.specs.Departments.{belonging, department_with};
ghost use Rattle.floor.specs.Runs.{ran_with, run_from, played_in, driven_in};
ghost use Rattle.floor.specs.Soundness.{Sound};

use attempts::{Row, State, Station};
use base::Refusal;
use commands::{Command, Outcome};
use floor::{Floor, NewFloor, Played, Ran, Share, Stepped};
use parts::Parts;
use register::{ByDepartment, Department, Register, StorageBox};
use runs::Until;

mod free;

// A station of that department that has begun nothing and decided nothing.
fn new_station(department: Department) -> Station
    ensures { result ≡ new_station department }
{
    Station {
        department,
        state: State::Idle,
        last: 0,
        decided: None,
    }
}

// The stations of a new floor, told their departments.
#[tactic(auto, unfolding(floor::specs::Floors::stations_told))]
fn stations_told(departments: &[u8]) -> [Station; 16]
    requires { length departments.now ≤ 16 }
    ensures { result ≡ stations_told departments.now (length departments.now) }
{
    let mut stations = [new_station(Department::Sails); 16];
    for (k, &byte) in departments.iter().enumerate() {
        stations[k] = new_station(Department::from(byte));
    }
    stations
}

// A floor of n boxes and m stations of these departments on which nothing has happened.
fn empty(n: u8, m: u8, departments: &[u8]) -> Floor
    requires { length departments.now ≤ 16 }
    ensures { result ≡ empty_floor n m departments.now }
{
    let register = Register {
        read: 0,
        write: 0,
        value: suits::none(),
    };
    let storage = StorageBox {
        registers: ByDepartment {
            sails: register,
            canvas: register,
        },
        away: false,
    };
    let share = Share {
        used: 0,
        highest: 0,
    };
    Floor {
        n,
        m,
        shares: ByDepartment {
            sails: share,
            canvas: share,
        },
        boxes: [storage; 9],
        stations: stations_told(departments),
        rows: [attempts::unused(); 128],
    }
}

// A new floor that is turned back: that of one box and one station.
fn none_made(refusal: Refusal) -> NewFloor
    ensures { result ≡ record { floor = empty_floor 1 1 []; refusal = Some refusal } }
{
    NewFloor {
        floor: empty(1, 1, &[]),
        refusal: Some(refusal),
    }
}

// A new floor is told the departments of its stations, one byte each: 0 sails, 1 canvas.
#[tactic(auto, using(base::proofs::Tests::picks, base::proofs::SizeLaws::sizes_mean, base::proofs::DepartmentLaws::departments_mean), unfolding(floor::specs::Floors::new_floor_of))]
pub fn new_floor(n: u8, m: u8, departments: &[u8]) -> NewFloor
    ensures { result ≡ new_floor_of n m departments.now }
{
    if !base::sizes_right(n, m) {
        return none_made(Refusal::Sizes);
    }
    if base::departments_wrong(m as usize, departments) {
        return none_made(Refusal::Departments);
    }
    NewFloor {
        floor: empty(n, m, departments),
        refusal: None,
    }
}

// Each of the rows has a station below m.
fn stations_below(rows: &[Row], m: u8) -> bool
    ensures { result ≡ list_all (λ (w : Row). ltb w.station m) rows.now }
{
    rows.iter().all(|w| w.station < m)
}

// Refusal 6 does not apply to the rows that the department uses.
#[tactic(auto, using(base::proofs::Tests::picks, floor::proofs::SoundLaws::below_part), unfolding(floor::specs::Sound::share_sound))]
fn share_sound(f: &Floor, d: Department) -> bool
    ensures { result ≡ share_sound f.now d }
{
    let used = f.shares.of(d).used as usize;
    let first = attempts::first_row(d) as usize;
    used <= 64 && stations_below(&f.rows[first..first + used], f.m)
}

// Refusal 6 does not apply.
#[tactic(auto, using(base::proofs::Tests::picks), unfolding(floor::specs::Sound::sound_of))]
fn sound_here(f: &Floor) -> bool
    ensures { result ≡ sound_of f.now }
{
    base::sizes_right(f.n, f.m)
        && share_sound(f, Department::Sails)
        && share_sound(f, Department::Canvas)
}

pub fn sound(f: Floor) -> bool
    ensures { result ≡ sound_of f }
{
    sound_here(&f)
}

// The row that a begin of the department takes on a sound floor, as `next_sound`; 128 also where the floor is not sound. A number and no
// Option: 128 is what the call promises where there is none.
#[tactic(auto, using(base::proofs::Tests::picks, floor::proofs::SoundLaws::sound_means))]
pub fn next_row(f: Floor, d: Department) -> u8
    ensures { result ≡ (when sound_of f then next_row f d else 128) }
{
    if !sound_here(&f) {
        return 128;
    }
    free::next_sound(&f, d)
}

// The department that the step belongs to, where the station that it names is of the department `own`; of a step that both share `own`.
fn department_in(own: Department, c: Command) -> Department
    ensures { result ≡ department_with own (belonging own c) }
{
    match c {
        Command::Serve(_, a, _) | Command::Deliver(_, a, _) => attempts::department_of(a),
        Command::Begin(_, _, _)
        | Command::Stop(_)
        | Command::Leave(_)
        | Command::Return(_)
        | Command::Malformed => own,
    }
}

// A lent floor that is sound: shown once, where a public call tests it, and again behind each accepted step.
#[derive(Drop)]
struct SoundFloor<'a> {
    floor: &'a mut Floor,
    ghost sound: { Sound floor.now },
}

// A step on a sound floor: what it looks at is read out of the floor, and stored there if the step is accepted.
#[tactic(auto, using(places::proofs::PlaceLaws::place_below))]
fn turn(f: &mut SoundFloor, c: Command) -> Outcome
    ensures same_reference { f.new.floor.ghost_name ≡ f.old.floor.ghost_name }
    ensures stepped { stepped f.new.floor.now result ≡ apply_of f.old.floor.now c }
{
    let near = places::station_place(16, 0, c) as usize;
    let d = department_in(f.floor.stations[near].department, c);
    let share = f.floor.shares.of(d);
    let next = free::taken(f.floor, d, c);
    let i = places::row_place(128, next, c) as usize;
    let b = places::box_place(9, c) as usize;
    let row = f.floor.rows[i];
    let j = places::station_place(16, row.station, c) as usize;
    let storage = f.floor.boxes[b];
    let mut x = Parts {
        n: f.floor.n,
        m: f.floor.m,
        first: attempts::first_row(d),
        used: share.used,
        next,
        highest: share.highest,
        row,
        register: storage.registers.of(d),
        away: storage.away,
        station: f.floor.stations[j],
    };
    let outcome = parts::change(&mut x, c);
    if outcome.refused() {
        return outcome;
    }
    f.floor.shares = f.floor.shares.with(
        d,
        Share {
            used: x.used,
            highest: x.highest,
        },
    );
    f.floor.boxes[b] = StorageBox {
        registers: storage.registers.with(d, x.register),
        away: x.away,
    };
    f.floor.stations[j] = x.station;
    f.floor.rows[i] = x.row;
    outcome
}

// A command on a sound floor, and then the steps of the records behind it: how many were accepted, and what the last step said, the refused
// one included. A `loop`: k is also how many steps were accepted, and a step is taken behind the last record too.
fn run_sound(f: &mut SoundFloor, first: Command, records: &[u8], until: Until) -> (usize, Outcome)
    ensures same_reference { f.new.floor.ghost_name ≡ f.old.floor.ghost_name }
    ensures ran { ran_with f.new.floor.now result.0 result.1 ≡ run_from until 0 f.old.floor.now first (records_in records.now) }
{
    let count = records.len() >> 3;
    let mut c = first;
    let mut k: usize = 0;
    loop {
        let outcome = turn(f, c);
        if outcome.refused() {
            return (k, outcome);
        }
        if runs::over(count - k, until, false, outcome.ends()) {
            return (k + 1, outcome);
        }
        c = commands::decode(runs::record_at(records, k));
        k += 1;
    }
}

// Takes the steps of a list of 8-byte records one after the other, up to the first that is refused.
pub fn run(mut f: Floor, records: &[u8]) -> Played
    ensures { result ≡ played_in f records.now }
{
    if let Err(refusal) = runs::run_refusal(sound_here(&f), records.len()) {
        return Played {
            floor: f,
            accepted: 0,
            refusal: Some(refusal),
        };
    }
    if records.len() < 8 {
        return Played {
            floor: f,
            accepted: 0,
            refusal: None,
        };
    }
    let first = commands::decode(runs::record_at(records, 0));
    let (accepted, outcome) = run_sound(
        &mut SoundFloor { floor: &mut f },
        first,
        &records[8..],
        Until::Refusal,
    );
    Played {
        floor: f,
        accepted,
        refusal: outcome.refusal(),
    }
}

// The same from a record on, up to the first step that is refused or that ends an attempt, with what the last step said.
pub fn drive(mut f: Floor, first: [u8; 8], records: &[u8]) -> Ran
    ensures ran { result ≡ driven_in f first records.now }
    ensures number { number_of result.outcome ≡ number_of (driven_in f first records.now).outcome }
    ensures value { value_of result.outcome ≡ value_of (driven_in f first records.now).outcome }
{
    if let Err(refusal) = runs::run_refusal(sound_here(&f), records.len()) {
        return Ran {
            floor: f,
            accepted: 0,
            outcome: Outcome::Refused(refusal.number()),
        };
    }
    let (accepted, outcome) = run_sound(
        &mut SoundFloor { floor: &mut f },
        commands::decode(first),
        records,
        Until::End,
    );
    Ran {
        floor: f,
        accepted,
        outcome,
    }
}

// A single step on a decoded command.
#[tactic(auto, using(floor::proofs::SoundLaws::sound_means, floor::proofs::StepLaws::apply_unsound))]
pub fn apply(mut f: Floor, c: Command) -> Stepped
    ensures stepped { result ≡ apply_of f c }
    ensures number { number_of result.outcome ≡ refusal_of f c }
    ensures value { value_of result.outcome ≡ value_said f c }
{
    if !sound_here(&f) {
        return Stepped {
            floor: f,
            outcome: Outcome::Refused(Refusal::Unsound.number()),
        };
    }
    let outcome = turn(&mut SoundFloor { floor: &mut f }, c);
    Stepped { floor: f, outcome }
}

// The same step, handed in as its 8-byte record.
#[tactic(auto, unfolding(floor::specs::Step::step_of))]
pub fn step(f: Floor, bytes: [u8; 8]) -> Stepped
    ensures stepped { result ≡ step_of f bytes }
    ensures number { number_of result.outcome ≡ refusal_of f (command_of bytes) }
    ensures value { value_of result.outcome ≡ value_said f (command_of bytes) }
{
    apply(f, commands::decode(bytes))
}
