// Rows, boxes and stations in words.
ghost use Rattle.std.specs.Prelude.{◌≡◌, take};

use crate::words::Decided;
use attempts::{State, Station};
use floor::{Floor, Share};
use register::{ByDepartment, Department, Register, StorageBox};
use std::fmt;

// As `state_word` of drill: the test programs keep words of their own, apart from those of the program that they test.
fn word(state: State) -> &'static str {
    match state {
        State::Idle => "idle",
        State::Reading(_) => "reading",
        State::Writing(_) => "writing",
        State::Decided(_) => "decided",
        State::Gone => "gone",
    }
}

// A station or a box, with its number.
#[derive(Drop)]
struct Numbered<T> {
    number: u8,
    thing: T,
}

impl fmt::Display for Numbered<Station> {
    fn fmt<W: fmt::Write>(&self, f: &mut fmt::Formatter<W>) -> fmt::Result {
        let number = self.number;
        let st = self.thing;
        let of = ByDepartment {
            sails: " ",
            canvas: " of canvas, ",
        };
        let of = of.of(st.department);
        let state = word(st.state);
        let rank = player::last_rank(st.last, number);
        let decided = Decided(st.decided);
        write!(
            f,
            "station {number}{of}{state}, last rank {rank}, decided revision {decided}"
        )
    }
}

#[derive(Drop)]
struct Record(Register);

impl fmt::Display for Record {
    fn fmt<W: fmt::Write>(&self, f: &mut fmt::Formatter<W>) -> fmt::Result {
        let r = self.0;
        let value = r.value.r0;
        write!(
            f,
            "read rank {}, write rank {}, value {value}",
            r.read, r.write
        )
    }
}

// A box: the record of sails, that of canvas where it is not all 0, and whether it is away.
impl fmt::Display for Numbered<StorageBox> {
    fn fmt<W: fmt::Write>(&self, f: &mut fmt::Formatter<W>) -> fmt::Result {
        let ByDepartment { sails, canvas } = self.thing.registers;
        write!(f, "box {} {}", self.number, Record(sails))?;
        if canvas.read | canvas.write | canvas.value.r0 != 0 {
            write!(f, "; canvas {}", Record(canvas))?;
        }
        if self.thing.away {
            write!(f, ", away")?;
        }
        Ok(())
    }
}

// The stations or the boxes of a floor, a line for each.
#[derive(Drop)]
pub struct Lines<'a, T>(&'a [T]);

impl<T: Copy> fmt::Display for Lines<'_, T>
where
    Numbered<T>: fmt::Display,
{
    fn fmt<W: fmt::Write>(&self, f: &mut fmt::Formatter<W>) -> fmt::Result {
        for (number, thing) in (0..=u8::MAX).zip(self.0.iter()) {
            let thing = *thing;
            writeln!(f, "  {}", Numbered { number, thing })?;
        }
        Ok(())
    }
}

pub fn stations(f: &Floor) -> Lines<'_, Station>
    ensures { result.0.now ≡ take f.now.m f.now.stations }
{
    Lines(cases::up_to(&f.stations, f.m as usize))
}

pub fn boxes(f: &Floor) -> Lines<'_, StorageBox>
    ensures { result.0.now ≡ take f.now.n f.now.boxes }
{
    Lines(cases::up_to(&f.boxes, f.n as usize))
}

// The stations that are of canvas, among all sixteen places.
#[derive(Drop)]
pub struct CanvasStations<'a>(pub &'a Floor);

impl fmt::Display for CanvasStations<'_> {
    fn fmt<W: fmt::Write>(&self, f: &mut fmt::Formatter<W>) -> fmt::Result {
        for (number, station) in self.0.stations.iter().enumerate() {
            if let Department::Canvas = station.department {
                write!(f, ", station {number} of canvas")?;
            }
        }
        Ok(())
    }
}

#[derive(Drop)]
struct Begun(Share);

impl fmt::Display for Begun {
    fn fmt<W: fmt::Write>(&self, f: &mut fmt::Formatter<W>) -> fmt::Result {
        let share = self.0;
        write!(f, "{}, highest rank begun {}", share.used, share.highest)
    }
}

// A row, and what each department has begun: the rows in use and the highest rank, those of canvas where they are not 0.
#[derive(Drop)]
struct RowOf<'a> {
    floor: &'a Floor,
    number: u8,
}

impl fmt::Display for RowOf<'_> {
    fn fmt<W: fmt::Write>(&self, f: &mut fmt::Formatter<W>) -> fmt::Result {
        let number = self.number;
        let w = self.floor.rows[(number % 128) as usize];
        let ByDepartment { sails, canvas } = self.floor.shares;
        let offer = w.offer.r0;
        let writes = w.written.r0;
        write!(
            f,
            "row {number}: station {}, rank {}, offer {offer}, writes {writes}",
            w.station, w.rank
        )?;
        write!(f, ", read answers received by mask {}", w.read.heard)?;
        write!(f, ", write answers by mask {}", w.write.heard)?;
        write!(f, "; rows in use {}", Begun(sails))?;
        if canvas.used != 0 || canvas.highest != 0 {
            write!(f, "; of canvas {}", Begun(canvas))?;
        }
        Ok(())
    }
}

// A row as it stands, with what each department has begun; or a box (1), or a station (2). What it is, is a byte of the case's notation,
// as the legend of the program's input has it.
#[derive(Drop)]
pub struct Part<'a> {
    pub floor: &'a Floor,
    pub number: u8,
    pub what: u8,
}

impl fmt::Display for Part<'_> {
    fn fmt<W: fmt::Write>(&self, f: &mut fmt::Formatter<W>) -> fmt::Result {
        let floor = self.floor;
        match self.what {
            1 => {
                let number = self.number % 9;
                let thing = floor.boxes[number as usize];
                write!(f, "{}", Numbered { number, thing })
            }
            2 => {
                let number = self.number % 16;
                let thing = floor.stations[number as usize];
                write!(f, "{}", Numbered { number, thing })
            }
            _ => {
                let number = self.number;
                write!(f, "{}", RowOf { floor, number })
            }
        }
    }
}
