// The program drill: reads a drill file from standard input, plays it, and prints what document 01 says.
#![tactic(auto)]

ghost use Rattle.std.specs.Prelude.{◌≡◌, ◌≤◌, length};
ghost use Rattle.base.specs.Refusals.{number_if};
ghost use Rattle.drill.specs.Report.{decimal_of, state_word, decision_word, panel_line, station_line, station_lines, end_line, report_of};
ghost use Rattle.drill.specs.Text.{text_put};

use arrayvec::ArrayVec;
use attempts::{State, Station};
use base::Refusal;
use floor::Floor;
use itoa::Buffer;
use suits::Suit;

// The text that is printed. The longest has fewer than 2,048 bytes; what there is no room for is left out.
// Not by `write!`: `report` ensures its text of every file, and `write!` promises its text only where it answers Ok, and not that it does.
#[derive(Drop)]
struct Text {
    bytes: ArrayVec<u8, 2048>,
}

// The test programs have words of their own, so that what tests this shares no text with it.
fn state_word(state: State) -> &'static [u8]
    ensures { result.now ≡ state_word state }
{
    match state {
        State::Idle => b"idle",
        State::Reading(_) => b"reading",
        State::Writing(_) => b"writing",
        State::Decided(_) => b"decided",
        State::Gone => b"gone",
    }
}

impl Text {
    #[tactic(auto, using(crate::proofs::TextLaws::put_cut))]
    fn put(&mut self, more: &[u8])
        ensures { self.new.bytes.items ≡ text_put self.old.bytes.items more.now }
    {
        let size = self.bytes.remaining_capacity().min(more.len());
        self.bytes.try_extend_from_slice(&more[..size]).unwrap();
    }

    #[tactic(auto, using(crate::proofs::Decimals::decimal_printed))]
    fn put_number(&mut self, n: u64)
        ensures { self.new.bytes.items ≡ text_put self.old.bytes.items (decimal_of n) }
    {
        let mut digits = Buffer::new();
        self.put(digits.format(n).as_bytes());
    }

    // The revision that was decided, 0 too, or that none was.
    fn put_decision(&mut self, decided: Option<Suit>)
        ensures { self.new.bytes.items ≡ text_put self.old.bytes.items (decision_word decided) }
    {
        match decided {
            None => self.put(b"none"),
            Some(v) => self.put_number(u64::from(v.r0)),
        }
    }

    #[tactic(auto, using(crate::proofs::TextLaws::put_twice), unfolding(crate::specs::Report::station_line))]
    fn put_station(&mut self, number: u8, st: Station)
        ensures { self.new.bytes.items ≡ text_put self.old.bytes.items (station_line number st) }
    {
        self.put(b"station ");
        self.put_number(u64::from(number));
        self.put(b" ");
        self.put(state_word(st.state));
        self.put(b" ");
        self.put_number(u64::from(player::last_rank(st.last, number)));
        self.put(b" ");
        self.put_decision(st.decided);
        self.put(b"\n");
    }

    #[tactic(auto, using(crate::proofs::TextLaws::put_twice), unfolding(crate::specs::Report::panel_line))]
    fn put_panel(&mut self, label: &[u8], n: u8, m: u8)
        ensures { self.new.bytes.items ≡ text_put self.old.bytes.items (panel_line label.now n m) }
    {
        self.put(b"panel ");
        self.put(label);
        self.put(b" boxes ");
        self.put_number(u64::from(n));
        self.put(b" stations ");
        self.put_number(u64::from(m));
        self.put(b"\n");
    }

    // The lines of all stations.
    #[tactic(auto, using(crate::proofs::TextLaws::put_twice, crate::proofs::TextLaws::put_nothing), unfolding(crate::specs::Report::station_lines))]
    fn put_stations(&mut self, f: &Floor)
        requires fits { length self.old.bytes.items ≤ 2048 }
        requires few { f.now.m ≤ 16 }
        ensures { self.new.bytes.items ≡ text_put self.old.bytes.items (station_lines f.now f.now.m) }
    {
        for number in 0..f.m {
            self.put_station(number, f.stations[usize::from(number)]);
        }
    }

    #[tactic(auto, using(crate::proofs::TextLaws::put_twice), unfolding(crate::specs::Report::end_line))]
    fn put_end(&mut self, steps: usize, refusal: Option<Refusal>)
        ensures { self.new.bytes.items ≡ text_put self.old.bytes.items (end_line steps (number_if refusal)) }
    {
        self.put(b"end ");
        self.put_number(steps as u64);
        self.put(b" ");
        self.put_number(u64::from(base::number_if(refusal)));
        self.put(b"\n");
    }
}

// All lines of a file. An accepted file has a label; a refused one has none, and only its end line is printed.
fn report(file: &[u8]) -> Text
    ensures { result.bytes.items ≡ report_of file.now }
{
    let played = player::play(file);
    let label = drill_file::label(file);
    let mut text = Text {
        bytes: ArrayVec::new(),
    };
    if label.is_empty() {
        text.put_end(played.accepted, played.refusal);
        return text;
    }
    text.put_panel(label, played.floor.n, played.floor.m);
    text.put_stations(&played.floor);
    text.put_end(played.accepted, played.refusal);
    text
}

// A file has at most 32,822 bytes: of a longer input one byte more is read, and refused with 1.
// Not by std's reader and writer: these rest on lseek and errno of the C library too, those of `io` on read and write alone.
fn main() {
    let mut input = [0u8; 32823];
    let size = io::read_full(0, &mut input);
    let text = report(&input[..size]);
    io::write_all(1, text.bytes.as_slice());
}
