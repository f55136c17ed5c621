// The program suite_frames: reads and writes frames and says what came of each case.
#![tactic(auto)]

mod frame;

// A case's kind is the letter that it begins with in the input. The output passes over what it can't write, so no error comes of it.
fn main() {
    let out = cases::Output;
    let _ = cases::play(&out, |case| match case.kind {
        b'g' => frame::get(&out, case),
        b'm' => frame::make(&out, case),
        b't' => frame::table(&out, case),
        _ => cases::unknown(&out),
    });
}
