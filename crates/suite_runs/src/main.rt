// The program suite_runs: makes new floors, plays drill files on them, writes these, drives stations alone, and says what came
// of each case.
#![tactic(auto)]

mod play;
mod rounds;
mod write;

// A case's kind is the letter that it begins with in the input. The output passes over what it can't write, so no error comes of it.
fn main() {
    let out = cases::Output;
    let _ = cases::play(&out, |case| match case.kind {
        b'f' => play::file(&out, case),
        b'p' => play::play(&out, case),
        b'r' => play::run(&out, case),
        b'n' => play::new_floor(&out, case),
        b'a' => rounds::ranks(&out, case),
        b'w' => write::parts(&out, case),
        b'c' => write::composed(&out, case),
        _ => cases::unknown(&out),
    });
}
