// The program suite_hand: takes steps and solo finishes on floors that are changed by hand, and says what came of each case.
#![tactic(auto)]

mod hand;
mod say;
mod show;

// A case's kind is the letter that it begins with in the input. The output passes over what it can't write, so no error comes of it.
fn main() {
    let out = cases::Output;
    let _ = cases::play(&out, |case| match case.kind {
        b'h' => show::by_hand(&out, case),
        b'b' => show::behind(&out, case),
        _ => cases::unknown(&out),
    });
}
