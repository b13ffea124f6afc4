// The program: plays the script on standard input and prints it (document 01, "A script comes in"). What it prints is report's `printout`, which is proved;
// reading and writing are here.
#![tactic(auto)]

use arrayvec::ArrayString;
use thiserror::Error;

// Why nothing, or not all, was printed.
#[derive(Debug, Drop, Error)]
enum Failure {
    #[error("standard input cannot be read")]
    Unread,
    #[error("standard output cannot be written")]
    Unwritten,
}

// Prints a script's run in one piece, so that no line is ever cut by a refusal.
fn play(rt: &HostRuntime) -> Result<(), Failure> {
    // One byte more than the longest script, to see that there is more.
    let mut script = [0u8; 16385];
    let (length, end) = reading::read_full(&mut rt.stdin(), &mut script);
    end.map_err(|_| Failure::Unread)?;
    let mut text = ArrayString::new();
    report::printout(&script[..length], &mut text);
    rt.write_all(text.as_bytes())
        .map_err(|_| Failure::Unwritten)
}

// The exit status is 0 in any case: ./play gives one by the last line. Where even standard error cannot be written there is nothing left to say.
fn main(rt: HostRuntime) {
    if let Err(failure) = play(&rt) {
        let _ = eprintln!(rt; "sci3: {failure}");
    }
}
