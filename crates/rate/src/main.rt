// The program: prints the setting whose bit rate is nearest to a wanted one, for three arguments (document 02, "Three"). What it prints is rate_report's
// `printout`, which is proved; reading the arguments and writing are here.
#![tactic(auto)]

use arrayvec::ArrayString;
use std::env::{Env, FillError};
use std::process::ExitCode;

// The longest argument that is read.
const LONGEST: usize = 1024;

// The line for the program's arguments, where they are three numbers.
fn answer(rt: &impl Env) -> Option<ArrayString<128>> {
    let mut clock = [0u8; LONGEST];
    let mut rate = [0u8; LONGEST];
    let mut tolerance = [0u8; LONGEST];
    let clock_length = rt.arg(1, &mut clock).ok()?;
    let rate_length = rt.arg(2, &mut rate).ok()?;
    let tolerance_length = rt.arg(3, &mut tolerance).ok()?;
    let mut more = [0u8; 1];
    let Err(FillError::NotPresent) = rt.arg(4, &mut more) else {
        return None;
    };
    rate_report::printout(
        &clock[..clock_length],
        &rate[..rate_length],
        &tolerance[..tolerance_length],
    )
}

// Status 0 where a line is printed, a refusal's too; 2 where the arguments are not three numbers; 4 where standard output cannot be written. Where even
// standard error cannot be written there is nothing left to say.
fn main(rt: HostRuntime) -> ExitCode {
    let Some(line) = answer(&rt) else {
        let _ = eprintln!(rt;
            "usage: rate CLOCK RATE TOLERANCE    (in Hz, bits a second and parts per ten thousand, in decimal)"
        );
        return ExitCode::from(2);
    };
    if rt.write_all(line.as_bytes()).is_err() {
        let _ = eprintln!(rt; "rate: standard output cannot be written");
        return ExitCode::from(4);
    }
    ExitCode::SUCCESS
}
