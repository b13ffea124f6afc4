// Plays the scripts of a fixed list and prints what each leaves: the file `stdout` beside src/ has the answers of the Rust reference, so they are compared
// with no Rust at hand. A case of standard input is the log's length and the script's, two bytes each, low byte first, and the script. Printed are the
// lines of its run as the program prints them, and a sum over the whole log, which was filled with AA, and the 56 numbers of the last state.
// A case whose log's length is FFFF is a write instead: a number or a command is written into a buffer, and printed are the writer's answer and the buffer's
// sum; `stdout` has what a writer in Rust makes of it. oracle/README.md has the layout of both, and the command that made both files.
#![tactic(auto)]

ghost use Rattle.std.specs.Prelude.{◌≤◌};

use capi::{STATE, sci3_fresh, sci3_play};
use command::Command;
use player::RECORD;
use script::Full;

// How many bytes a log and a buffer have at most.
const LOG: usize = 40960;

const BUFFER: usize = 32;

// What a write writes.
#[derive(Clone, Copy, Debug, PartialEq, Eq)]
enum Item {
    Number(u32),
    Command(Command),
}

// What a case asks for.
#[derive(Clone, Copy, Debug, PartialEq, Eq)]
enum Case<'a> {
    // A script's run with a log of so many bytes.
    Play {
        script: &'a [u8],
        room: usize,
    },
    // Whether so many bytes fit at an offset of a buffer of this length.
    Fits {
        length: usize,
        at: usize,
        count: usize,
    },
    // An item written at an offset of a buffer of this length.
    Write {
        length: usize,
        at: usize,
        item: Item,
    },
}

// Writes a text to standard output. What could not be written is missing there, which whoever compares the output sees.
fn put(out: &impl Print, text: &str) {
    let _ = out.write_all(text.as_bytes());
}

// The bytes of a number of a case; zeros where the case ends before. The offset is of the list's layout.
fn number<const N: usize>(s: &[u8], at: usize) -> [u8; N] {
    s.get(at..)
        .and_then(|rest| rest.first_chunk())
        .copied()
        .unwrap_or([0; N])
}

// FNV-1a, 32 bits: the sum of no bytes.
const NO_BYTES: u32 = 2166136261;

// The sum with these bytes more.
fn with_bytes(sum: u32, bytes: &[u8]) -> u32 {
    bytes.iter().fold(sum, |sum, byte| {
        (sum ^ u32::from(*byte)).wrapping_mul(16777619)
    })
}

fn with_numbers(sum: u32, numbers: &[u64]) -> u32 {
    numbers
        .iter()
        .fold(sum, |sum, number| with_bytes(sum, &number.to_le_bytes()))
}

fn print_sum(out: &impl Print, sum: u32) {
    let _ = println!(out; "= {sum:08X}");
}

fn print_records(out: &impl Print, log: &[u8]) {
    let (records, _) = log.as_chunks::<RECORD>();
    for bytes in records {
        put(out, &report::record_line(*bytes));
    }
}

// The numbers are the ones that C is told.
fn print_last(out: &impl Print, number: u64, offset: u64, length: u64) {
    let line = if number == 0 {
        report::end_line(length)
    } else {
        report::refused_line((number % 256) as u8, offset as usize)
    };
    put(out, &line);
}

// Lends so many bytes of AA, if there are as many. (The check asks for a bound of an array; no caller's is larger.)
fn with_room<const N: usize, F: FnOnce(&mut [u8])>(room: usize, f: F)
    requires small { N ≤ 40960 }
    requires callable { F.IsAlwaysCallable f }
{
    let mut bytes = [0xAAu8; N];
    if let Some(part) = bytes.get_mut(..room) {
        f(part);
    }
}

// Plays a script on a fresh port and prints what it leaves.
fn replay(out: &impl Print, script: &[u8], log: &mut [u8]) {
    let mut state = [0u64; STATE];
    let mut told = [0u64; 3];
    sci3_fresh(&mut state);
    let number = sci3_play(&mut state, script, log, &mut told);
    print_records(out, log.get(..told[1] as usize).unwrap_or(&[]));
    print_last(out, number, told[0], told[2]);
    let sum = with_bytes(NO_BYTES, log);
    print_sum(out, with_numbers(sum, &state));
}

fn print_written(out: &impl Print, answer: Result<usize, Full>) {
    match answer {
        Ok(end) => {
            let _ = println!(out; "to {end}");
        }
        Err(Full) => {
            put(out, "full\n");
        }
    }
}

// Writes an item at an offset of a buffer; the offset is a number of the list.
fn write(out: &impl Print, item: Item, at: usize, buf: &mut [u8]) {
    let answer = match item {
        Item::Number(value) => script::write_number(buf, at, value),
        Item::Command(command) => script::write_command(buf, at, command),
    };
    print_written(out, answer);
    print_sum(out, with_bytes(NO_BYTES, buf));
}

// The case that these bytes are, with the log's length before them. The kinds' numbers are the layout's, which the oracle writes too: they are read here alone.
fn case_of(room: u16, s: &[u8]) -> Case<'_> {
    if room != 0xFFFF {
        return Case::Play {
            script: s,
            room: usize::from(room),
        };
    }
    let a = u32::from_le_bytes(number(s, 2));
    let b = u32::from_le_bytes(number(s, 6));
    let length = usize::from_le_bytes(number(s, 10));
    let at = usize::from_le_bytes(number(s, 18));
    match u16::from_le_bytes(number(s, 0)) {
        0 => Case::Write {
            length,
            at,
            item: Item::Number(a),
        },
        10 => Case::Fits {
            length,
            at,
            count: usize::from_le_bytes(number(s, 2)),
        },
        kind => Case::Write {
            length,
            at,
            item: Item::Command(command::command_of(u32::from(kind), a, b)),
        },
    }
}

// The list's first case and the rest of the list, unless it is cut off.
fn split_case(list: &[u8]) -> Option<(Case<'_>, &[u8])> {
    let (room, rest) = list.split_first_chunk()?;
    let (length, rest) = rest.split_first_chunk()?;
    let (s, rest) = rest.split_at_checked(usize::from(u16::from_le_bytes(*length)))?;
    Some((case_of(u16::from_le_bytes(*room), s), rest))
}

// Does what a case asks for.
fn run(out: &impl Print, case: Case<'_>) {
    match case {
        Case::Play { script, room } => {
            with_room::<LOG, _>(room, |log| replay(out, script, log));
        }
        Case::Write { length, at, item } => {
            with_room::<BUFFER, _>(length, |buf| write(out, item, at, buf));
        }
        Case::Fits { length, at, count } => {
            put(
                out,
                if store::fits(length, at, count) {
                    "fits\n"
                } else {
                    "full\n"
                },
            );
        }
    }
}

// Runs the list's first case and gives the rest of the list.
fn run_first<'a>(out: &impl Print, list: &'a [u8]) -> &'a [u8] {
    let Some((case, rest)) = split_case(list) else {
        return &[];
    };
    run(out, case);
    rest
}

// Runs the whole list, at most 65,535 cases, and answers how many there were.
fn run_all(out: &impl Print, list: &[u8]) -> u32 {
    let mut rest = list;
    for done in 0..65535 {
        if rest.is_empty() {
            return done;
        }
        rest = run_first(out, rest);
    }
    65535
}

fn main(rt: HostRuntime) {
    let out = rt.stdout();
    let mut list = [0u8; 294912];
    // Where a read fails, the cases before are run, which whoever compares the output sees.
    let (length, _) = reading::read_full(&mut rt.stdin(), &mut list);
    let cases = run_all(&out, &list[..length]);
    let _ = println!(out; "{cases} cases");
}
