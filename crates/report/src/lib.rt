// The text that the program prints: a line for each record, the last line, and all of it for a script (document 01, "A script comes in").
// `write!` appends the same texts, but no clause says when it succeeds, and what is here never fails.
#![tactic(auto)]

ghost use Rattle.std.specs.Prelude.{◌≡◌, ◌+◌, ◌*◌, ◌≤◌, ◌<◌, ◌++◌, length};
ghost use Rattle.std.specs.List.{flat_map};
ghost use Rattle.arrayvec.specs.ArrayString.{array_string_len};
ghost use Rattle.player.specs.Play.{end_number, end_offset};
ghost use Rattle.report.specs.Lines.{bit, level, cause, end_line, refused_line};
ghost use Rattle.report.specs.Printout.{first_line, last_line, printout};

use arrayvec::ArrayString;
use player::{RECORD, Refused};
use sci::Sci;
use std::str;

// The longest script that the program takes.
const LONGEST: usize = 16384;

// `0` or `1`; `?` above 1.
fn bit(n: u8) -> char
    ensures value { result ≡ bit n }
    ensures ascii { result < 128 }
{
    char::from_digit(u32::from(n), 2).unwrap_or('?')
}

// A transmit level: 2 is not driven, `-`. It is a byte of a record, as the log has it.
fn level(n: u8) -> char
    ensures value { result ≡ level n }
    ensures ascii { result < 128 }
{
    if n == 2 { '-' } else { bit(n) }
}

// The number of a cause; `?` above 8.
fn cause(n: u8) -> char
    ensures value { result ≡ cause n }
    ensures ascii { result < 128 }
{
    char::from_digit(u32::from(n), 9).unwrap_or('?')
}

// The bytes of a record's line, with its newline, which are all ASCII. They are made as an array: a text that takes one character after another costs a line
// twice the time.
#[inline]
fn line_bytes(bytes: [u8; RECORD]) -> [u8; 14]
    ensures { result ≡ first_line bytes }
{
    let [kind, answer, ssr, driven, interrupt, why] = bytes;
    [
        text::hex_digit(kind) as u8,
        b' ',
        text::hex_digit(answer / 16) as u8,
        text::hex_digit(answer % 16) as u8,
        b' ',
        text::hex_digit(ssr / 16) as u8,
        text::hex_digit(ssr % 16) as u8,
        b' ',
        level(driven) as u8,
        b' ',
        bit(interrupt) as u8,
        b' ',
        cause(why) as u8,
        b'\n',
    ]
}

// The line of a record, with its newline.
#[inline]
pub fn record_line(bytes: [u8; RECORD]) -> ArrayString<14>
    ensures { result.bytes ≡ first_line bytes }
{
    let text = line_bytes(bytes);
    let mut line = ArrayString::new();
    line.push_str(unsafe { str::from_utf8_unchecked(&text) });
    line
}

// The last line of a script that was accepted.
pub fn end_line(length: u64) -> ArrayString<64>
    ensures { result.bytes ≡ end_line length }
{
    let mut line = ArrayString::new();
    line.push_str("end ");
    text::push_number(&mut line, length);
    line.push_str("\n");
    line
}

// The last line of a script that was refused. It prints any number: `replay` prints with it what C is told.
pub fn refused_line(number: u8, offset: usize) -> ArrayString<64>
    ensures { result.bytes ≡ refused_line number offset }
{
    let mut line = ArrayString::new();
    line.push_str("refused ");
    text::push_number(&mut line, u64::from(number));
    line.push_str(" at ");
    text::push_number(&mut line, offset as u64);
    line.push_str("\n");
    line
}

// Appends the lines of records. The clause asks for room as the library's `push` does.
fn push_records(out: &mut ArrayString<95628>, records: &[[u8; RECORD]])
    requires { array_string_len out.old + 14 * length records.now ≤ 95628 }
    ensures { out.new.bytes ≡ out.old.bytes ++ flat_map first_line records.now }
{
    for bytes in records {
        out.push_str(&record_line(*bytes));
    }
}

// The last line of a run.
#[tactic(auto, using(crate::proofs::Printouts::refusal_last))]
fn last_line(end: Result<(), Refused>, length: u64) -> ArrayString<64>
    ensures { result.bytes ≡ last_line (end_number end) (end_offset end) length }
{
    match end {
        Ok(()) => end_line(length),
        Err(refused) => refused_line(u8::from(refused.reason), refused.offset),
    }
}

// Plays a script on a fresh port with a log of 40,960 bytes, and leaves all that is printed of it, and nothing else. The text is lent: to hand it out would
// take twice the stack.
pub fn printout(script: &[u8], out: &mut ArrayString<95628>)
    ensures { out.new.bytes ≡ printout script.now }
{
    out.clear();
    if LONGEST < script.len() {
        out.push_str("too long\n");
        return;
    }
    let mut log = [0u8; 40960];
    let played = player::play(Sci::default(), script, &mut log);
    let (records, _) = log[..played.used].as_chunks();
    push_records(out, records);
    out.push_str(&last_line(played.end, played.length));
}
