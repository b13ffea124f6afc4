// What the program `rate` reads and prints: its arguments as numbers, and the line that answers them (document 02, "Three").
#![tactic(auto)]

ghost use Rattle.std.specs.Prelude.{◌≡◌, ◌+◌, ◌≤◌, ◌++◌};
ghost use Rattle.arrayvec.specs.ArrayString.{array_string_len};
ghost use Rattle.rates.specs.Rates.{number as refusal_number, nearest_rate};
ghost use Rattle.rate_report.specs.Lines.{signed, setting_text, found_line, refused_line, rate_line};
ghost use Rattle.rate_report.specs.Printout.{number, text_of, printout};

use arrayvec::ArrayString;
use rates::{Rate, Refusal, Setting};

// Appends a number with its sign.
fn push_signed(line: &mut ArrayString<128>, n: i64)
    requires { array_string_len line.old + 21 ≤ 128 }
    ensures text { line.new.bytes ≡ line.old.bytes ++ signed n }
    ensures short { array_string_len line.new ≤ array_string_len line.old + 21 }
{
    if n < 0 {
        line.push_str("-");
    }
    text::push_number(line, n.unsigned_abs());
}

// The setting, up to its error.
#[tactic(auto, unfolding(crate::specs::Lines::setting_text))]
fn setting_line(setting: Setting) -> ArrayString<128>
    ensures text { result.bytes ≡ setting_text setting }
    ensures short { array_string_len result ≤ 85 }
{
    let mut line = ArrayString::new();
    line.push_str("select ");
    text::push_number(&mut line, u64::from(u8::from(setting.select)));
    line.push_str(" cell ");
    text::push_number(&mut line, setting.cell());
    line.push_str(" BRR ");
    text::push_number(&mut line, u64::from(setting.brr));
    line.push_str(" error ");
    line
}

// The line of a setting that is found.
fn found_line(found: Rate) -> ArrayString<128>
    ensures { result.bytes ≡ found_line found.setting found.error.numerator found.error.denominator }
{
    let mut line = setting_line(found.setting);
    push_signed(&mut line, found.error.numerator);
    line.push_str("/");
    text::push_number(&mut line, found.error.denominator);
    line.push_str("\n");
    line
}

// The line of a refusal.
fn refused_line(refusal: Refusal) -> ArrayString<128>
    ensures { result.bytes ≡ refused_line (refusal_number refusal) }
{
    let mut line = ArrayString::new();
    line.push_str("refused ");
    text::push_number(&mut line, u64::from(u8::from(refusal)));
    line.push_str("\n");
    line
}

// The line that answers three numbers: a clock in Hz, a rate in bits a second and a tolerance in parts per ten thousand.
pub fn rate_line(clock: u64, rate: u64, tolerance: u64) -> ArrayString<128>
    ensures { result.bytes ≡ rate_line (nearest_rate clock rate tolerance) }
{
    match rates::nearest_rate(clock, rate, tolerance) {
        Ok(found) => found_line(found),
        Err(refusal) => refused_line(refusal),
    }
}

// An argument as a number: decimal digits alone. One that 64 bits do not hold is read as the greatest that they do; both are above every range.
fn number(text: &[u8]) -> Option<u64>
    ensures { result ≡ number text.now }
{
    let mut value: u64 = 0;
    for byte in text {
        if !byte.is_ascii_digit() {
            return None;
        }
        value = value
            .saturating_mul(10)
            .saturating_add(u64::from(*byte - b'0'));
    }
    (!text.is_empty()).then_some(value)
}

// The line for three arguments, a clock in Hz, a rate in bits a second and a tolerance in parts per ten thousand; none where one is no number.
#[tactic(auto, unfolding(crate::specs::Printout::printout))]
pub fn printout(clock: &[u8], rate: &[u8], tolerance: &[u8]) -> Option<ArrayString<128>>
    ensures { text_of result ≡ printout clock.now rate.now tolerance.now }
{
    let clock = number(clock)?;
    let rate = number(rate)?;
    let tolerance = number(tolerance)?;
    Some(rate_line(clock, rate, tolerance))
}
