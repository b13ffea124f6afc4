// Text of a fixed greatest length: numbers in decimal, hexadecimal digits. Every program's text is made of these.
// What is appended is `push_str` of `ArrayString`, which asks for room; a caller knows the greatest length of its texts. Each function needs another
// amount, so its clause asks for room as `push` does.
#![tactic(auto)]

ghost use Rattle.std.specs.Prelude.{◌≡◌, ◌+◌, ◌≤◌, ◌<◌, ◌++◌};
ghost use Rattle.arrayvec.specs.ArrayString.{array_string_len};
ghost use Rattle.text.specs.Decimal.{decimal};
ghost use Rattle.text.specs.Text.{hex_digit};

use arrayvec::ArrayString;

// A hexadecimal digit; `?` above 15. That it takes one byte is a clause here and in report: a type of such characters would be taken apart at each push.
pub fn hex_digit(n: u8) -> char
    ensures value { result ≡ hex_digit n }
    ensures ascii { result < 128 }
{
    match char::from_digit(u32::from(n), 16) {
        Some(digit) => digit.to_ascii_uppercase(),
        None => '?',
    }
}

// Appends a number in decimal: at most 20 digits. (`write!` appends it too, but no clause says when that succeeds, and this always does.)
#[tactic(auto, using(crate::proofs::Laws::written))]
pub fn push_number<const N: usize>(out: &mut ArrayString<N>, v: u64)
    requires { array_string_len out.old + 20 ≤ N }
    ensures number { out.new.bytes ≡ out.old.bytes ++ decimal v }
    ensures short { array_string_len out.new ≤ array_string_len out.old + 20 }
{
    let mut digits = itoa::Buffer::new();
    out.push_str(digits.format(v));
}
