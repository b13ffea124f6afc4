// A script's numbers and commands, read from its bytes and written into a lent buffer (document 01, "A script comes in").
#![tactic(auto)]

ghost use Rattle.std.specs.Prelude.{◌≡◌, ◌+◌, ◌*◌, ◌^◌, ◌≤◌, ◌<◌, ◌++◌, length, drop, sum_by};
ghost use Rattle.store.specs.Store.{Stored};
ghost use Rattle.script.specs.declared.Fault.TheVariants.{Kind};
ghost use Rattle.script.specs.Number.{fault_number, breaks, number_at};
ghost use Rattle.script.specs.Encode.{encode_in, encode};
ghost use Rattle.command.specs.Command.{operands_of};
ghost use Rattle.script.specs.Command.{operand_at, with_operands, command_at};
ghost use Rattle.script.specs.Write.{encode_all, bytes, as_put, put};

use command::{Call, Command, Kind, Operands, UnknownKind};

// Why a command cannot be read, by document 01's number.
#[derive(Clone, Copy, Debug, PartialEq, Eq)]
pub enum Fault {
    // An operand is above its range.
    Operand = 2,
    // The script ends inside the command.
    Short = 5,
    // A number is not in the shortest form, or too large.
    Number = 6,
    // The kind is not in the table.
    Kind = 7,
}

impl From<Fault> for u8 {
    ghost from_gives = { λ fault n. n ≡ fault_number fault };

    fn from(fault: Fault) -> u8 {
        fault as u8
    }
}

impl From<UnknownKind> for Fault {
    ghost from_gives = { λ _ fault. fault ≡ Kind };

    fn from(_: UnknownKind) -> Fault {
        Fault::Kind
    }
}

// What stands at an offset of the script, and the offset after its last byte. Script and offset go in side by side: a refusal is told with the offset at
// which its command begins, which a reader that moves on would have to keep beside its own.
#[derive(Clone, Copy, Debug, PartialEq, Eq)]
pub struct Found<T> {
    pub value: T,
    pub next: usize,
}

// Whether a byte breaks a number's rules, where `more` bytes may follow it: a zero byte after the first, or a fifth byte above 15.
fn breaks(more: u32, b: u32) -> bool
    ensures { result ≡ breaks more b }
{
    (more < 4) & (b == 0) | (more == 0) & (15 < b)
}

// The number at an offset of the script; `more` bytes may follow the byte at `i`. The index is kept, since the offset after the last byte is an answer.
#[tactic(auto, using(crate::proofs::Laws::last_fits))]
pub fn read_number(s: &[u8], at: usize) -> Result<Found<u32>, Fault>
    ensures { result ≡ number_at s.now at }
{
    let mut value: u32 = 0;
    let mut scale: u32 = 1;
    let mut more: u32 = 4;
    for i in at..s.len() {
        let b = u32::from(s[i]);
        if breaks(more, b) {
            return Err(Fault::Number);
        }
        if b < 128 {
            return Ok(Found {
                value: value + scale * b,
                next: i + 1,
            });
        }
        value += scale * (b - 128);
        scale *= 128;
        more -= 1;
    }
    Err(Fault::Short)
}

// An operand: a number of at most `max`.
pub fn read_operand(s: &[u8], at: usize, max: u32) -> Result<Found<u32>, Fault>
    ensures { result ≡ operand_at max s.now at }
{
    let found = read_number(s, at)?;
    if found.value <= max {
        Ok(found)
    } else {
        Err(Fault::Operand)
    }
}

// The command of a kind's number, whose operands stand at an offset of the script. It takes any number, as its callers had it.
pub fn read_operands(s: &[u8], number: u32, at: usize) -> Result<Found<Command>, Fault>
    ensures { result ≡ with_operands s.now number at (operands_of number) }
{
    let kind = Kind::try_from(number)?;
    match kind.operands() {
        Operands::None => Ok(Found {
            value: kind.command(0, 0),
            next: at,
        }),
        Operands::One(a_max) => {
            let a = read_operand(s, at, a_max)?;
            Ok(Found {
                value: kind.command(a.value, 0),
                next: a.next,
            })
        }
        Operands::Two(a_max, b_max) => {
            let a = read_operand(s, at, a_max)?;
            let b = read_operand(s, a.next, b_max)?;
            Ok(Found {
                value: kind.command(a.value, b.value),
                next: b.next,
            })
        }
    }
}

// The command at an offset of the script.
pub fn read_command(s: &[u8], at: usize) -> Result<Found<Command>, Fault>
    ensures { result ≡ command_at s.now at }
{
    let number = read_number(s, at)?;
    read_operands(s, number.value, number.next)
}

// The bytes do not fit into the buffer.
#[derive(Clone, Copy, Debug, PartialEq, Eq)]
pub struct Full;

// How many bytes a number takes.
fn size(v: u32) -> usize
    ensures value { result ≡ length (encode v) }
    ensures small { result ≤ 5 }
{
    match v {
        0..128 => 1,
        128..16384 => 2,
        16384..2097152 => 3,
        2097152..268435456 => 4,
        _ => 5,
    }
}

// Writes a number at the front of the buffer, in at most `more` bytes after the first, and gives how many: the buffer is lent, and longer.
fn put_groups(buf: &mut [u8], v: u32, more: u32) -> usize
    requires { (v < 16 * 128 ^ more) × (length (encode_in more v) ≤ length buf.old) }
    ensures { (result ≡ length (encode_in more v)) × (buf.new ≡ encode_in more v ++ drop (length (encode_in more v)) buf.old) }
{
    if v < 128 {
        buf[0] = v as u8;
        return 1;
    }
    buf[0] = (v % 128 + 128) as u8;
    1 + put_groups(&mut buf[1..], v / 128, more - 1)
}

// Writes a number that fits, and gives the offset after it.
fn put_number(buf: &mut [u8], at: usize, v: u32) -> usize
    requires { at + length (encode v) ≤ length buf.old }
    ensures { Stored at (encode v) buf.old result buf.new }
{
    at + put_groups(&mut buf[at..], v, 4)
}

// How many bytes the numbers of one command take.
fn size_of_all(numbers: &[u32]) -> usize
    requires { length numbers.now ≤ 3 }
    ensures { result ≡ sum_by (λ v. length (encode v)) numbers.now }
{
    numbers.iter().map(|v| size(*v)).sum()
}

// Writes the numbers of one command at an offset of the buffer, or none of them, and gives the offset after them.
fn write_numbers(buf: &mut [u8], at: usize, numbers: &[u32]) -> Result<usize, Full>
    requires { length numbers.now ≤ 3 }
    ensures { as_put result buf.new ≡ put (encode_all numbers.now) at buf.old }
{
    if store::fits(buf.len(), at, size_of_all(numbers)) {
        let mut end = at;
        for v in numbers {
            end = put_number(buf, end, *v);
        }
        return Ok(end);
    }
    Err(Full)
}

// Writes a number at an offset of the buffer. The offset is beside the buffer and not in a writer: each write may be at any offset, past the end too.
pub fn write_number(buf: &mut [u8], at: usize, v: u32) -> Result<usize, Full>
    ensures { as_put result buf.new ≡ put (encode v) at buf.old }
{
    write_numbers(buf, at, &[v])
}

// Writes a command at an offset of the buffer. An operand above its range is written as it is; reading refuses it.
pub fn write_command(buf: &mut [u8], at: usize, c: Command) -> Result<usize, Full>
    ensures { as_put result buf.new ≡ put (bytes c) at buf.old }
{
    let kind = u32::from(u8::from(c.kind()));
    let call = match c {
        Command::OnPort { call } => call,
        Command::Cycles { cycles, .. } => return write_numbers(buf, at, &[kind, cycles]),
    };
    match call {
        Call::Read { address } => write_numbers(buf, at, &[kind, address]),
        Call::Write { address, value } => write_numbers(buf, at, &[kind, address, value]),
        Call::Wait { halves } => write_numbers(buf, at, &[kind, halves]),
        Call::Line { line } => write_numbers(buf, at, &[kind, line]),
        Call::Pins { clock, line } => write_numbers(buf, at, &[kind, clock, line]),
        Call::Power { bits } => write_numbers(buf, at, &[kind, bits]),
        Call::Inside => write_numbers(buf, at, &[kind]),
    }
}
