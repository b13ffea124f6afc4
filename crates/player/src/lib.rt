// Plays a script on a port with its clock and leaves a record of each command in a lent log (document 01, "A script comes in").
#![tactic(auto)]

ghost use Rattle.std.specs.Prelude.{◌≡◌, ◌++◌, ◌-◌, ◌≤◌, length, drop, OnErr};
ghost use Rattle.player.specs.declared.Reason.TheVariants.{Unread, Call};
ghost use Rattle.player.specs.Play.{record_length, record_of, longer, play, reason_number, end_number, end_offset, ran};
ghost use Rattle.player.specs.Private.Step.{progress, stepped, port_step, play_on};

use command::Command;
use pins::Pins;
use port::{Outcome, Port};
use sci::{Refusal, Sci, Tested};
use script::{Fault, Found};

// How many bytes of the log a record takes.
pub const RECORD: usize = 6;

// The record of a command: the value and the cause that it answered, and the port after it.
pub fn record_of(command: Command, outcome: Outcome, port: Port) -> [u8; RECORD]
    ensures { result ≡ record_of command outcome.value outcome.cause port }
{
    let pins = Pins::from(port);
    let level = pins::level_number(pins.transmit);
    let interrupt = u8::from(pins::interrupt(port));
    let cause = u8::from(outcome.cause);
    [
        u8::from(command.kind()),
        outcome.value,
        port.ssr,
        level,
        interrupt,
        cause,
    ]
}

// Writes a record at the front of the log; the bytes after it stay.
fn write_record(log: &mut [u8], command: Command, outcome: Outcome, port: Port)
    requires { record_length ≤ length log.old }
    ensures { log.new ≡ record_of command outcome.value outcome.cause port ++ drop record_length log.old }
{
    log[..RECORD].copy_from_slice(&record_of(command, outcome, port));
}

// Why a command is not played.
#[derive(Clone, Copy, Debug, PartialEq, Eq)]
pub enum Reason {
    // It cannot be read.
    Unread(Fault),
    // Its call is refused.
    Call(Refusal),
    // Fewer bytes of the log are left than a record takes.
    Full,
}

impl From<Fault> for Reason {
    ghost from_gives = { λ fault reason. reason ≡ Unread fault };

    fn from(fault: Fault) -> Reason {
        Reason::Unread(fault)
    }
}

impl From<Refusal> for Reason {
    ghost from_gives = { λ refusal reason. reason ≡ Call refusal };

    fn from(refusal: Refusal) -> Reason {
        Reason::Call(refusal)
    }
}

// Document 01's number.
impl From<Reason> for u8 {
    ghost from_gives = { λ reason n. n ≡ reason_number reason };

    fn from(reason: Reason) -> u8 {
        match reason {
            Reason::Unread(fault) => u8::from(fault),
            Reason::Call(refusal) => u8::from(refusal),
            Reason::Full => 9,
        }
    }
}

// A run so far: the state, and how many edges its commands counted, in 64 bits that wrap to 0.
#[derive(Clone, Copy)]
struct Progress {
    tested: Tested,
    length: u64,
}

// The length with the edges of one more command, by the half count before and after it: only a reset lowers that, and it counts none.
fn longer(length: u64, before: u32, after: u32) -> u64
    ensures { result ≡ longer length (after - before) }
{
    length.wrapping_add(u64::from(after.saturating_sub(before)))
}

// Plays the command at an offset of the script, and hands back the offset of the next. The log is its unwritten rest. A command that is not played leaves
// the run as it was.
#[tactic(auto, using(crate::proofs::Laws::step_full, crate::proofs::Laws::step_fault))]
fn step(run: &mut Progress, script: &[u8], at: usize, log: &mut [u8]) -> Result<usize, Reason>
    ensures turn { stepped result (progress run.new) log.new ≡ port_step (progress run.old) script.now at log.old }
    ensures kept { OnErr result (progress run.new ≡ progress run.old) }
{
    if log.len() < RECORD {
        return Err(Reason::Full);
    }
    let Found {
        value: command,
        next,
    } = script::read_command(script, at)?;
    let before = run.tested.sci.port.half;
    let outcome = run.tested.call(command)?;
    write_record(log, command, outcome, run.tested.sci.port);
    run.length = longer(run.length, before, run.tested.sci.port.half);
    Ok(next)
}

// The command whose first byte stands at this offset was not played; by the field test, at offset 0, none was.
#[derive(Clone, Copy, Debug, PartialEq, Eq)]
pub struct Refused {
    pub reason: Reason,
    pub offset: usize,
}

// What playing hands back: the last state (at a refusal, as before the refused command), the edges counted over the whole script, whether it was accepted, and
// how many bytes of the log are written. The log is lent by C, which is told that number. It is only copied: another derive would read the port's 28 fields,
// and nothing compares or prints one.
#[derive(Clone, Copy)]
pub struct Played {
    pub sci: Sci,
    pub length: u64,
    pub end: Result<(), Refused>,
    pub used: usize,
}

// Document 01's number of a run's end; 0 where the script was accepted: both are what C is told.
pub fn end_number(end: Result<(), Refused>) -> u8
    ensures { result ≡ end_number end }
{
    match end {
        Ok(()) => 0,
        Err(refused) => u8::from(refused.reason),
    }
}

// The offset of the refused command's first byte, else 0.
pub fn end_offset(end: Result<(), Refused>) -> usize
    ensures { result ≡ end_offset end }
{
    match end {
        Ok(()) => 0,
        Err(refused) => refused.offset,
    }
}

// Plays the script from its first byte.
#[tactic(auto, using(crate::proofs::Laws::port_stands, crate::proofs::Laws::port_finishes))]
fn play_on(tested: Tested, script: &[u8], log: &mut [u8]) -> Played
    ensures { ran result log.new ≡ play_on tested.sci script.now log.old }
{
    // In two pieces, here and below: a copy of the whole state would be a call of C's memcpy, and the archive for C needs no library.
    let mut run = Progress {
        tested: Tested {
            sci: Sci::default(),
        },
        length: 0,
    };
    run.tested.sci.port = tested.sci.port;
    run.tested.sci.baud = tested.sci.baud;
    let mut at: usize = 0;
    let mut used: usize = 0;
    // No `for`: how far a turn moves on only the command that it reads tells.
    while at < script.len() {
        match step(&mut run, script, at, &mut log[used..]) {
            Err(reason) => {
                return Played {
                    sci: Sci { ..run.tested.sci },
                    length: run.length,
                    end: Err(Refused { reason, offset: at }),
                    used,
                };
            }
            Ok(next) => {
                at = next;
                used += RECORD;
            }
        }
    }
    Played {
        sci: Sci { ..run.tested.sci },
        length: run.length,
        end: Ok(()),
        used,
    }
}

// Plays a script: one record in the log for each command played.
#[tactic(auto, using(crate::proofs::Laws::play_tested, crate::proofs::Laws::play_refused))]
pub fn play(sci: Sci, script: &[u8], log: &mut [u8]) -> Played
    ensures { ran result log.new ≡ play sci script.now log.old }
{
    // Not by `Tested::try_from`: its `Result` takes the port's first bytes apart, at fourteen instructions more for each command.
    if sci.valid() {
        return play_on(Tested { sci }, script, log);
    }
    Played {
        sci: Sci { ..sci },
        length: 0,
        end: Err(Refused {
            reason: Reason::Call(Refusal::OfPort(port::Refusal::State)),
            offset: 0,
        }),
        used: 0,
    }
}
