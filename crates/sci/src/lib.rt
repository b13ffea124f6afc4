// The port with its bit rate clock: what the cycles of the system and the watch clock make of it (document 02, "Two"). The counter is baud.rs'; the two
// clocks are here the counts of their cycles, which a script moves.
#![tactic(auto)]

ghost use Rattle.std.specs.Prelude.{◌≡◌, ℕ, ◌+◌, ◌<◌, ◌≤◌, true, IfOk};
ghost use Rattle.command.specs.Command.{in_range};
ghost use Rattle.sci.specs.Cycle.{chosen, divider, total, advanced};
ghost use Rattle.sci.specs.Quick.{halves_passed, left_passed};
ghost use Rattle.sci.specs.Private.Steps.{halves_by, left_by};
ghost use Rattle.sci.specs.Calls.{fresh, baud_valid, valid, remaining_after, direct, number, answer};
ghost use Rattle.sci.specs.Cause.{call_cause};

use command::{Call, Command, Source};
use counter::Counter;
use port::{Outcome, Port};
use shift::Cause;

mod counter;
mod tested;

pub use tested::Tested;

// Number 10's limit on the cycles of a clock.
const MOST: u64 = 281_474_976_710_656;

#[derive(Clone, Copy, Debug, PartialEq, Eq)]
pub struct Baud {
    // Ticks to the next half.
    pub remaining: u16,
    // Cycles of each clock so far.
    pub system: u64,
    pub watch: u64,
}

#[derive(Clone, Copy)]
pub struct Sci {
    pub port: Port,
    pub baud: Baud,
}

// Why a call is refused.
#[derive(Clone, Copy, Debug, PartialEq, Eq)]
pub enum Refusal {
    // As a call of the port is; a state that fails its own field test too.
    OfPort(port::Refusal),
    // A clock's cycles would pass their limit.
    Total,
}

// What an accepted direct call hands back: the value read, else 0, the cause of the last word that it completed, and the state after it. A refused one
// leaves the state as it was.
#[derive(Clone, Copy)]
pub struct Called {
    pub value: u8,
    pub cause: Cause,
    pub sci: Sci,
}

// ---- the clocks
// Whether SMR chooses this clock.
fn chosen(source: Source, smr: u8) -> bool
    ensures { result ≡ chosen source smr }
{
    match source {
        Source::System => smr & 3 != 1,
        Source::Watch => smr & 3 == 1,
    }
}

// So many of its cycles are a tick.
fn divider(smr: u8) -> u64
    ensures value { result ≡ divider smr }
    ensures positive { 0 < result }
{
    match smr & 3 {
        2 => 16,
        3 => 64,
        _ => 1,
    }
}

impl Baud {
    #[tactic(auto, unfolding(crate::specs::Calls::baud_valid))]
    fn valid(self) -> bool
        ensures { result ≡ baud_valid self }
    {
        (self.remaining >= 1)
            & ((self.remaining <= 256) & ((self.system <= MOST) & (self.watch <= MOST)))
    }

    fn total(self, source: Source) -> u64
        ensures { result ≡ total source self }
    {
        match source {
            Source::System => self.system,
            Source::Watch => self.watch,
        }
    }

    // n cycles more of a clock.
    fn advanced(self, source: Source, n: u16) -> Self
        requires { total source self ≤ 281474976710656 }
        ensures { result ≡ advanced source n self }
    {
        let n = u64::from(n);
        match source {
            Source::System => Self {
                system: self.system + n,
                ..self
            },
            Source::Watch => Self {
                watch: self.watch + n,
                ..self
            },
        }
    }
}

impl Default for Sci {
    ghost is_default = { λ sci. sci ≡ fresh };

    #[tactic(auto, unfolding(crate::specs::Calls::fresh))]
    fn default() -> Self {
        Self {
            port: Port::default(),
            baud: Baud {
                remaining: 256,
                system: 0,
                watch: 0,
            },
        }
    }
}

impl Sci {
    // The field test of number 8.
    pub fn valid(self) -> bool
        ensures { result ≡ valid self }
    {
        let port = self.port.valid();
        let baud = self.baud.valid();
        port & baud
    }

    // The counter as the cycles of a clock drive it.
    #[tactic(auto, using(crate::proofs::Steps::remaining_some, crate::proofs::Steps::remaining_few, crate::proofs::Steps::total_within), unfolding(crate::specs::Private::Steps::halves_by, crate::specs::Private::Steps::left_by, crate::specs::Quick::halves_passed, crate::specs::Quick::left_passed))]
    fn counter(self, source: Source) -> Counter
        requires { valid self ≡ true }
        ensures halves { (n : ℕ) → halves_by result n ≡ halves_passed source n self.port self.baud }
        ensures left { (n : ℕ) → left_by result n ≡ left_passed source n self.port self.baud }
    {
        let internal = self.port.internal();
        let chosen = chosen(source, self.port.smr);
        Counter {
            runs: internal & chosen,
            divider: divider(self.port.smr),
            total: self.baud.total(source),
            remaining: self.baud.remaining,
            reload: u16::from(self.port.brr) + 1,
        }
    }
}

// The ticks to the next half after a call of the port that leaves so many: BRR written with TE and RE off restarts the count, each half of a wait leaves a
// full count, and so does a reset. Port and ticks come side by side: a copy of the whole state would wait for the ticks that were just stored.
#[inline(always)]
fn remaining_after(port: Port, remaining: u16, call: Call) -> u16
    requires { (0 < remaining) × (remaining ≤ 256) × (in_range (Command.OnPort call) ≡ true) }
    ensures value { result ≡ remaining_after call port remaining }
    ensures within { (0 < result) × (result ≤ 256) }
{
    match call {
        Call::Write {
            address: 0xff99,
            value,
        } if port.takes_writes() && port.scr & 0x30 == 0 => value as u16 + 1,
        Call::Wait { halves } if port.internal() && halves != 0 => u16::from(port.brr) + 1,
        Call::Power { bits } if port.resets(bits) => 256,
        _ => remaining,
    }
}

// ---- direct calls
impl From<Refusal> for u8 {
    ghost from_gives = { λ refusal n. n ≡ number refusal };

    fn from(refusal: Refusal) -> u8 {
        match refusal {
            Refusal::OfPort(refusal) => u8::from(refusal),
            Refusal::Total => 10,
        }
    }
}

impl Sci {
    // The direct call of a command, for any state.
    #[tactic(auto, unfolding(crate::specs::Calls::direct))]
    pub fn direct(self, command: Command) -> Result<Called, Refusal>
        ensures answer { answer self result ≡ direct command self }
        ensures cause { IfOk result (λ called. called.cause ≡ call_cause command self) }
    {
        let mut tested = Tested::try_from(self)?;
        let Outcome { value, cause } = tested.call(command)?;
        Ok(Called {
            value,
            cause,
            sci: tested.sci,
        })
    }
}
