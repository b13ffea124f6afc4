// A state that has passed the field test, and the calls that ask this of it. They stand apart from the state, whose definitions their clauses cite.
#![tactic(auto)]

ghost use Rattle.std.specs.Prelude.{◌≡◌, true};
ghost use Rattle.sci.specs.Calls.{valid, remaining_after};
ghost use Rattle.sci.specs.declared.Refusal.TheVariants.{OfPort};

use super::{MOST, Refusal, Sci, remaining_after};
use command::{Call, Command, Source};
use port::Outcome;

// Whoever makes many calls on one state tests it once: every accepted call keeps the test.
#[derive(Clone, Copy)]
pub struct Tested {
    pub sci: Sci,
    pub ghost passed: { valid sci ≡ true },
}

impl From<port::Refusal> for Refusal {
    ghost from_gives = { λ refusal result. result ≡ OfPort refusal };

    fn from(refusal: port::Refusal) -> Refusal {
        Refusal::OfPort(refusal)
    }
}

impl TryFrom<Sci> for Tested {
    type Error = Refusal;

    ghost use Rattle.std.specs.Prelude.{false, MatchResult};
    ghost use Rattle.port.specs.declared.Refusal.TheVariants.{State};

    ghost try_from_gives = { λ sci result. MatchResult result (λ tested. tested.sci ≡ sci) (λ refusal. (valid sci ≡ false) × (refusal ≡ OfPort State)) };

    #[inline(always)]
    fn try_from(sci: Sci) -> Result<Self, Refusal> {
        if !sci.valid() {
            return Err(Refusal::OfPort(port::Refusal::State));
        }
        Ok(Self { sci })
    }
}

// Each call changes the state in its place: a copy of it for every command of a script would cost a read half as much again.
impl Tested {
    ghost use Rattle.std.specs.Prelude.{OnErr, IfOk};
    ghost use Rattle.sci.specs.Calls.{called, answered};
    ghost use Rattle.sci.specs.Cause.{call_cause};

    // Kinds 2, 3 and 6, which may change the ticks that remain.
    #[inline(always)]
    #[tactic(auto, using(crate::proofs::Steps::port_passes, crate::proofs::Steps::remaining_some, crate::proofs::Steps::remaining_few, crate::proofs::Steps::accepted_in_range, crate::proofs::Kept::on_port_kept), unfolding(crate::specs::Calls::called, crate::specs::Cause::call_cause))]
    fn counted(&mut self, call: Call) -> Result<Outcome, Refusal>
        ensures value { answered result self.new.sci ≡ called (Command.OnPort call) self.old.sci }
        ensures cause { IfOk result (λ outcome. outcome.cause ≡ call_cause (Command.OnPort call) self.old.sci) }
        ensures kept { OnErr result (self.new.sci ≡ self.old.sci) }
    {
        let before = self.sci.port;
        let outcome = self.sci.port.call(call)?;
        self.sci.baud.remaining = remaining_after(before, self.sci.baud.remaining, call);
        Ok(outcome)
    }

    // Kinds 1, 4, 5 and 7, which leave them: a read in a script does not pay for what the others need.
    #[inline(always)]
    #[tactic(auto, using(crate::proofs::Steps::port_passes, crate::proofs::Kept::plain_kept), unfolding(crate::specs::Calls::called, crate::specs::Cause::call_cause))]
    fn plain(&mut self, call: Call) -> Result<Outcome, Refusal>
        requires { remaining_after call self.old.sci.port self.old.sci.baud.remaining ≡ self.old.sci.baud.remaining }
        ensures value { answered result self.new.sci ≡ called (Command.OnPort call) self.old.sci }
        ensures cause { IfOk result (λ outcome. outcome.cause ≡ call_cause (Command.OnPort call) self.old.sci) }
        ensures kept { OnErr result (self.new.sci ≡ self.old.sci) }
    {
        let outcome = self.sci.port.call(call)?;
        Ok(outcome)
    }

    // n cycles of a clock pass: the port waits for the halves that they count.
    #[inline(never)]
    #[tactic(auto, using(crate::proofs::Steps::port_passes, crate::proofs::Steps::total_within, crate::proofs::Wait::called_waits, crate::proofs::Wait::waits_cause, crate::proofs::Kept::cycles_kept), unfolding(crate::specs::Cause::call_cause))]
    fn cycles(&mut self, source: Source, n: u32) -> Result<Outcome, Refusal>
        ensures value { answered result self.new.sci ≡ called (Command.Cycles source n) self.old.sci }
        ensures cause { IfOk result (λ outcome. outcome.cause ≡ call_cause (Command.Cycles source n) self.old.sci) }
        ensures kept { OnErr result (self.new.sci ≡ self.old.sci) }
    {
        let Ok(cycles) = u16::try_from(n) else {
            return Err(Refusal::OfPort(port::Refusal::Operand));
        };
        if self.sci.baud.total(source) + u64::from(cycles) > MOST {
            return Err(Refusal::Total);
        }
        let passed = self.sci.counter(source).passed(cycles);
        let Outcome { cause, .. } = self.sci.port.call(Call::Wait {
            halves: u32::from(passed.halves),
        })?;
        self.sci.port.edge &= passed.at_edge;
        self.sci.baud = self.sci.baud.advanced(source, cycles);
        self.sci.baud.remaining = passed.remaining;
        Ok(Outcome { value: 0, cause })
    }

    // The call of a command; a refused one leaves the state as it was. Inlined for the same reason.
    #[inline(always)]
    pub fn call(&mut self, command: Command) -> Result<Outcome, Refusal>
        ensures value { answered result self.new.sci ≡ called command self.old.sci }
        ensures cause { IfOk result (λ outcome. outcome.cause ≡ call_cause command self.old.sci) }
        ensures kept { OnErr result (self.new.sci ≡ self.old.sci) }
    {
        match command {
            Command::OnPort { call } => match call {
                Call::Read { .. } => self.plain(call),
                Call::Line { .. } => self.plain(call),
                Call::Pins { .. } => self.plain(call),
                Call::Inside => self.plain(call),
                _ => self.counted(call),
            },
            Command::Cycles { source, cycles } => self.cycles(source, cycles),
        }
    }
}
