// The calls of kinds 1 to 7 on a port in its place. They stand apart from the port's own steps, which know no command.
#![tactic(auto)]

ghost use Rattle.std.specs.Prelude.{◌≡◌, true, OnErr, IfOk};
ghost use Rattle.port.specs.Valid.{valid};
ghost use Rattle.shift.specs.declared.cause.Cause.TheVariants.{NoWord};
ghost use Rattle.port.specs.Calls.{called, answered};
ghost use Rattle.port.specs.Cause.{call_cause};

use super::register::Register;
use super::{LIMIT, Outcome, Port, Refusal};
use command::Call;
use shift::Cause;

impl Outcome {
    // No word is completed.
    fn of_value(value: u8) -> Self
        ensures value { result.value ≡ value }
        ensures cause { result.cause ≡ NoWord }
    {
        Self {
            value,
            cause: Cause::NoWord,
        }
    }

    // Nothing is read.
    fn of_cause(cause: Cause) -> Self
        ensures value { result.value ≡ 0 }
        ensures cause { result.cause ≡ cause }
    {
        Self { value: 0, cause }
    }
}

// Each asks that the port has passed its field test, and keeps it. The calls have the names of sci.rs.
impl Port {
    #[tactic(auto, unfolding(crate::specs::Calls::called, crate::specs::Cause::call_cause))]
    fn read(&mut self, a: u32) -> Result<Outcome, Refusal>
        ensures value { answered result self.new ≡ called (Call.Read a) self.old }
        ensures cause { IfOk result (λ outcome. outcome.cause ≡ call_cause (Call.Read a) self.old) }
        ensures kept { OnErr result (self.new ≡ self.old) }
    {
        if a > 65535 {
            return Err(Refusal::Operand);
        }
        let register = Register::try_from(a)?;
        let value = self.peek(register);
        self.after_read(register);
        Ok(Outcome::of_value(value))
    }

    // Address and value are the command's two numbers; the address is a register's at once, so they have no struct.
    #[tactic(auto, using(crate::proofs::Checked::valid_ready), unfolding(crate::specs::Calls::called, crate::specs::Cause::call_cause))]
    fn write(&mut self, a: u32, v: u32) -> Result<Outcome, Refusal>
        requires { valid self.old ≡ true }
        ensures value { answered result self.new ≡ called (Call.Write a v) self.old }
        ensures cause { IfOk result (λ outcome. outcome.cause ≡ call_cause (Call.Write a v) self.old) }
        ensures kept { OnErr result (self.new ≡ self.old) }
    {
        if (a > 65535) | (v > 255) {
            return Err(Refusal::Operand);
        }
        let register = Register::try_from(a)?;
        if matches!(register, Register::Ircr) & (v >= 128) {
            return Err(Refusal::Infrared);
        }
        self.written(register, v as u8);
        Ok(Outcome::of_value(0))
    }

    #[tactic(auto, using(crate::proofs::Checked::valid_ready, crate::proofs::CallLaws::not_external, crate::proofs::CallLaws::sum_fits), unfolding(crate::specs::Calls::called, crate::specs::Cause::call_cause))]
    fn wait(&mut self, n: u32) -> Result<Outcome, Refusal>
        requires { valid self.old ≡ true }
        ensures value { answered result self.new ≡ called (Call.Wait n) self.old }
        ensures cause { IfOk result (λ outcome. outcome.cause ≡ call_cause (Call.Wait n) self.old) }
        ensures kept { OnErr result (self.new ≡ self.old) }
    {
        if n > 65535 {
            return Err(Refusal::Operand);
        }
        let external = self.external();
        if !self.running() | external {
            self.uncounted(n);
            return Ok(Outcome::of_value(0));
        }
        if self.half + n > LIMIT {
            return Err(Refusal::Count);
        }
        Ok(Outcome::of_cause(self.halves(n)))
    }

    #[tactic(auto, using(crate::proofs::CallLaws::valid_half), unfolding(crate::specs::Calls::called, crate::specs::Cause::call_cause))]
    fn set_line(&mut self, line: u32) -> Result<Outcome, Refusal>
        requires { valid self.old ≡ true }
        ensures value { answered result self.new ≡ called (Call.Line line) self.old }
        ensures cause { IfOk result (λ outcome. outcome.cause ≡ call_cause (Call.Line line) self.old) }
        ensures kept { OnErr result (self.new ≡ self.old) }
    {
        if line > 1 {
            return Err(Refusal::Operand);
        }
        self.receive_input(line != 0);
        Ok(Outcome::of_value(0))
    }

    #[tactic(auto, using(crate::proofs::Checked::valid_ready, crate::proofs::CallLaws::edge_room), unfolding(crate::specs::Calls::called, crate::specs::Input::input_pins, crate::specs::Cause::call_cause, crate::specs::Cause::pins_cause))]
    fn input_pins(&mut self, clock: u32, line: u32) -> Result<Outcome, Refusal>
        requires { valid self.old ≡ true }
        ensures value { answered result self.new ≡ called (Call.Pins clock line) self.old }
        ensures cause { IfOk result (λ outcome. outcome.cause ≡ call_cause (Call.Pins clock line) self.old) }
        ensures kept { OnErr result (self.new ≡ self.old) }
    {
        if (clock > 1) | (line > 1) {
            return Err(Refusal::Operand);
        }
        let clock = clock != 0;
        let line = line != 0;
        let changes = (line != self.input) | (clock != self.input_clock);
        if !changes {
            return Ok(Outcome::of_value(0));
        }
        if self.edge_counts(clock) & (self.half >= LIMIT) {
            return Err(Refusal::Count);
        }
        Ok(Outcome::of_cause(self.with_pins(clock, line)))
    }

    // Bits: 1 module, 2 main clock, 4 subclock, 8 reset mode.
    #[tactic(auto, using(crate::proofs::CallLaws::valid_half), unfolding(crate::specs::Calls::called, crate::specs::Cause::call_cause))]
    fn set_power(&mut self, bits: u32) -> Result<Outcome, Refusal>
        requires { valid self.old ≡ true }
        ensures value { answered result self.new ≡ called (Call.Power bits) self.old }
        ensures cause { IfOk result (λ outcome. outcome.cause ≡ call_cause (Call.Power bits) self.old) }
        ensures kept { OnErr result (self.new ≡ self.old) }
    {
        if bits > 15 {
            return Err(Refusal::Operand);
        }
        self.powered(bits & 1 != 0, bits & 2 != 0, bits & 4 != 0, bits & 8 != 0);
        Ok(Outcome::of_value(0))
    }

    #[tactic(auto, unfolding(crate::specs::Calls::called, crate::specs::Cause::call_cause))]
    fn inside(&mut self) -> Result<Outcome, Refusal>
        ensures value { answered result self.new ≡ called Call.Inside self.old }
        ensures cause { IfOk result (λ outcome. outcome.cause ≡ call_cause Call.Inside self.old) }
        ensures kept { OnErr result (self.new ≡ self.old) }
    {
        self.uncounted(1);
        Ok(Outcome::of_value(0))
    }

    // The call of a command; a refused one leaves the port as it was. Inlined, so that a read in a script does not pay for what the other kinds need.
    #[inline(always)]
    pub fn call(&mut self, call: Call) -> Result<Outcome, Refusal>
        requires { valid self.old ≡ true }
        ensures value { answered result self.new ≡ called call self.old }
        ensures cause { IfOk result (λ outcome. outcome.cause ≡ call_cause call self.old) }
        ensures kept { OnErr result (self.new ≡ self.old) }
    {
        match call {
            Call::Read { address } => self.read(address),
            Call::Write { address, value } => self.write(address, value),
            Call::Wait { halves } => self.wait(halves),
            Call::Line { line } => self.set_line(line),
            Call::Pins { clock, line } => self.input_pins(clock, line),
            Call::Power { bits } => self.set_power(bits),
            Call::Inside => self.inside(),
        }
    }
}
