// SCI3 of the H8/38602R as a value: registers, sender, receiver and clock of sci.rs (document 01). Its `pins` and `interrupt` are in the crate pins.
#![tactic(auto)]

ghost use Rattle.std.specs.Prelude.{◌≡◌, ◌+◌, ◌<◌, ◌≤◌, true, false, if◌then◌else◌, bit_or, Some, IfOk};
ghost use Rattle.shift.specs.declared.Tx.TheVariants.{Off};
ghost use Rattle.port.specs.Cause.{complete_cause, sample_cause, rx_cause, bit_cause, receive_cause, edge_cause, basic_cause, halves_cause, external_cause, call_cause};
ghost use Rattle.port.specs.Fields.{with_rx, with_input_clock};
ghost use Rattle.port.specs.Baud.{format_of, external, running, internal, edge_counts, next_fall, boundary};
ghost use Rattle.frame.specs.Frame.{has};
ghost use Rattle.shift.specs.Receiver.{armed, started, bit_at, stepped, sample, bit_taken, rx_next};
ghost use Rattle.port.specs.Receiver.{input_level, arm_receive, complete_receive, after_sample, advance_rx};
ghost use Rattle.shift.specs.Sender.{level};
ghost use Rattle.port.specs.Sender.{character, loaded, preloaded, drive, begin, start_at, start_loaded, try_start_on, try_start, finish_tail, tailed, next_cell, send_step_on, advance_tx};
ghost use Rattle.port.specs.Clocked.{sync_needed, refresh_sync_clock, take_bit, receive_bit, tail_ends, bit_out, shift_out, sync_edge};
ghost use Rattle.port.specs.Half.{process_basic, halves, uncounted};
ghost use Rattle.port.specs.Private.Skip.{arms_on, toggled, edge_of, edge_of_cause, edge_work, work_cause, clock_fresh, deadline, counted_by, ClockGives, Planned, edges, edges_cause};
ghost use Rattle.port.specs.Registers.{address, peek, read, sender_off, scr_tx, write_scr, write_tdr, status_write, stored, connect, load_tail, after_store, takes_writes, write};
ghost use Rattle.port.specs.Power.{fresh, reset_registers, resets, reset, set_power};
ghost use Rattle.port.specs.Input.{receive_input, external_edge};
ghost use Rattle.port.specs.Valid.{limit, registers_valid, valid};
ghost use Rattle.port.specs.Calls.{done, called, direct, number, answer};
ghost use Rattle.shift.specs.Private.Ready.{Bounded, Placed, Shiftable, PlacedIn, LoadedBounded, Sendable, in_data, at_parity};
ghost use Rattle.port.specs.Private.Ready.{Ready};

use command::Call;
use frame::Format;
use register::Register;
use shift::{
    Cause, Character, Rx, Sampled, Tx, due_valid, rx_next, rx_synchronous, rx_valid, within,
};

mod calls;
mod register;

// Number 4's limit on the half count.
const LIMIT: u32 = 4_000_000_000;

// Not in the order of `Sci`: a port is copied sixteen bytes at a time, and such a move waits where it crosses bytes that were just stored one by one. So
// single bytes stand first, and those that a read or a record touches end the first sixteen.
#[derive(Clone, Copy)]
pub struct Port {
    pub spcr: u8,
    pub smr: u8,
    pub brr: u8,
    pub scr: u8,
    pub tdr: u8,
    pub rdr: u8,
    pub semr: u8,
    pub ircr: u8,
    pub main: bool,
    pub sub: bool,
    pub reset_mode: bool,
    pub high: bool,
    pub module: bool,
    pub uart: bool,
    pub seen: u8,
    pub ssr: u8,
    pub edge: bool,
    pub input: bool,
    pub input_clock: bool,
    pub sck: bool,
    pub half: u32,
    pub bit_start: u32,
    pub sync_next: Option<u32>,
    pub tx: Tx,
    pub rx: Option<Rx>,
    pub holding: Option<u8>,
    pub transmitted: u64,
    pub received: u64,
}

// Why a call is refused, with document 01's numbers.
#[derive(Clone, Copy, Debug, PartialEq, Eq)]
pub enum Refusal {
    // The address is none of the nine.
    Address = 1,
    // An operand is above its range.
    Operand = 2,
    // A write to IRCR with bit 7 set.
    Infrared = 3,
    // An edge to be counted would take the half count past its limit.
    Count = 4,
    // The state fails its field test.
    State = 8,
}

// What an accepted call answers: the value read, else 0, and the cause of the last word that it completed.
#[derive(Clone, Copy)]
pub struct Outcome {
    pub value: u8,
    pub cause: Cause,
}

// What an accepted direct call hands back: its outcome, and the port after it. A refused one leaves the port as it was.
#[derive(Clone, Copy)]
pub struct Called {
    pub value: u8,
    pub cause: Cause,
    pub port: Port,
}

// ---- a word on its way
// What these ask of a word or a format (`Placed`, `Bounded`, `Shiftable`) their sums and shifts need; a type that holds it would put a name before each field.
// Character and cell come apart, as the sender's states have them: a struct would be made for each call. So it is in `next_cell` and `bit_out`.
// The level of a cell of the word.
fn level(character: Character, cell: u8) -> bool
    requires { cell ≤ 15 }
    ensures { result ≡ level character cell }
{
    character.word & (1 << cell) != 0
}

// Whether a received word waits for a data cell.
#[tactic(auto, unfolding(shift::specs::Private::Ready::in_data))]
fn in_data(rx: Rx) -> bool
    requires { Placed rx }
    ensures { result ≡ in_data rx }
{
    rx.position < rx.format.data as i8
}

// Whether it waits for the parity cell.
#[tactic(auto, unfolding(shift::specs::Private::Ready::at_parity))]
fn at_parity(rx: Rx) -> bool
    requires { Placed rx }
    ensures { result ≡ at_parity rx }
{
    (rx.position == rx.format.data as i8) & rx.format.parity
}

// The received value with the present cell's bit. A position is a shift only from zero.
fn with_bit(rx: Rx, high: bool) -> u8
    requires { Shiftable rx }
    ensures { result ≡ (if high then bit_or rx.value (bit_at rx.position) else rx.value) }
{
    if high {
        rx.value | 1 << rx.position as u8
    } else {
        rx.value
    }
}

// The start cell begins, in the present format.
fn started(rx: Rx, now: Format, half: u32) -> Rx
    requires { Bounded now × (half ≤ limit) }
    ensures { result ≡ started now half rx }
{
    Rx {
        format: now,
        position: -1,
        next: Some(half + now.half_bit / 2 - 1),
        ..rx
    }
}

// The next cell, sampled one cell length later.
fn stepped(rx: Rx, half: u32, value: u8, parity: bool, error: u8) -> Rx
    requires { Placed rx × (half ≤ limit) }
    ensures { result ≡ stepped half rx.position value parity error rx }
{
    Rx {
        value,
        position: rx.position + 1,
        parity,
        error,
        next: Some(half + rx.format.half_bit),
        ..rx
    }
}

// A bit of a clocked word.
fn bit_taken(rx: Rx, high: bool) -> Rx
    requires { Placed rx × (rx.format.synchronous ≡ true) }
    ensures { result ≡ bit_taken high rx }
{
    Rx {
        value: with_bit(rx, high),
        position: rx.position + 1,
        ..rx
    }
}

// What a sample makes of a start-stop word.
#[tactic(auto, unfolding(shift::specs::Receiver::sample_at))]
fn sampled(rx: Rx, now: Format, high: bool, half: u32) -> Sampled
    requires { Placed rx × (rx.format.synchronous ≡ false) × Bounded now × (half ≤ limit) }
    ensures { result ≡ sample now high half rx }
{
    if rx.falling() {
        if high | now.synchronous {
            return Sampled::Dropped;
        }
        return Sampled::Onward(started(rx, now, half));
    }
    if rx.starting() {
        if high {
            return Sampled::Dropped;
        }
        return Sampled::Onward(stepped(rx, half, rx.value, rx.parity, rx.error));
    }
    if in_data(rx) {
        let value = with_bit(rx, high);
        return Sampled::Onward(stepped(rx, half, value, rx.parity ^ high, rx.error));
    }
    if at_parity(rx) {
        let error = rx.parity_error(high);
        return Sampled::Onward(stepped(rx, half, rx.value, rx.parity, error));
    }
    Sampled::Whole(rx.stopped(high))
}

// The state of `Sci::default`.
impl Default for Port {
    ghost is_default = { λ port. port ≡ fresh };

    #[tactic(auto, unfolding(crate::specs::Power::fresh))]
    fn default() -> Self {
        Self {
            spcr: 0xc0,
            smr: 0,
            brr: 255,
            scr: 0,
            tdr: 255,
            ssr: 0x84,
            rdr: 0,
            semr: 0,
            ircr: 0,
            seen: 0,
            module: false,
            main: false,
            sub: false,
            reset_mode: false,
            half: 0,
            high: true,
            edge: false,
            holding: None,
            tx: Tx::Off,
            rx: None,
            uart: true,
            bit_start: 0,
            input: true,
            input_clock: true,
            sck: true,
            sync_next: None,
            transmitted: 0,
            received: 0,
        }
    }
}

// What a step asks of the port (`half ≤ limit`, `Sendable`, `PlacedIn`, `Ready`), of a word or a format is what its own sums and shifts need. `Port` cannot
// hold it: C may give one of any half count. A type around the port can (tried), but it would put `.port` before each field that a step names.
impl Port {
    #[tactic(auto, using(crate::proofs::Steps::valid_bounded))]
    fn format(self) -> Format
        ensures value { result ≡ format_of self }
        ensures bounded { Bounded result }
    {
        Format::new(self.smr, self.semr)
    }

    fn external(self) -> bool
        ensures { result ≡ external self }
    {
        self.scr & 2 != 0
    }

    fn running(self) -> bool
        ensures { result ≡ running self }
    {
        self.module && !self.reset_mode && (self.main || (self.sub && self.smr & 3 == 1))
    }

    // ---- the basic clock
    // The half at which a cell can begin.
    fn boundary(self, span: u32) -> u32
        requires { (self.half ≤ limit) × (16 ≤ span) × (span ≤ 32) }
        ensures { result ≡ boundary self span }
    {
        let past = self.half % span;
        if (past == 0) & self.edge {
            self.half
        } else {
            self.half + span - past
        }
    }

    // The next half with a falling phase.
    fn next_fall(self) -> u32
        requires { self.half ≤ limit }
        ensures { result ≡ next_fall self }
    {
        if self.high {
            self.half + 1
        } else {
            self.half + 2
        }
    }

    // ---- receive line
    // RXD now shows this level.
    #[tactic(auto, unfolding(crate::specs::Input::receive_input))]
    fn receive_input(&mut self, level: bool)
        requires { self.old.half ≤ limit }
        ensures { self.new ≡ receive_input level self.old }
    {
        if level != self.input {
            self.input = level;
            self.arm_receive();
        }
    }

    // ---- power
    #[tactic(auto, unfolding(crate::specs::Power::reset_registers))]
    fn reset_registers(self, spcr: u8) -> Self
        ensures { result ≡ reset_registers spcr self }
    {
        Self {
            spcr,
            input: self.input,
            input_clock: self.input_clock,
            transmitted: self.transmitted,
            received: self.received,
            ..Self::default()
        }
    }

    // The module going off is the module's reset, also where reset mode goes on.
    #[tactic(auto, unfolding(crate::specs::Power::reset))]
    fn reset(self, module: bool, reset_mode: bool) -> Self
        ensures { result ≡ reset «module» reset_mode self }
    {
        if !module & self.module {
            self.reset_registers(0xc0)
        } else if reset_mode & !self.reset_mode {
            self.reset_registers(self.spcr)
        } else {
            self
        }
    }

    #[tactic(auto, using(crate::proofs::Keep::halved), unfolding(crate::specs::Power::set_power))]
    fn powered(&mut self, module: bool, main: bool, sub: bool, reset_mode: bool)
        requires { self.old.half ≤ limit }
        ensures { self.new ≡ set_power «module» main sub reset_mode self.old }
    {
        *self = self.reset(module, reset_mode);
        self.module = module;
        self.main = main;
        self.sub = sub;
        self.reset_mode = reset_mode;
        self.refresh_sync_clock();
    }

    // ---- registers
    #[tactic(auto, unfolding(crate::specs::Registers::peek))]
    fn peek(self, register: Register) -> u8
        ensures { result ≡ peek self (address register) }
    {
        match register {
            Register::Spcr => self.spcr,
            Register::Smr => self.smr,
            Register::Brr => self.brr,
            Register::Scr => self.scr,
            Register::Tdr => self.tdr,
            Register::Ssr => self.ssr,
            Register::Rdr => self.rdr,
            Register::Semr => self.semr,
            Register::Ircr => self.ircr,
        }
    }

    // The port once a register has been read.
    #[tactic(auto, unfolding(crate::specs::Registers::read))]
    fn after_read(&mut self, register: Register)
        ensures { self.new ≡ read (address register) self.old }
    {
        match register {
            Register::Ssr => self.seen = self.ssr,
            Register::Rdr => {
                self.ssr &= 0xbf;
                self.seen &= 0xbf;
            }
            _ => {}
        }
    }

    fn sender_off(&mut self)
        ensures { self.new ≡ sender_off self.old }
    {
        self.uart = true;
        self.ssr |= 0x84;
        self.tx = Tx::Off;
        self.holding = None;
    }

    // TE newly set begins, in start-stop form, with a whole character of mark from the next boundary on.
    fn scr_tx(&mut self, was: bool, v: u8)
        requires { self.old.half ≤ limit }
        ensures { self.new ≡ scr_tx was v self.old }
    {
        if v & 0x20 == 0 {
            self.sender_off();
            return;
        }
        let format = self.format();
        if was | format.synchronous {
            return;
        }
        let next = self.boundary(format.half_bit) + format.cells() * format.half_bit;
        self.tx = Tx::Mark { next };
    }

    #[tactic(auto, unfolding(crate::specs::Registers::write_scr))]
    fn write_scr(&mut self, v: u8)
        requires { self.old.half ≤ limit }
        ensures { self.new ≡ write_scr v self.old }
    {
        let was = self.scr & 0x20 != 0;
        self.scr = v & 0xf7;
        self.scr_tx(was, v);
        if v & 0x10 == 0 {
            self.rx = None;
        }
    }

    #[tactic(auto, unfolding(crate::specs::Registers::write_tdr))]
    fn write_tdr(&mut self, v: u8)
        ensures { self.new ≡ write_tdr v self.old }
    {
        self.tdr = v;
        if self.scr & 0x20 != 0 {
            self.ssr &= 0x7b;
            self.seen &= 0x7b;
            self.holding = Some(v);
        }
    }

    // Bits that are seen and written 0 are cleared, of 0xf8. With nothing held, a cleared TDRE takes TDR into the holding place.
    #[tactic(auto, unfolding(crate::specs::Registers::status_with, crate::specs::Registers::status_write))]
    fn status_write(&mut self, v: u8)
        ensures { self.new ≡ status_write v self.old }
    {
        let ssr = self.ssr & (255 - (self.seen & (255 - v) & 0xf8));
        self.seen &= v;
        if self.scr & 0x20 == 0 {
            self.ssr = ssr | 0x80;
            return;
        }
        if (ssr & 0x80 == 0) & self.holding.is_none() {
            self.ssr = ssr & 0xfb;
            self.holding = Some(self.tdr);
            return;
        }
        self.ssr = ssr;
    }

    #[tactic(auto, unfolding(crate::specs::Registers::stored))]
    fn stored(&mut self, register: Register, v: u8)
        requires { self.old.half ≤ limit }
        ensures { self.new ≡ stored (address register) v self.old }
    {
        match register {
            Register::Spcr => self.spcr = v & 0x13 | 0xc0,
            Register::Smr => self.smr = v,
            Register::Brr => self.brr = v,
            Register::Scr => self.write_scr(v),
            Register::Tdr => self.write_tdr(v),
            Register::Ssr => self.status_write(v),
            Register::Rdr => {}
            Register::Semr => self.semr = v & 8,
            Register::Ircr => self.ircr = v & 0xf0,
        }
    }

    // The external clock newly chosen, the phase is the clock pin's.
    #[tactic(auto, unfolding(crate::specs::Registers::connect))]
    fn connect(&mut self, was: bool)
        ensures { self.new ≡ connect was self.old }
    {
        if !was & self.external() {
            self.high = self.input_clock;
            self.sync_next = None;
        }
    }

    // A tail with no next word takes what is held.
    #[tactic(auto, unfolding(crate::specs::Registers::load_tail))]
    fn load_tail(&mut self)
        ensures { self.new ≡ load_tail self.old }
    {
        match self.tx {
            Tx::Tail { loaded: None, next } if self.holding.is_some() => self.tailed(next),
            _ => {}
        }
    }

    // What follows every store.
    #[tactic(auto, using(crate::proofs::Keep::load_tail_ready, crate::proofs::Keep::try_start_ready, crate::proofs::Keep::ready_half, crate::proofs::Keep::ready_tx), unfolding(crate::specs::Registers::after_store))]
    fn after_store(&mut self)
        requires { Ready self.old.half self.old }
        ensures { self.new ≡ after_store self.old }
    {
        self.load_tail();
        self.try_start();
        self.arm_receive();
        self.refresh_sync_clock();
    }

    #[tactic(auto, using(crate::proofs::Keep::stored_ready, crate::proofs::Keep::connect_ready), unfolding(crate::specs::Registers::write))]
    fn written(&mut self, register: Register, v: u8)
        requires { Ready self.old.half self.old }
        ensures { self.new ≡ write (address register) v self.old }
    {
        if self.module & !self.reset_mode {
            let external = self.external();
            self.stored(register, v);
            self.connect(external);
            self.after_store();
        }
    }

    // ---- sender
    fn character(self, value: u8) -> Character
        ensures value { result ≡ character self value }
        ensures bounded { Bounded result.format }
    {
        let format = self.format();
        Character {
            format,
            word: format.word(value),
        }
    }

    // `preload` in two: the word that the holding place gives, and the port without it.
    #[tactic(auto, unfolding(crate::specs::Sender::loaded))]
    fn loaded(self) -> Option<Character>
        ensures value { result ≡ loaded self }
        ensures bounded { LoadedBounded result }
    {
        let value = self.holding?;
        Some(self.character(value))
    }

    #[tactic(auto, unfolding(crate::specs::Sender::preloaded))]
    fn preloaded(&mut self)
        ensures value { self.new ≡ preloaded self.old }
        ensures kept { self.new.half ≡ self.old.half }
    {
        if self.holding.take().is_some() {
            self.ssr = (self.ssr | 0x80) & 0xfb;
        } else {
            self.ssr |= 4;
        }
    }

    // A word's last cells, with the next one loaded.
    fn tailed(&mut self, next: Option<u32>)
        ensures { self.new ≡ tailed self.old next }
    {
        let loaded = self.loaded();
        self.preloaded();
        self.tx = Tx::Tail { loaded, next };
    }

    fn drive(&mut self, high: bool)
        ensures value { self.new ≡ drive self.old high }
        ensures kept { self.new.half ≡ self.old.half }
    {
        self.uart = high;
        self.bit_start = self.half;
    }

    // A word's first cell.
    #[tactic(auto, unfolding(crate::specs::Sender::begin))]
    fn begin(&mut self, character: Character)
        requires { (self.old.half ≤ limit) × Bounded character.format }
        ensures { self.new ≡ begin self.old character }
    {
        let mut next = None;
        if !character.format.synchronous {
            self.drive(character.word & 1 != 0);
            next = Some(self.half + character.format.half_bit);
        }
        self.tx = Tx::Data {
            character,
            cell: 0,
            next,
        };
    }

    // A start-stop word begins where a cell can.
    #[tactic(auto, unfolding(crate::specs::Sender::start_at))]
    fn start_at_boundary(&mut self, character: Character)
        requires { (self.old.half ≤ limit) × Bounded character.format }
        ensures { self.new ≡ start_at self.old character (boundary self.old character.format.half_bit) }
    {
        let next = self.boundary(character.format.half_bit);
        if next == self.half {
            self.begin(character);
            return;
        }
        self.tx = Tx::Start { character, next };
    }

    // A loaded word begins: a clocked one at once, a start-stop one where a cell can.
    fn start_loaded(&mut self)
        requires { self.old.half ≤ limit }
        ensures { self.new ≡ start_loaded (loaded self.old) (preloaded self.old) }
    {
        let loaded = self.loaded();
        self.preloaded();
        match loaded {
            None => {}
            Some(character) if character.format.synchronous => self.begin(character),
            Some(character) => self.start_at_boundary(character),
        }
    }

    // A held byte is taken by an absent sender; in clocked form not while an error flag stands.
    fn load_held(&mut self)
        requires { self.old.half ≤ limit }
        ensures { self.new ≡ try_start_on Off self.old }
    {
        let format = self.format();
        let held = self.holding.is_some();
        if (self.scr & 0x20 != 0) & (held & (!format.synchronous | (self.ssr & 0x38 == 0))) {
            self.start_loaded();
        }
    }

    // A held byte or a blocked word begins. Inlined: most stores begin nothing, and the tests are cheaper than a call.
    #[inline(always)]
    #[tactic(auto, unfolding(crate::specs::Sender::try_start))]
    fn try_start(&mut self)
        requires { (self.old.half ≤ limit) × Sendable self.old.tx }
        ensures { self.new ≡ try_start self.old }
    {
        match self.tx {
            Tx::Off if self.holding.is_some() => self.load_held(),
            Tx::Blocked { character } if self.ssr & 0x38 == 0 => self.begin(character),
            _ => {}
        }
    }

    // The tail ends: a word is finished. A clocked word does not begin while an error flag stands.
    fn finish_tail(&mut self, loaded: Option<Character>)
        requires { (self.old.half ≤ limit) × LoadedBounded loaded }
        ensures { self.new ≡ finish_tail loaded self.old }
    {
        self.transmitted = self.transmitted.wrapping_add(1);
        self.tx = Tx::Off;
        let Some(character) = loaded else {
            self.try_start();
            return;
        };
        if character.format.synchronous & (self.ssr & 0x38 != 0) {
            self.tx = Tx::Blocked { character };
            return;
        }
        self.begin(character);
    }

    // A cell of a start-stop word.
    #[tactic(auto, unfolding(crate::specs::Sender::next_cell))]
    fn next_cell(&mut self, character: Character, cell: u8)
        requires { (self.old.half ≤ limit) × Bounded character.format × (cell ≤ 10) }
        ensures { self.new ≡ next_cell character cell self.old }
    {
        self.drive(level(character, cell));
        let format = character.format;
        if u32::from(cell) == format.stop() {
            let next = Some(self.half + u32::from(format.stops) * format.half_bit);
            self.tailed(next);
            return;
        }
        self.tx = Tx::Data {
            character,
            cell,
            next: Some(self.half + format.half_bit),
        };
    }

    fn send_step(&mut self)
        requires { (self.old.half ≤ limit) × Sendable self.old.tx }
        ensures { self.new ≡ send_step_on self.old.tx self.old }
    {
        match self.tx {
            Tx::Off | Tx::Blocked { .. } => {}
            Tx::Mark { .. } => {
                self.tx = Tx::Off;
                self.try_start();
            }
            Tx::Start { character, .. } => self.begin(character),
            Tx::Data {
                character,
                cell,
                ..
            } => self.next_cell(character, cell + 1),
            Tx::Tail { loaded, .. } => self.finish_tail(loaded),
        }
    }

    // The sender's step, at the half on which it is due.
    #[tactic(auto, unfolding(crate::specs::Sender::advance_tx))]
    fn advance_tx(&mut self)
        requires { (self.old.half ≤ limit) × Sendable self.old.tx }
        ensures { self.new ≡ advance_tx self.old }
    {
        let Some(due) = self.tx.next() else {
            return;
        };
        if due == self.half {
            self.send_step();
        }
    }

    // ---- receiver
    // Mark is line 1, or line 0 with SPCR bit 0 set.
    fn input_level(self) -> bool
        ensures { result ≡ input_level self }
    {
        self.input ^ (self.spcr & 1 != 0)
    }

    // Whether a word begins: none is in the receiver, and the line asks for one.
    fn arms_now(self) -> bool
        ensures { result ≡ arms_on self.rx self }
    {
        if self.rx.is_some() {
            return false;
        }
        let format = self.format();
        let level = self.input_level();
        (self.scr & 0x10 != 0) & ((self.ssr & 0x38 == 0) & (!format.synchronous & !level))
    }

    // A word begins in an empty receiver, where the line asks for one.
    #[tactic(auto, unfolding(crate::specs::Receiver::arm_receive))]
    fn arm_receive(&mut self)
        requires { self.old.half ≤ limit }
        ensures value { self.new ≡ arm_receive self.old }
        ensures kept { self.new.half ≡ self.old.half }
    {
        if self.arms_now() {
            self.rx = Some(Rx::armed(self.format(), self.next_fall()));
        }
    }

    // A whole word, the receiver being empty again.
    #[tactic(auto, unfolding(crate::specs::Receiver::complete_receive))]
    fn complete_receive(&mut self, rx: Rx) -> Cause
        ensures port { self.new ≡ complete_receive self.old rx }
        ensures cause { result ≡ complete_cause self.old rx }
    {
        let full = self.ssr & 0x40 != 0;
        let cause = Cause::of(full, rx.error);
        if full {
            self.ssr |= rx.error | 0x20;
            return cause;
        }
        self.rdr = rx.value;
        if rx.error == 0 {
            self.ssr |= 0x40;
            self.received = self.received.wrapping_add(1);
            return cause;
        }
        self.ssr |= rx.error;
        cause
    }

    fn after_sample(&mut self, sampled: Sampled) -> Cause
        ensures port { self.new ≡ after_sample sampled self.old }
        ensures cause { result ≡ sample_cause sampled self.old }
    {
        match sampled {
            Sampled::Dropped => self.rx = None,
            Sampled::Onward(rx) => self.rx = Some(rx),
            Sampled::Whole(rx) => {
                self.rx = None;
                return self.complete_receive(rx);
            }
        }
        Cause::NoWord
    }

    // The receiver's step, at the half on which it is due.
    #[tactic(auto, unfolding(crate::specs::Receiver::advance_rx))]
    fn advance_rx(&mut self) -> Cause
        requires { (self.old.half ≤ limit) × PlacedIn self.old.rx }
        ensures port { self.new ≡ advance_rx self.old }
        ensures cause { result ≡ rx_cause self.old }
    {
        let Some(rx) = self.rx else {
            return Cause::NoWord;
        };
        if rx.next == Some(self.half) {
            let format = self.format();
            let level = self.input_level();
            return self.after_sample(sampled(rx, format, level, self.half));
        }
        Cause::NoWord
    }

    // ---- clocked form
    fn sync_needed(self) -> bool
        ensures { result ≡ sync_needed self }
    {
        let sends = self.tx.synchronous();
        let format = self.format();
        let receives = rx_synchronous(self.rx);
        sends
            | ((self.scr & 0x10 != 0) & ((self.ssr & 0x38 == 0) & (format.synchronous | receives)))
    }

    #[tactic(auto, unfolding(crate::specs::Clocked::refresh_sync_clock))]
    fn refresh_sync_clock(&mut self)
        requires { self.old.half ≤ limit }
        ensures { self.new ≡ refresh_sync_clock self.old }
    {
        if self.external() {
            self.sync_next = None;
        } else if self.sync_needed() {
            self.sync_next = self.sync_next.or(Some(self.half + 2));
        } else {
            self.sck = true;
            self.sync_next = None;
        }
    }

    #[tactic(auto, unfolding(crate::specs::Clocked::take_bit))]
    fn take_bit(&mut self, rx: Rx) -> Cause
        requires { Placed rx × (rx.format.synchronous ≡ true) }
        ensures port { self.new ≡ take_bit self.old rx }
        ensures cause { result ≡ bit_cause self.old rx }
    {
        let taken = bit_taken(rx, self.input_level());
        if rx.last_bit() {
            self.rx = None;
            return self.complete_receive(taken);
        }
        self.rx = Some(taken);
        Cause::NoWord
    }

    // A clocked word goes on, or begins; it waits while an error flag stands.
    #[tactic(auto, unfolding(crate::specs::Clocked::receive_bit, crate::specs::Cause::receive_cause))]
    fn receive_bit(&mut self) -> Cause
        requires { PlacedIn self.old.rx }
        ensures port { self.new ≡ receive_bit self.old }
        ensures cause { result ≡ receive_cause self.old }
    {
        if (self.scr & 0x10 != 0) & (self.ssr & 0x38 == 0) {
            let rx = self.rx.unwrap_or(Rx::clocked(self.format()));
            if rx.format.synchronous {
                return self.take_bit(rx);
            }
        }
        Cause::NoWord
    }

    // A tail of a clocked word ends.
    #[tactic(auto, unfolding(crate::specs::Clocked::tail_ends))]
    fn tail_ends(&mut self)
        requires { (self.old.half ≤ limit) × Sendable self.old.tx }
        ensures { self.new ≡ tail_ends self.old }
    {
        match self.tx {
            Tx::Tail { loaded, next: None } => self.finish_tail(loaded),
            _ => {}
        }
    }

    // A bit of a clocked word.
    #[tactic(auto, unfolding(crate::specs::Clocked::bit_out))]
    fn bit_out(&mut self, character: Character, cell: u8)
        requires { cell ≤ 9 }
        ensures { self.new ≡ bit_out character cell self.old }
    {
        self.drive(level(character, cell));
        if cell == 7 {
            self.tailed(None);
            return;
        }
        self.tx = Tx::Data {
            character,
            cell: cell + 1,
            next: None,
        };
    }

    #[tactic(auto, unfolding(crate::specs::Clocked::shift_out))]
    fn shift_out(&mut self)
        requires { Sendable self.old.tx }
        ensures { self.new ≡ shift_out self.old }
    {
        match self.tx {
            Tx::Data {
                character,
                cell,
                next: None,
            } => self.bit_out(character, cell),
            _ => {}
        }
    }

    // An edge of the clock, to this level.
    #[tactic(auto, using(crate::proofs::Keep::receive_bit_ready, crate::proofs::Keep::ready_half, crate::proofs::Keep::ready_tx), unfolding(crate::specs::Clocked::sync_edge, crate::specs::Cause::edge_cause))]
    fn sync_edge(&mut self, high: bool) -> Cause
        requires { Ready self.old.half self.old }
        ensures port { self.new ≡ sync_edge high self.old }
        ensures cause { result ≡ edge_cause high self.old }
    {
        if high {
            let cause = self.receive_bit();
            self.tail_ends();
            return cause;
        }
        self.shift_out();
        Cause::NoWord
    }

    // ---- pins in
    fn edge_counts(self, high: bool) -> bool
        ensures { result ≡ edge_counts high self }
    {
        let running = self.running();
        let external = self.external();
        running & (external & (self.high != high))
    }

    // The line, then an edge of the clock pin where it counts.
    #[tactic(auto, unfolding(crate::specs::Input::external_edge, crate::specs::Cause::external_cause))]
    fn with_pins(&mut self, clock: bool, line: bool) -> Cause
        requires { Ready self.old.half self.old × (edge_counts clock self.old ≡ true → self.old.half < limit) }
        ensures port { self.new ≡ external_edge clock (with_input_clock (receive_input line self.old) clock) }
        ensures cause { result ≡ external_cause clock (with_input_clock (receive_input line self.old) clock) }
    {
        self.receive_input(line);
        self.input_clock = clock;
        if self.edge_counts(clock) {
            return self.edges(1, 1, Some(clock));
        }
        Cause::NoWord
    }

    // ---- one half
    // The basic work at a half.
    #[tactic(auto, using(crate::proofs::Keep::advance_tx_ready, crate::proofs::Keep::advance_rx_ready, crate::proofs::Keep::ready_half, crate::proofs::Keep::ready_rx), unfolding(crate::specs::Half::process_basic, crate::specs::Receiver::arm_receive, crate::specs::Cause::basic_cause))]
    fn process_basic(&mut self) -> Cause
        requires { Ready self.old.half self.old }
        ensures port { self.new ≡ process_basic self.old }
        ensures cause { result ≡ basic_cause self.old }
    {
        self.advance_tx();
        let cause = self.advance_rx();
        self.arm_receive();
        cause
    }

    // The port's own clock toggles; an edge of the pin leaves it as it is.
    fn toggled(&mut self, pin: Option<bool>)
        ensures { self.new ≡ toggled pin self.old }
    {
        if pin.is_none() {
            self.sck = !self.sck;
            self.sync_next = None;
        }
    }

    // An edge of clocked form's clock: the pin's, or the port's own at its due half.
    #[tactic(auto, using(crate::proofs::Skip::edge_t, crate::proofs::Skip::edge_f, crate::proofs::Skip::edge_cause_t, crate::proofs::Skip::edge_cause_f, crate::proofs::Skip::toggled_ready))]
    fn clocked_edge(&mut self, pin: Option<bool>) -> Cause
        requires { Ready self.old.half self.old }
        ensures port { self.new ≡ edge_of pin self.old }
        ensures cause { result ≡ edge_of_cause pin self.old }
    {
        if pin.is_some() | (self.sync_next == Some(self.half)) {
            let high = pin.unwrap_or(!self.sck);
            self.toggled(pin);
            return self.sync_edge(high);
        }
        Cause::NoWord
    }

    // Whether the clock of clocked form is as a refresh leaves it.
    #[tactic(auto, unfolding(crate::specs::Private::Skip::clock_fresh))]
    fn clock_fresh(self) -> bool
        ensures { result ≡ clock_fresh self }
    {
        let none = self.sync_next.is_none();
        if self.sync_needed() {
            return !none;
        }
        none & self.sck
    }

    // The work of an edge of the basic clock, once it is counted.
    #[tactic(auto, using(crate::proofs::Keep::process_basic_ready, crate::proofs::Skip::edge_ready, crate::proofs::Keep::ready_half))]
    fn advance(&mut self, pin: Option<bool>) -> Cause
        requires { Ready self.old.half self.old }
        ensures port { self.new ≡ edge_work pin self.old }
        ensures cause { result ≡ work_cause pin self.old }
    {
        let basic = self.process_basic();
        let clocked = self.clocked_edge(pin);
        self.refresh_sync_clock();
        basic.followed_by(clocked)
    }

    // The halves up to the next one that may do more than count, at most left. Inlined: the loop of `edges` is a third slower where it is called.
    #[inline(always)]
    #[tactic(auto, unfolding(crate::specs::Private::Skip::deadline))]
    fn deadline(self, left: u32) -> u32
        ensures { result ≡ deadline left self }
    {
        if self.arms_now() | !self.clock_fresh() {
            return 1;
        }
        let left = within(self.tx.next(), self.half, left);
        let left = within(rx_next(self.rx), self.half, left);
        within(self.sync_next, self.half, left)
    }

    // k halves counted at once.
    #[tactic(auto, unfolding(crate::specs::Private::Skip::counted_by))]
    fn counted_by(&mut self, k: u32)
        requires { self.old.half + k ≤ limit }
        ensures { self.new ≡ counted_by k self.old }
    {
        self.half += k;
        self.high ^= k % 2 != 0;
        self.edge = (k != 0) | self.edge;
    }

    // n halves of the internal clock, or one edge of the clock pin to its level. The first at which something may happen is the one after so many; from there
    // the halves to the next such are counted at once, and so are the ones after the last. It goes on by what `deadline` gives, so no range counts it.
    fn edges(&mut self, n: u32, first: u32, pin: Option<bool>) -> Cause
        requires { Ready self.old.half self.old × (self.old.half + n ≤ limit) × ClockGives pin n self.old × Planned pin n first self.old }
        ensures port { self.new ≡ edges pin n self.old }
        ensures cause { result ≡ edges_cause pin n self.old }
    {
        let mut cause = Cause::NoWord;
        let mut left = n;
        let mut next = first;
        while next <= left {
            self.counted_by(next);
            let last = self.advance(pin);
            cause = cause.followed_by(last);
            left -= next;
            next = self.deadline(left + 1);
        }
        self.counted_by(left);
        cause
    }

    // n halves of the internal clock. An idle wait does not pay for a call of the loop.
    #[tactic(auto, using(crate::proofs::Skip::idle_halves, crate::proofs::Skip::idle_cause))]
    fn halves(&mut self, n: u32) -> Cause
        requires { Ready self.old.half self.old × (self.old.half + n ≤ limit) × (external self.old ≡ false) }
        ensures port { self.new ≡ halves n self.old }
        ensures cause { result ≡ halves_cause n self.old }
    {
        let first = self.deadline(n + 1);
        if first > n {
            self.counted_by(n);
            Cause::NoWord
        } else {
            self.edges(n, first, None)
        }
    }

    // n halves' time on a port whose internal clock does not count; with n not 0, time inside the half.
    fn uncounted(&mut self, n: u32)
        ensures { self.new ≡ uncounted n self.old }
    {
        self.edge &= n == 0;
    }
}

// ---- the field test
impl Port {
    #[tactic(auto, unfolding(crate::specs::Valid::registers_valid))]
    fn registers_valid(self) -> bool
        ensures { result ≡ registers_valid self }
    {
        (self.spcr & 0x13 | 0xc0 == self.spcr)
            & ((self.scr & 8 == 0)
                & ((self.semr & 8 == self.semr)
                    & ((self.ircr & 0x70 == self.ircr)
                        & ((self.ssr & 3 == 0) & (self.seen & 3 == 0)))))
    }

    // The field test of number 8.
    #[tactic(auto, unfolding(crate::specs::Valid::valid))]
    pub fn valid(self) -> bool
        ensures { result ≡ valid self }
    {
        let registers = self.registers_valid();
        let sends = self.tx.valid(self.half);
        let receives = rx_valid(self.rx, self.half);
        let clocks = due_valid(self.sync_next, self.half);
        (self.half <= LIMIT)
            & (registers & (sends & (receives & ((self.bit_start <= self.half) & clocks))))
    }
}

// ---- what the clock above the port asks it
impl Port {
    // Halves pass: it runs on its internal clock.
    pub fn internal(self) -> bool
        ensures { result ≡ internal self }
    {
        let running = self.running();
        let external = self.external();
        running & !external
    }

    // Whether a write stores anything.
    pub fn takes_writes(self) -> bool
        ensures { result ≡ takes_writes self }
    {
        self.module & !self.reset_mode
    }

    // Whether power with these bits brings a reset.
    pub fn resets(self, bits: u32) -> bool
        ensures { result ≡ resets (has bits 1) (has bits 8) self }
    {
        ((bits & 1 == 0) & self.module) | ((bits & 8 != 0) & !self.reset_mode)
    }
}

// ---- direct calls
impl From<Refusal> for u8 {
    ghost from_gives = { λ refusal n. n ≡ number refusal };

    fn from(refusal: Refusal) -> u8 {
        refusal as u8
    }
}

impl Port {
    // The direct call, for any port.
    #[tactic(auto, unfolding(crate::specs::Calls::direct))]
    pub fn direct(self, call: Call) -> Result<Called, Refusal>
        ensures answer { answer self result ≡ direct call self }
        ensures cause { IfOk result (λ called. called.cause ≡ call_cause call self) }
    {
        if !self.valid() {
            return Err(Refusal::State);
        }
        let mut port = self;
        let Outcome { value, cause } = port.call(call)?;
        Ok(Called { value, cause, port })
    }
}
