// What is seen of the port from outside: the pins that it drives or uses, and its interrupt request (`pins` and `interrupt` of sci.rs). Nothing here changes a port.
#![tactic(auto)]

ghost use Rattle.std.specs.Prelude.{◌≡◌};
ghost use Rattle.pins.specs.Pins.{transmit_level, clock_level, clock_drive, pins, interrupt, level_number};

use frame::Format;
use port::Port;

// signals.rs: how a pin is driven. The numbers are those of the C interface.
#[derive(Clone, Copy, Debug, PartialEq, Eq)]
pub enum Drive {
    Floating = 1,
    Low = 2,
    High = 3,
}

// The clock pin, where it is the port's; the transmit pin's level, where it is driven; whether the receive pin is used.
#[derive(Clone, Copy, Debug, PartialEq, Eq)]
pub struct Pins {
    pub clock: Option<Drive>,
    pub transmit: Option<bool>,
    pub receive: bool,
}

#[tactic(auto, unfolding(crate::specs::Pins::transmit_level))]
fn transmit_level(port: Port) -> Option<bool>
    ensures { result ≡ transmit_level port }
{
    (port.spcr & 0x10 != 0).then_some(port.uart ^ (port.spcr & 2 != 0))
}

// In start-stop form high in the second half of each cell.
#[tactic(auto, using(crate::proofs::Laws::spans))]
fn clock_level(port: Port) -> bool
    ensures { result ≡ clock_level port }
{
    if port.smr & 0x80 != 0 {
        return port.sck;
    }
    let span = Format::new(port.smr, port.semr).half_bit;
    port.half % span >= span / 2
}

fn clock_drive(port: Port) -> Option<Drive>
    ensures { result ≡ clock_drive port }
{
    if port.scr & 2 != 0 {
        Some(Drive::Floating)
    } else if (port.scr & 1 == 0) & (port.smr & 0x80 == 0) {
        None
    } else if clock_level(port) {
        Some(Drive::High)
    } else {
        Some(Drive::Low)
    }
}

// The pins that the port drives or uses. The clock drive just after clocked output ends is the part that document 01 leaves free.
impl From<Port> for Pins {
    ghost from_gives = { λ port r. r ≡ pins port };

    #[tactic(auto, unfolding(crate::specs::Pins::pins))]
    fn from(port: Port) -> Self {
        Self {
            clock: clock_drive(port),
            transmit: transmit_level(port),
            receive: port.scr & 0x10 != 0,
        }
    }
}

// The interrupt request.
#[tactic(auto, unfolding(crate::specs::Pins::interrupt))]
pub fn interrupt(port: Port) -> bool
    ensures { result ≡ interrupt port }
{
    port.module
        & (((port.ssr & 0x80 != 0) & (port.scr & 0x80 != 0))
            | (((port.ssr & 0x78 != 0) & (port.scr & 0x40 != 0))
                | ((port.ssr & 4 != 0) & (port.scr & 4 != 0))))
}

// Document 01's transmit level: 0, 1, or 2 when not driven. No `From`: both types are the library's.
pub fn level_number(transmit: Option<bool>) -> u8
    ensures { result ≡ level_number transmit }
{
    transmit.map_or(2, |high| u8::from(high))
}
