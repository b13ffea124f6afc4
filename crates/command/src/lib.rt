// The commands of a script (document 01, "A script comes in", and document 02, "Two"): what each does, its kind and that kind's number, and the table of
// kinds with the range of each operand. Port, its clock, script, player and the exported calls share it.
#![tactic(auto)]

ghost use Rattle.std.specs.Prelude.{◌≡◌, Some};
ghost use Rattle.command.specs.Command.{Decodes, code, kind, operands_of, call_of, command_of};

// A direct call of the port: kinds 1 to 7 with their operands.
#[derive(Clone, Copy, Debug, PartialEq, Eq)]
pub enum Call {
    // Reads a register.
    Read { address: u32 },
    // Writes a register.
    Write { address: u32, value: u32 },
    // Lets so many halves pass.
    Wait { halves: u32 },
    // Sets the receive line.
    Line { line: u32 },
    // Sets clock pin and line.
    Pins { clock: u32, line: u32 },
    // Power: 1 module, 2 main clock, 4 subclock, 8 reset mode.
    Power { bits: u32 },
    // Time passes inside a half.
    Inside,
}

// A clock whose cycles a script lets pass.
#[derive(Clone, Copy, Debug, PartialEq, Eq)]
pub enum Source {
    System,
    Watch,
}

// A command: a call of the port, or cycles of a clock, kind 8 of the system clock and kind 9 of the watch clock.
#[derive(Clone, Copy, Debug, PartialEq, Eq)]
pub enum Command {
    OnPort { call: Call },
    Cycles { source: Source, cycles: u32 },
}

impl Call {
    pub fn kind(self) -> Kind
        ensures { code result ≡ kind (Command.OnPort self) }
    {
        match self {
            Call::Read { .. } => Kind::Read,
            Call::Write { .. } => Kind::Write,
            Call::Wait { .. } => Kind::Wait,
            Call::Line { .. } => Kind::Line,
            Call::Pins { .. } => Kind::Pins,
            Call::Power { .. } => Kind::Power,
            Call::Inside => Kind::Inside,
        }
    }
}

impl Command {
    pub fn kind(self) -> Kind
        ensures { code result ≡ kind self }
    {
        match self {
            Command::OnPort { call } => call.kind(),
            Command::Cycles {
                source: Source::System,
                ..
            } => Kind::System,
            Command::Cycles {
                source: Source::Watch,
                ..
            } => Kind::Watch,
        }
    }
}

// What a command begins with, by its number.
#[derive(Clone, Copy, Debug, PartialEq, Eq)]
pub enum Kind {
    Read = 1,
    Write = 2,
    Wait = 3,
    Line = 4,
    Pins = 5,
    Power = 6,
    Inside = 7,
    System = 8,
    Watch = 9,
}

// A number that is no kind's.
#[derive(Clone, Copy, Debug, PartialEq, Eq)]
pub struct UnknownKind(pub u32);

impl TryFrom<u32> for Kind {
    type Error = UnknownKind;

    ghost try_from_gives = { Decodes };

    fn try_from(number: u32) -> Result<Self, UnknownKind> {
        match number {
            1 => Ok(Kind::Read),
            2 => Ok(Kind::Write),
            3 => Ok(Kind::Wait),
            4 => Ok(Kind::Line),
            5 => Ok(Kind::Pins),
            6 => Ok(Kind::Power),
            7 => Ok(Kind::Inside),
            8 => Ok(Kind::System),
            9 => Ok(Kind::Watch),
            _ => Err(UnknownKind(number)),
        }
    }
}

impl From<Kind> for u8 {
    ghost from_gives = { λ k n. n ≡ code k };

    fn from(kind: Kind) -> u8 {
        kind as u8
    }
}

// The operands of a kind, by their largest values.
#[derive(Clone, Copy, Debug, PartialEq, Eq)]
pub enum Operands {
    None,
    One(u32),
    Two(u32, u32),
}

impl Kind {
    // The row of the table of kinds.
    pub fn operands(self) -> Operands
        ensures { Some result ≡ operands_of (code self) }
    {
        match self {
            Kind::Read => Operands::One(65535),
            Kind::Write => Operands::Two(65535, 255),
            Kind::Wait => Operands::One(65535),
            Kind::Line => Operands::One(1),
            Kind::Pins => Operands::Two(1, 1),
            Kind::Power => Operands::One(15),
            Kind::Inside => Operands::None,
            Kind::System => Operands::One(65535),
            Kind::Watch => Operands::One(65535),
        }
    }

    // The command of the kind, from its operands.
    pub fn command(self, a: u32, b: u32) -> Command
        ensures { result ≡ command_of (code self) a b }
    {
        let call = match self {
            Kind::Read => Call::Read { address: a },
            Kind::Write => Call::Write {
                address: a,
                value: b,
            },
            Kind::Wait => Call::Wait { halves: a },
            Kind::Line => Call::Line { line: a },
            Kind::Pins => Call::Pins { clock: a, line: b },
            Kind::Power => Call::Power { bits: a },
            Kind::Inside => Call::Inside,
            Kind::System => {
                return Command::Cycles {
                    source: Source::System,
                    cycles: a,
                };
            }
            Kind::Watch => {
                return Command::Cycles {
                    source: Source::Watch,
                    cycles: a,
                };
            }
        };
        Command::OnPort { call }
    }
}

// The command of a kind's number, from its operands. It is public and takes any number: one that is no kind's is taken as kind 7.
pub fn command_of(kind: u32, a: u32, b: u32) -> Command
    ensures { result ≡ command_of kind a b }
{
    match Kind::try_from(kind) {
        Ok(kind) => kind.command(a, b),
        Err(_) => Command::OnPort { call: Call::Inside },
    }
}
