// Why a flag rose: which rule of the manual's receive error table applied when a word was completed.
#![tactic(auto)]

ghost use Rattle.std.specs.Prelude.{◌≡◌};
ghost use Rattle.shift.specs.Cause.{errors_of, cause_of, followed_by, cause_number};

// A word's own errors.
#[derive(Clone, Copy, Debug, PartialEq, Eq)]
pub enum Errors {
    Clean = 0,
    Parity = 1,
    Framing = 2,
    Both = 3,
}

// What a step answers that can complete a word.
#[derive(Clone, Copy, Debug, PartialEq, Eq)]
pub enum Cause {
    NoWord,
    // RDR takes the word.
    Taken(Errors),
    // RDRF was set, and the word is lost.
    Overrun(Errors),
}

impl Errors {
    // By the bits that the word adds to SSR.
    fn of(error: u8) -> Self
        ensures { result ≡ errors_of error }
    {
        if error & 8 != 0 {
            if error & 0x10 != 0 {
                return Errors::Both;
            }
            return Errors::Parity;
        }
        if error & 0x10 != 0 {
            return Errors::Framing;
        }
        Errors::Clean
    }
}

impl Cause {
    // Of a completed word, by RDRF before it and the word's error bits.
    pub fn of(full: bool, error: u8) -> Self
        ensures { result ≡ cause_of full error }
    {
        let errors = Errors::of(error);
        if full {
            Cause::Overrun(errors)
        } else {
            Cause::Taken(errors)
        }
    }

    // Of two steps, one after the other: the last completed word's.
    pub fn followed_by(self, last: Cause) -> Self
        ensures { result ≡ followed_by self last }
    {
        match last {
            Cause::NoWord => self,
            _ => last,
        }
    }
}

impl From<Cause> for u8 {
    ghost from_gives = { λ cause n. n ≡ cause_number cause };

    fn from(cause: Cause) -> u8 {
        match cause {
            Cause::NoWord => 0,
            Cause::Taken(errors) => 1 + errors as u8,
            Cause::Overrun(errors) => 5 + errors as u8,
        }
    }
}
