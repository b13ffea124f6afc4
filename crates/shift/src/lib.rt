// The words that the port sends and receives: what the sender, the receiver and the holding place of sci.rs hold (document 01). A half at which something
// falls due is an `Option<u32>`; so is the holding place a byte or none, and the receiver a word or none.
#![tactic(auto)]

ghost use Rattle.std.specs.Prelude.{◌≡◌, ◌&&◌, ◌≤◌};
ghost use Rattle.shift.specs.Due.{within};
ghost use Rattle.shift.specs.Sender.{tx_next, tx_clocked};
ghost use Rattle.shift.specs.Receiver.{empty_word, armed, parity_error, framing_error, stopped, clocked_word, last_bit, rx_next, rx_clocked};
ghost use Rattle.shift.specs.Valid.{due_at, due_either, due_by, character_valid, cell_valid, tx_valid, position_valid, word_in_place, rx_valid};
ghost use Rattle.shift.specs.Private.Ready.{falling, starting};

use frame::Format;

mod cause;

pub use cause::{Cause, Errors};

#[derive(Clone, Copy, Debug, PartialEq, Eq)]
pub struct Character {
    pub format: Format,
    pub word: u16,
}

// The sender: absent, or in one of document 01's five states.
#[derive(Clone, Copy, Debug, PartialEq, Eq)]
pub enum Tx {
    Off,
    Blocked {
        character: Character,
    },
    Mark {
        next: u32,
    },
    Start {
        character: Character,
        next: u32,
    },
    Data {
        character: Character,
        cell: u8,
        next: Option<u32>,
    },
    // The next word, where one has been taken from the holding place.
    Tail {
        loaded: Option<Character>,
        next: Option<u32>,
    },
}

// A word being received. Position: -2 waits for a falling phase, -1 for the middle of the start cell, from 0 on it is the cell's number. The field test's
// bounds are of the signed number and C is told it, so it is no enum.
#[derive(Clone, Copy, Debug, PartialEq, Eq)]
pub struct Rx {
    pub format: Format,
    pub value: u8,
    pub position: i8,
    pub parity: bool,
    pub error: u8,
    pub next: Option<u32>,
}

// What a sample makes of the word in the receiver.
#[derive(Clone, Copy, Debug, PartialEq, Eq)]
pub enum Sampled {
    Dropped,
    Onward(Rx),
    Whole(Rx),
}

// The halves up to a due half ahead, at most left. A due half and the half count stand apart in the port, here and in the field test: a struct of both would
// be made for each call.
pub fn within(due: Option<u32>, half: u32, left: u32) -> u32
    ensures { result ≡ within due half left }
{
    match due {
        Some(n) if half < n => left.min(n - half),
        _ => left,
    }
}

impl Tx {
    // The half on which the sender acts next.
    pub fn next(self) -> Option<u32>
        ensures { result ≡ tx_next self }
    {
        match self {
            Tx::Off | Tx::Blocked { .. } => None,
            Tx::Mark { next } | Tx::Start { next, .. } => Some(next),
            Tx::Data { next, .. } | Tx::Tail { next, .. } => next,
        }
    }

    // Whether a clocked word is being sent.
    pub fn synchronous(self) -> bool
        ensures { result ≡ tx_clocked self }
    {
        match self {
            Tx::Data { next, .. } | Tx::Tail { next, .. } => next.is_none(),
            _ => false,
        }
    }
}

impl Rx {
    // The position is touched in these, and in the crate port's functions of a received word: everything else asks them. One test against a number in
    // place of three would put the numbers where the names now stand.
    pub fn falling(self) -> bool
        ensures { result ≡ falling self }
    {
        self.position == -2
    }

    pub fn starting(self) -> bool
        ensures { result ≡ starting self }
    {
        self.position == -1
    }

    pub fn last_bit(self) -> bool
        ensures { result ≡ last_bit self.position }
    {
        self.position == 7
    }

    // A word of which nothing has been received.
    fn empty(format: Format, position: i8, next: Option<u32>) -> Self
        ensures { result ≡ empty_word format position next }
    {
        Self {
            format,
            value: 0,
            position,
            parity: false,
            error: 0,
            next,
        }
    }

    // A new word, which waits for the next falling phase.
    pub fn armed(format: Format, next: u32) -> Self
        ensures { result ≡ armed format next }
    {
        Self::empty(format, -2, Some(next))
    }

    // A new word of clocked form.
    pub fn clocked(format: Format) -> Self
        ensures { result ≡ clocked_word format }
    {
        Self::empty(format, 0, None)
    }

    pub fn parity_error(self, high: bool) -> u8
        ensures { result ≡ parity_error high self }
    {
        if high ^ (self.parity ^ self.format.odd) {
            self.error | 8
        } else {
            self.error
        }
    }

    fn framing_error(self, high: bool) -> u8
        ensures { result ≡ framing_error high self }
    {
        if high { self.error } else { self.error | 0x10 }
    }

    // The first stop cell.
    pub fn stopped(self, high: bool) -> Self
        ensures { result ≡ stopped high self }
    {
        Self {
            error: self.framing_error(high),
            ..self
        }
    }
}

// ---- the receiver: a word or none
// The half on which it acts next.
pub fn rx_next(rx: Option<Rx>) -> Option<u32>
    ensures { result ≡ rx_next rx }
{
    rx.and_then(|rx| rx.next)
}

// Whether a clocked word is being received.
pub fn rx_synchronous(rx: Option<Rx>) -> bool
    ensures { result ≡ rx_clocked rx }
{
    rx.is_some_and(|rx| rx.format.synchronous)
}

// ---- the field test
// Whether a due half is 1 to 448 above the half count. In 64 bits, since no half count is ruled out yet.
fn due_at(half: u32, n: u32) -> bool
    ensures { result ≡ due_at half n }
{
    (half < n) & (u64::from(n) <= u64::from(half) + 448)
}

// Present or not. The two halves stand apart in the port, as in `within`.
pub fn due_valid(due: Option<u32>, half: u32) -> bool
    ensures { result ≡ due_either due half }
{
    due.is_none_or(|n| due_at(half, n))
}

// Present exactly for a start-stop word.
fn due_valid_for(due: Option<u32>, synchronous: bool, half: u32) -> bool
    ensures { result ≡ due_by due synchronous half }
{
    due.map_or(synchronous, |n| !synchronous & due_at(half, n))
}

impl Character {
    #[tactic(auto, unfolding(crate::specs::Valid::character_valid))]
    fn valid(self) -> bool
        ensures { result ≡ character_valid self }
    {
        self.format.holds(self.word)
    }

    fn cell_valid(self, cell: u8) -> bool
        ensures { result ≡ cell_valid self.format cell }
    {
        let end = if self.format.synchronous {
            8
        } else {
            self.format.stop()
        };
        u32::from(cell) < end
    }

    // A character and its cell stand apart in the sender's states: a struct of both would be made for each call.
    fn data_valid(self, cell: u8, next: Option<u32>, half: u32) -> bool
        ensures { result ≡ (character_valid self && (cell_valid self.format cell && due_by next self.format.synchronous half)) }
    {
        self.valid() & (self.cell_valid(cell) & due_valid_for(next, self.format.synchronous, half))
    }
}

impl Tx {
    pub fn valid(self, half: u32) -> bool
        ensures { result ≡ tx_valid self half }
    {
        match self {
            Tx::Off => true,
            Tx::Blocked { character } => character.valid(),
            Tx::Mark { next } => due_at(half, next),
            Tx::Start { character, next } => character.valid() & due_at(half, next),
            Tx::Data {
                character,
                cell,
                next,
            } => character.data_valid(cell, next, half),
            Tx::Tail { loaded, next } => {
                loaded.is_none_or(|character| character.valid()) & due_valid(next, half)
            }
        }
    }
}

impl Rx {
    // -2 to data bits plus parity, or 0 to 7 with clocked form.
    fn position_valid(self) -> bool
        requires { self.format.«data» ≤ 8 }
        ensures { result ≡ position_valid self.position self.format }
    {
        if self.format.synchronous {
            return (0..=7).contains(&self.position);
        }
        // The first stop cell's number is one more than data bits plus parity.
        (-2..self.format.stop() as i8).contains(&self.position)
    }

    #[tactic(auto, using(frame::proofs::Shifts::data_fits), unfolding(crate::specs::Valid::word_in_place))]
    pub fn valid(self, half: u32) -> bool
        ensures { result ≡ word_in_place self half }
    {
        if !self.format.valid() {
            return false;
        }
        let due = due_valid_for(self.next, self.format.synchronous, half);
        self.position_valid() & (matches!(self.error, 0 | 8) & due)
    }
}

// Whether the word, if there is one, passes it.
pub fn rx_valid(rx: Option<Rx>, half: u32) -> bool
    ensures { result ≡ rx_valid rx half }
{
    rx.is_none_or(|rx| rx.valid(half))
}
