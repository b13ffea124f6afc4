// A character's format, latched when a word is loaded or its reception begins, and the word of a value in it.
#![tactic(auto)]

ghost use Rattle.std.specs.Prelude.{◌≡◌, true, cond, ◌&&◌, ◌+◌, ◌≤◌, ◌-◌, ◌^◌};
ghost use Rattle.frame.specs.Frame.{has, format, stop, cells, word, format_valid, data_of, word_valid};

#[derive(Clone, Copy, Debug, PartialEq, Eq)]
pub struct Format {
    pub synchronous: bool,
    pub data: u8,
    pub parity: bool,
    // Kept without a parity cell too: SMR's bit is latched, and C has a place for it. So the two are no `Option`.
    pub odd: bool,
    pub stops: u8,
    pub half_bit: u32,
}

// How many data bits SMR asks for.
fn data_bits(smr: u8) -> u8
    ensures { result ≡ cond (has smr 0x80) 8 (cond (has smr 4) 5 (cond (has smr 0x40) 7 8)) }
{
    if smr & 0x80 != 0 {
        8
    } else if smr & 4 != 0 {
        5
    } else if smr & 0x40 != 0 {
        7
    } else {
        8
    }
}

// The one or the other by bit 3 of a register: SMR's chooses the stop bits, SEMR's the length of a cell.
fn by_bit_3<T: Copy>(register: u8, set: T, clear: T) -> T
    ensures { result ≡ cond (has register 8) set clear }
{
    if register & 8 != 0 { set } else { clear }
}

// A number whose n low bits are set.
fn low_ones(n: u8) -> u16
    requires { n ≤ 8 }
    ensures { result ≡ 2 ^ n - 1 }
{
    (1 << n) - 1
}

impl Format {
    // The format that SMR and SEMR give.
    #[tactic(auto, using(crate::proofs::Words::good_format), unfolding(crate::specs::Frame::format))]
    pub fn new(smr: u8, semr: u8) -> Self
        ensures value { result ≡ format smr semr }
        ensures formed { format_valid result ≡ true }
    {
        let synchronous = smr & 0x80 != 0;
        let short = smr & 4 != 0;
        let data = data_bits(smr);
        let parity = !synchronous & (smr & 0x20 != 0) & (!short | (smr & 0x40 != 0));
        let odd = smr & 0x10 != 0;
        let stops = by_bit_3(smr, 2, 1);
        let half_bit = by_bit_3(semr, 16, 32);
        Self {
            synchronous,
            data,
            parity,
            odd,
            stops,
            half_bit,
        }
    }

    // The number of the first stop cell.
    pub fn stop(self) -> u32
        ensures value { result ≡ stop self }
        ensures small { result ≤ self.«data» + 2 }
    {
        1 + u32::from(self.data) + u32::from(self.parity)
    }

    // The number of cells.
    pub fn cells(self) -> u32
        ensures { result ≡ cells self }
    {
        self.stop() + u32::from(self.stops)
    }

    // The word of a value. A format that no registers give has none: 0.
    pub fn word(self, value: u8) -> u16
        ensures { result ≡ cond (format_valid self) (word self value) 0 }
    {
        if self.valid() {
            self.word_of(u16::from(value))
        } else {
            0
        }
    }

    // Whether some registers give this format.
    #[tactic(auto, unfolding(crate::specs::Frame::format_valid))]
    pub fn valid(self) -> bool
        ensures { result ≡ format_valid self }
    {
        let data = matches!(self.data, 5 | 7 | 8);
        let stops = matches!(self.stops, 1 | 2);
        let half_bit = matches!(self.half_bit, 16 | 32);
        let clocked = !self.synchronous | (self.data == 8) & !self.parity;
        data & stops & half_bit & clocked
    }

    // Whether this is a format that registers give, and the word one that a value gives in it.
    #[tactic(auto, unfolding(crate::specs::Frame::word_valid))]
    pub fn holds(self, word: u16) -> bool
        ensures { result ≡ (format_valid self && word_valid self word) }
    {
        if self.valid() {
            self.word_of(self.data_of(word)) == word
        } else {
            false
        }
    }

    // The word of a value, in a format that registers give. Without a parity cell its bit is 0, and the stops stand in its place.
    #[tactic(auto, using(crate::proofs::Shifts::data_fits, crate::proofs::Shifts::stops_fit))]
    fn word_of(self, value: u16) -> u16
        requires { format_valid self ≡ true }
        ensures { result ≡ word self value }
    {
        if self.synchronous {
            return value & 0xff;
        }
        let bits = value & low_ones(self.data);
        let parity_bit = (bits.count_ones() + u32::from(self.odd)) % 2;
        let parity_cell = u16::from(self.parity) * parity_bit as u16;
        bits << 1 | parity_cell << (self.data + 1) | low_ones(self.stops) << self.stop()
    }

    // The value in a word.
    #[tactic(auto, using(crate::proofs::Shifts::data_fits))]
    fn data_of(self, word: u16) -> u16
        requires { format_valid self ≡ true }
        ensures { result ≡ data_of self word }
    {
        if self.synchronous {
            return word;
        }
        word >> 1 & low_ones(self.data)
    }
}
