// The nine registers.
#![tactic(auto)]

use super::Refusal;

// A register, by its address.
#[derive(Clone, Copy, Debug, PartialEq, Eq)]
pub enum Register {
    Spcr = 0xff91,
    Smr = 0xff98,
    Brr = 0xff99,
    Scr = 0xff9a,
    Tdr = 0xff9b,
    Ssr = 0xff9c,
    Rdr = 0xff9d,
    Semr = 0xffa6,
    Ircr = 0xffa7,
}

impl TryFrom<u32> for Register {
    type Error = Refusal;

    ghost use Rattle.std.specs.Prelude.{◌≡◌, false, MatchResult};
    ghost use Rattle.port.specs.Registers.{address, handles};
    ghost use Rattle.port.specs.declared.Refusal.TheVariants.{Address};

    ghost try_from_gives = { λ a result. MatchResult result (λ register. address register ≡ a) (λ refusal. (handles a ≡ false) × (refusal ≡ Address)) };

    fn try_from(a: u32) -> Result<Self, Refusal> {
        match a {
            0xff91 => Ok(Register::Spcr),
            0xff98 => Ok(Register::Smr),
            0xff99 => Ok(Register::Brr),
            0xff9a => Ok(Register::Scr),
            0xff9b => Ok(Register::Tdr),
            0xff9c => Ok(Register::Ssr),
            0xff9d => Ok(Register::Rdr),
            0xffa6 => Ok(Register::Semr),
            0xffa7 => Ok(Register::Ircr),
            _ => Err(Refusal::Address),
        }
    }
}
