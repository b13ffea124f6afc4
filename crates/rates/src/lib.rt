// The clock setting whose bit rate is nearest to a wanted one (document 02, "Three"). Of the 256 settings with one divider and one cell length a quotient
// gives the two that can be the nearest, so that six divisions decide.
#![tactic(auto)]

ghost use Rattle.std.specs.Prelude.{◌≡◌, ◌≤◌, ◌<◌, false, IfOk, IfErr};
ghost use Rattle.rates.specs.Rates.{code, divider, semr, cell, period, miss, closer, column, nearest_of, nearest, InRange, in_range, judged, nearest_rate, number, answer};

// A clock select of the system clock: SMR bits 0 and 1. The select of the watch clock, 1, is none of them.
#[derive(Clone, Copy, Debug, PartialEq, Eq)]
pub enum Select {
    System = 0,
    System16 = 2,
    System64 = 3,
}

// What is set for a bit rate.
#[derive(Clone, Copy, Debug, PartialEq, Eq)]
pub struct Setting {
    pub select: Select,
    // SEMR bit 3: a cell is 16 halves, not 32.
    pub short_cell: bool,
    pub brr: u8,
}

// How far a rate is from the wanted one, as a part of the wanted one: not reduced, and positive where it is too fast.
#[derive(Clone, Copy, Debug, PartialEq, Eq)]
pub struct Fraction {
    pub numerator: i64,
    pub denominator: u64,
}

#[derive(Clone, Copy, Debug, PartialEq, Eq)]
pub struct Rate {
    pub setting: Setting,
    pub error: Fraction,
}

// Why there is no setting, with document 02's numbers.
#[derive(Clone, Copy, Debug, PartialEq, Eq)]
pub enum Refusal {
    // A number is outside its range.
    Range = 11,
    // The nearest setting misses by more than the tolerance.
    Tolerance = 12,
}

impl From<Select> for u8 {
    ghost from_gives = { λ select n. n ≡ code select };

    fn from(select: Select) -> u8 {
        select as u8
    }
}

impl From<Refusal> for u8 {
    ghost from_gives = { λ refusal n. n ≡ number refusal };

    fn from(refusal: Refusal) -> u8 {
        refusal as u8
    }
}

impl Select {
    // The system cycles of one tick.
    fn divider(self) -> u64
        ensures value { result ≡ divider self }
        ensures small { (1 ≤ result) × (result ≤ 64) }
    {
        match self {
            Select::System => 1,
            Select::System16 => 16,
            Select::System64 => 64,
        }
    }
}

impl Setting {
    // SEMR for this cell.
    pub fn semr(self) -> u8
        ensures { result ≡ semr self.short_cell }
    {
        if self.short_cell { 8 } else { 0 }
    }

    // The halves of one cell.
    pub fn cell(self) -> u64
        ensures value { result ≡ cell self.short_cell }
        ensures small { (1 ≤ result) × (result ≤ 32) }
    {
        if self.short_cell { 16 } else { 32 }
    }

    // The system cycles of one cell.
    #[tactic(auto, unfolding(crate::specs::Rates::period))]
    fn period(self) -> u64
        ensures value { result ≡ period self }
        ensures small { (1 ≤ result) × (result ≤ 524288) }
    {
        self.select.divider() * self.cell() * (u64::from(self.brr) + 1)
    }
}

// What a site gives, each number within its range: the clock in Hz, the rate in bits a second, the tolerance in parts per ten thousand.
#[derive(Clone, Copy)]
struct Wanted {
    clock: u64,
    rate: u64,
    tolerance: u64,
    ghost in_range: { InRange clock rate tolerance },
}

impl Wanted {
    fn new(clock: u64, rate: u64, tolerance: u64) -> Result<Self, Refusal>
        ensures found { IfOk result (λ w. (w.clock ≡ clock) × (w.rate ≡ rate) × (w.tolerance ≡ tolerance)) }
        ensures refused { IfErr result (λ e. (e ≡ Refusal.Range) × (in_range clock rate tolerance ≡ false)) }
    {
        let clock_fits = (1..=20_000_000).contains(&clock);
        let rate_fits = (1..=1_000_000).contains(&rate);
        if !(clock_fits & rate_fits & (tolerance <= 10_000)) {
            return Err(Refusal::Range);
        }
        Ok(Self {
            clock,
            rate,
            tolerance,
        })
    }

    // How far the rate of a setting is from the wanted one, times its period.
    fn miss(self, setting: Setting) -> u64
        ensures value { result ≡ miss self.clock self.rate setting }
        ensures small { result ≤ 524288000000 }
    {
        self.clock.abs_diff(self.rate * setting.period())
    }

    // The second setting where it is nearer, else the first. The products are below 2 to the 58th.
    #[tactic(auto, unfolding(crate::specs::Rates::nearer))]
    fn closer(self, best: Setting, next: Setting) -> Setting
        ensures { result ≡ closer self.clock self.rate best next }
    {
        if self.miss(next) * best.period() < self.miss(best) * next.period() {
            next
        } else {
            best
        }
    }

    // The best so far against the 256 settings of a column.
    fn nearest_in(self, best: Setting, select: Select, short_cell: bool) -> Setting
        ensures { result ≡ nearest_of self.clock self.rate best (column select short_cell 0 256) }
    {
        let first = Setting {
            select,
            short_cell,
            brr: 0,
        };
        // So many of these rates, were there no end of them, are not below the wanted one.
        let count = self.clock / (self.rate * first.period());
        let last_above = Setting {
            brr: count.saturating_sub(1).min(255) as u8,
            ..first
        };
        let first_below = Setting {
            brr: count.min(255) as u8,
            ..first
        };
        self.closer(self.closer(best, last_above), first_below)
    }

    // The first of the nearest among all 1,536 settings.
    #[tactic(auto, using(crate::proofs::Order::nearest_append), unfolding(crate::specs::Rates::nearest, crate::specs::Rates::settings))]
    fn nearest(self) -> Setting
        ensures { result ≡ nearest self.clock self.rate }
    {
        let first = Setting {
            select: Select::System,
            short_cell: false,
            brr: 0,
        };
        let best = self.nearest_in(first, Select::System, false);
        let best = self.nearest_in(best, Select::System, true);
        let best = self.nearest_in(best, Select::System16, false);
        let best = self.nearest_in(best, Select::System16, true);
        let best = self.nearest_in(best, Select::System64, false);
        self.nearest_in(best, Select::System64, true)
    }

    // The nearest setting with its error, where that is within the tolerance.
    #[tactic(auto, unfolding(crate::specs::Rates::judged))]
    fn answer(self) -> Result<Rate, Refusal>
        ensures { answer result ≡ judged self.clock self.rate self.tolerance (nearest self.clock self.rate) }
    {
        let setting = self.nearest();
        let denominator = self.rate * setting.period();
        if self.miss(setting) * 10_000 > self.tolerance * denominator {
            return Err(Refusal::Tolerance);
        }
        let numerator = self.clock as i64 - denominator as i64;
        Ok(Rate {
            setting,
            error: Fraction {
                numerator,
                denominator,
            },
        })
    }
}

// The setting whose rate is nearest to the wanted one, if it misses that by no more than the tolerance: of a clock in Hz, a rate in bits a second and a
// tolerance in parts per ten thousand.
#[tactic(auto, unfolding(crate::specs::Rates::nearest_rate))]
pub fn nearest_rate(clock: u64, rate: u64, tolerance: u64) -> Result<Rate, Refusal>
    ensures { answer result ≡ nearest_rate clock rate tolerance }
{
    Wanted::new(clock, rate, tolerance)?.answer()
}
