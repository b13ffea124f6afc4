// The counter that makes halves of a clock's cycles, by arithmetic: a divider, and ticks counted down from a reload (baud.rs).
#![tactic(auto)]

ghost use Rattle.std.specs.Prelude.{◌<◌, ◌≤◌};

// The counter as the cycles of a clock drive it: whether they do, how many make a tick, how many there were, the ticks to the next half and from half to half.
#[derive(Clone, Copy)]
pub struct Counter {
    pub runs: bool,
    pub divider: u64,
    pub total: u64,
    pub remaining: u16,
    pub reload: u16,
    pub ghost sound: { (0 < divider) × (total ≤ 281474976710656) × (0 < remaining) × (remaining ≤ 256) × (0 < reload) × (reload ≤ 256) },
}

// What cycles make of it: the halves that they count, the ticks to the next half after them, and whether the last one counts a half or there is none.
#[derive(Clone, Copy)]
pub struct Passed {
    pub halves: u16,
    pub remaining: u16,
    pub at_edge: bool,
}

impl Counter {
    ghost use Rattle.std.specs.Prelude.{◌≡◌};
    ghost use Rattle.sci.specs.Private.Steps.{ticks_by, halves_by, left_by, last_is_tick, edge_by};

    // The ticks in n cycles. The dividers that SMR has stand by themselves: the compiler makes shifts of them.
    #[tactic(auto, using(crate::proofs::Count::ticks_few, crate::proofs::Count::ticks_one), unfolding(crate::specs::Count::ticks_in))]
    fn ticks(self, n: u16) -> u64
        ensures value { result ≡ ticks_by self n }
        ensures few { result ≤ n }
    {
        let n = u64::from(n);
        match self.divider {
            1 => n,
            16 => (self.total + n) / 16 - self.total / 16,
            64 => (self.total + n) / 64 - self.total / 64,
            divider => (self.total + n) / divider - self.total / divider,
        }
    }

    // Whether the last of n cycles is a tick.
    fn last_is_tick(self, n: u16) -> bool
        ensures { result ≡ last_is_tick self n }
    {
        let total = self.total + u64::from(n);
        match self.divider {
            1 => true,
            16 => total % 16 == 0,
            64 => total % 64 == 0,
            divider => total % divider == 0,
        }
    }

    // What n cycles make of the count, by one division of the ticks past the next half.
    #[tactic(auto, using(crate::proofs::Count::rest_below, crate::proofs::Count::edge_last), unfolding(crate::specs::Private::Steps::halves_by, crate::specs::Private::Steps::left_by, crate::specs::Count::halves_in, crate::specs::Count::left_in))]
    pub fn passed(self, n: u16) -> Passed
        ensures halves { result.halves ≡ halves_by self n }
        ensures few { result.halves ≤ n }
        ensures remaining { result.remaining ≡ left_by self n }
        ensures within { (0 < result.remaining) × (result.remaining ≤ 256) }
        ensures at_edge { result.at_edge ≡ edge_by self n }
    {
        let ticks = self.ticks(n) as u16;
        if !self.runs {
            return Passed {
                halves: 0,
                remaining: self.remaining,
                at_edge: n == 0,
            };
        }
        if ticks < self.remaining {
            return Passed {
                halves: 0,
                remaining: self.remaining - ticks,
                at_edge: n == 0,
            };
        }
        let past = ticks - self.remaining;
        let rest = past % self.reload;
        let tick = self.last_is_tick(n);
        Passed {
            halves: past / self.reload + 1,
            remaining: self.reload - rest,
            at_edge: tick & (rest == 0),
        }
    }
}
