ghost use Rattle.std.specs.Prelude.{◌≡◌, ◌≤◌};
ghost use Rattle.fault_count.specs.Counts.{one_more, sum_of};

use std::marker::Model;

/// How often something failed. Contracts see the number, which stands still at `COUNT_MAX`.
#[derive(Debug, Drop)]
pub struct FaultCount {
    number: u64,
}

impl Model for FaultCount {
    ghost use Rattle.std.specs.Prelude.{ℕ, ◌<◌, ◌^◌};

    ghost Value = { ℕ };

    ghost view = { λ c. c.number };

    ghost invariant = { λ c. c.number < 2 ^ 64 };
}

impl FaultCount {
    /// No failure yet.
    pub const fn new() -> FaultCount
        ensures { result ≡ 0 }
    {
        FaultCount { number: 0 }
    }

    /// One failure more.
    pub fn rise(&mut self)
        ensures risen { self.new ≡ one_more self.old }
        ensures later { self.old ≤ self.new }
    {
        self.number = self.number.saturating_add(1);
    }

    /// So many failures more.
    pub fn rise_by(&mut self, more: u64)
        ensures risen { self.new ≡ sum_of self.old more }
        ensures later { self.old ≤ self.new }
    {
        self.number = self.number.saturating_add(more);
    }

    /// How many there were.
    pub fn get(&self) -> u64
        ensures { result ≡ self.now }
    {
        self.number
    }
}
