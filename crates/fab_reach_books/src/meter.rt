//! How many questions were asked.
ghost use Rattle.std.specs.Prelude.{◌≡◌, ◌+◌, ◌-◌, min};
ghost use Rattle.fab_reach_books.specs.Counts.{most_asked};

use std::marker::Model;

/// A count of questions. A contract sees the number.
#[derive(Drop)]
pub struct Meter {
    asked: u64,
}

impl Model for Meter {
    ghost use Rattle.std.specs.Prelude.{ℕ};
    ghost use Rattle.std.specs.Coded.{coded_ℕ};

    ghost Value = { ℕ };

    ghost coded = { coded_ℕ };

    ghost view = { λ a. a.asked };
}

impl Meter {
    /// Nothing was asked yet.
    pub fn new() -> Self
        ensures { result ≡ 0 }
    {
        Meter { asked: 0 }
    }

    /// How many questions were asked. At its greatest value the count stays.
    pub fn count(&self) -> u64
        ensures { result ≡ self.now }
    {
        self.asked
    }

    /// Adds the rise of another count.
    pub fn add(&mut self, before: u64, after: u64)
        ensures { self.new ≡ min (self.old + (after - before)) most_asked }
    {
        self.asked = self.asked.saturating_add(after.saturating_sub(before));
    }
}
