//! How many answers are as they have to be.

/// How many answers are as they have to be, and how many are not.
#[derive(Clone, Copy)]
pub struct Tally {
    /// How many are.
    pub right: u64,
    /// How many are not.
    pub wrong: u64,
}

impl Tally {
    /// That of no answers.
    pub fn new() -> Self {
        Tally { right: 0, wrong: 0 }
    }

    /// Counts one more. At 18446744073709551615 a count stays.
    pub fn count(&mut self, is_right: bool) {
        if is_right {
            self.right = self.right.saturating_add(1);
        } else {
            self.wrong = self.wrong.saturating_add(1);
        }
    }
}
