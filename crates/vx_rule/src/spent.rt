//! A count of what answers cost.

ghost use Rattle.std.specs.Prelude.{◌≡◌, ◌+◌, ◌≤◌};
ghost use Rattle.vx_rule.specs.Counts.{capped, price};

use crate::weight::weight_of;
use vx_tree::ArrayRef;

/// What the answers of a rule or kernel cost so far. Stays at `u64::MAX`. (own)
#[derive(Debug, Drop)]
pub struct Spent {
    total: u64,
}

impl Spent {
    /// Returns a count of nothing.
    pub fn new() -> Spent
        ensures { result.total ≡ 0 }
    {
        Spent { total: 0 }
    }

    /// Counts an answer: 1, and the weight of `tree`.
    pub fn answered(&mut self, tree: &ArrayRef)
        ensures total { self.new.total ≡ capped (self.old.total + price tree.now) }
        ensures kept { self.old.total ≤ self.new.total }
    {
        self.took(weight_of(tree));
        self.took(1);
    }

    /// Counts `number`: turns that were taken, for example.
    pub fn took(&mut self, number: u64)
        ensures total { self.new.total ≡ capped (self.old.total + number) }
        ensures kept { self.old.total ≤ self.new.total }
    {
        self.total = self.total.saturating_add(number);
    }

    /// Returns the count.
    pub fn count(&self) -> u64
        ensures { result ≡ self.now.total }
    {
        self.total
    }
}

impl Default for Spent {
    fn default() -> Spent
        ensures { result.total ≡ 0 }
    {
        Spent::new()
    }
}
