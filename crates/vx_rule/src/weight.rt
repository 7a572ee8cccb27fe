//! Weights of trees, which bound their rewrites.

ghost use Rattle.std.specs.Prelude.{◌≡◌, ◌-◌, ◌≤◌, ◌++◌, ℕ, List, [], ◌∷◌};
ghost use Rattle.vx_tree.specs.Tree.{slots_of, function};
ghost use Rattle.vx_tree.specs.TreeView.{data_of};
ghost use Rattle.vx_tree.specs.Charges.{total, scaled};
ghost use Rattle.vx_tree.specs.Cost.{charge};
ghost use Rattle.vx_tree.specs.Weight.{weight, slots_weights};
ghost use Rattle.vx_rule.specs.Counts.{capped};
ghost use Rattle.vx_rule.specs.Weighings.{weighs, least, IsSummed, AreLeast};

use vx_fn::ScalarFnRef;
use vx_tree::{ArrayRef, Encoding};

/// How the weight of a node comes from the weights of its slots.
#[derive(Clone, Copy, Debug)]
enum Weighing {
    /// Their sum, and 3; of a node without rows, the sum of what each has above 3, and 3.
    Column,
    /// Their sum, 3 and this number.
    Added(u64),
    /// Their sum, twice.
    Doubled,
    /// Their sum, three times.
    Tripled,
    /// The square of their sum, and 4.
    Squared,
    /// Their product, and 10.
    Multiplied,
    /// Their sum, 2 for each, and 3.
    Enlarged,
}

/// What the weights of some slots come to. Every tree weighs at least 3, which is left out of `excess`. Each number stays at
/// `u64::MAX`.
#[derive(Clone, Copy, Debug)]
struct SlotWeights {
    count: u64,
    excess: u64,
    product: u64,
}

/// Returns the weight of `array`, or `u64::MAX` if that is less. (own)
pub fn weight_of(array: &ArrayRef) -> u64
    ensures { result ≡ capped (weight array.now) }
{
    excess_of(array).saturating_add(3)
}

/// Returns what `array` weighs above 3, the least weight, or `u64::MAX` if that is less.
#[cycle(weight)]
fn excess_of(array: &ArrayRef) -> u64
    ensures { result ≡ capped (weight array.now - least) }
{
    let slots = sum_slots(array.slots());
    slots.excess_by(weighing_of(array.encoding()), array.len())
}

/// Sums up the weights of the trees in `slots`.
#[cycle(weight)]
fn sum_slots(slots: &[Option<ArrayRef>]) -> SlotWeights
    ensures { IsSummed result (slots_weights (slots_of slots.now)) }
{
    let mut sums = SlotWeights {
        count: 0,
        excess: 0,
        product: 1,
    };
    for slot in slots {
        if let Some(child) = slot {
            sums = sums.with(excess_of(child));
        }
    }
    sums
}

/// Returns how a node of this encoding is weighed: a line for each encoding.
fn weighing_of(encoding: &Encoding) -> Weighing
    ensures { (n : ℕ) (ws : List ℕ) → weighs result n ws ≡ (charge (data_of encoding.now)).weight n ws }
{
    match encoding {
        Encoding::Constant(_) => Weighing::Added(0),
        Encoding::Slice(_) => Weighing::Doubled,
        Encoding::Filter(_) => Weighing::Tripled,
        Encoding::Masked(_) => Weighing::Added(5),
        Encoding::ScalarFnValidity(_) => Weighing::Added(1),
        Encoding::ScalarFn(data) => weighing_of_function(&data.scalar_fn),
        Encoding::Dict(_) => Weighing::Multiplied,
        Encoding::Chunked(_) => Weighing::Enlarged,
        Encoding::Interleave(_) => Weighing::Added(1),
        Encoding::Null(_) => Weighing::Column,
        Encoding::Bool(_) => Weighing::Column,
        Encoding::Primitive(_) => Weighing::Column,
        Encoding::Decimal(_) => Weighing::Column,
        Encoding::VarBinView(_) => Weighing::Column,
        Encoding::Struct(_) => Weighing::Column,
        Encoding::Extension(_) => Weighing::Column,
    }
}

/// Returns how a node of `scalar_fn` is weighed.
fn weighing_of_function(scalar_fn: &ScalarFnRef) -> Weighing
    ensures { (n : ℕ) (ws : List ℕ) → weighs result n ws ≡ (charge (function scalar_fn.now)).weight n ws }
{
    match scalar_fn {
        ScalarFnRef::GetItem(_) => Weighing::Squared,
        _ => Weighing::Added(1),
    }
}

impl SlotWeights {
    /// Returns the sums with one slot more, which weighs `excess` above 3.
    fn with(self, excess: u64) -> SlotWeights
        ensures { (ws : List ℕ) (w : ℕ) → IsSummed self ws → least ≤ w → excess ≡ capped (w - least) → IsSummed result (ws ++ w ∷ []) }
    {
        SlotWeights {
            count: self.count.saturating_add(1),
            excess: self.excess.saturating_add(excess),
            product: self.product.saturating_mul(excess.saturating_add(3)),
        }
    }

    /// Returns the sum of the weights.
    fn total(self) -> u64
        ensures { (ws : List ℕ) → IsSummed self ws → AreLeast ws → result ≡ capped (total ws) }
    {
        self.count.saturating_mul(3).saturating_add(self.excess)
    }

    /// Returns what a node of `len` rows over these slots weighs above 3.
    fn excess_by(self, weighing: Weighing, len: usize) -> u64
        ensures { (ws : List ℕ) → IsSummed self ws → AreLeast ws → result ≡ capped (weighs weighing len ws - least) }
    {
        match weighing {
            Weighing::Column if len == 0 => self.excess,
            Weighing::Column => self.total(),
            Weighing::Added(number) => self.total().saturating_add(number),
            Weighing::Doubled => self.scaled_excess(2),
            Weighing::Tripled => self.scaled_excess(3),
            Weighing::Squared => self.total().saturating_mul(self.total()).saturating_add(1),
            Weighing::Multiplied => self.product.saturating_add(7),
            Weighing::Enlarged => self.total().saturating_add(self.count.saturating_mul(2)),
        }
    }

    /// Returns what `factor` times the weights come to above 3.
    fn scaled_excess(self, factor: u64) -> u64
        requires { (2 ≤ factor) × (factor ≤ 3) }
        ensures { (ws : List ℕ) → IsSummed self ws → AreLeast ws → result ≡ capped (scaled factor 0 ws - least) }
    {
        if self.count == 0 {
            return 1;
        }
        let above = factor.saturating_mul(self.excess);
        let others = (3 * factor).saturating_mul(self.count - 1);
        above.saturating_add(others).saturating_add(3 * factor - 3)
    }
}
