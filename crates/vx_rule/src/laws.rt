//! Laws of the table. Each is a function with an empty body, whose contract is the law.

ghost use Rattle.std.specs.Prelude.{◌≡◌, ◌<◌, ℕ, List, Option, Some, true};
ghost use Rattle.vx_tree.specs.Tree.{Tree, len, datum, slice_of, is_constant, is_dict, is_columnar};
ghost use Rattle.vx_tree.specs.Well.{IsWell};
ghost use Rattle.vx_tree.specs.Slots.{IsPresent, HasSlot};
ghost use Rattle.vx_tree.specs.Keeps.{Keeps};
ghost use Rattle.vx_tree.specs.Weight.{weight};
ghost use Rattle.vx_rule.specs.Rules.{Row, IsQuiet, IsPart, ArePresent};
ghost use Rattle.vx_rule.specs.Pushes.{pushed};

/// States what every row does: its answer may stand for the tree, weighs less, and is another tree. One who is asked, the
/// node itself or the child in a slot, has at most one answer, and no two children have one. (own)
pub fn rule_laws()
    ensures keeps { (w : Option ℕ) (t u : Tree) (os : List ℕ) → IsWell t → Row w t u os → Keeps t u }
    ensures lighter { (w : Option ℕ) (t u : Tree) (os : List ℕ) → Row w t u os → weight u < weight t }
    ensures present { (w : Option ℕ) (t u : Tree) (os : List ℕ) → Row w t u os → ArePresent os u }
    ensures asked { (i : ℕ) (t u : Tree) (os : List ℕ) → Row (Some i) t u os → IsPresent i t }
    ensures determined { (w : Option ℕ) (t u v : Tree) (os ps : List ℕ) → Row w t u os → Row w t v ps → (u ≡ v) × (os ≡ ps) }
    ensures one_child { (i j : ℕ) (t u v : Tree) (os ps : List ℕ) → Row (Some i) t u os → Row (Some j) t v ps → i ≡ j }
    ensures moves { (w : Option ℕ) (t : Tree) (os : List ℕ) → ¬ Row w t t os }
{}

/// States when a child of a dictionary has an answer: a constant has one if it is the values, and no child has one if it is the
/// codes. So `TAKE_RULES` answers exactly if the constant is the values of a dictionary. (own)
pub fn take_laws()
    ensures values { (t c : Tree) → IsWell t → is_dict (datum t) ≡ true → HasSlot 1 c t → is_constant (datum c) ≡ true
        → (u : Tree) × (os : List ℕ) × Row (Some 1) t u os }
    ensures codes { (i : ℕ) (t : Tree) → is_dict (datum t) ≡ true → (i ≡ 1 → ⊥) → IsQuiet (Some i) t }
{}

/// States where a slice that is pushed down stops: of some rows, but not all, it is a lazy slice exactly if no row of the child
/// fits. A column or constant gives the answer of its row. (own)
pub fn push_laws()
    ensures stops { (a b : ℕ) (t : Tree) → IsPart a b (len t) → IsQuiet (Some 0) (slice_of a b t) → pushed a b t ≡ slice_of a b t }
    ensures passes { (a b : ℕ) (t u : Tree) (os : List ℕ) → Row (Some 0) (slice_of a b t) u os → ¬ (pushed a b t ≡ slice_of a b t) }
    ensures column { (a b : ℕ) (t u : Tree) (os : List ℕ) → is_columnar (datum t) ≡ true → Row (Some 0) (slice_of a b t) u os → pushed a b t ≡ u }
{}
