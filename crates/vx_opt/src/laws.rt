//! Laws of rewriting. Each is a function with an empty body, whose contract is the law.

ghost use Rattle.std.specs.Prelude.{ℕ, suc, ◌+◌, Bool, List, [], ◌∷◌, ◌++◌};
ghost use Rattle.vx_mask.specs.Places.{combined};
ghost use Rattle.vx_tree.specs.Tree.{Tree, slice_of, filter_of};
ghost use Rattle.vx_tree.specs.Slots.{HasSlot, put};
ghost use Rattle.vx_tree.specs.Keeps.{Keeps};
ghost use Rattle.vx_tree.specs.Well.{IsWell};
ghost use Rattle.vx_tree.specs.Weight.{weight};
ghost use Rattle.vx_rule.specs.Rules.{Rewrites};
ghost use Rattle.vx_opt.specs.Select.{IsRange, IsMaskOf};
ghost use Rattle.vx_opt.specs.Derives.{Step, Reaches, ReachesAt, IsAtPlace, at_here, below_all};
ghost use Rattle.vx_opt.specs.Pass.{Optimizes, ComesTo};
ghost use Rattle.vx_opt.specs.Descends.{Descends, DescendsTo};
ghost use Rattle.vx_opt.specs.Answers.{IsRewritten};

/// States how rewrites compose: one at the root, one after another, those below a slot, and an answer that isn't from a row.
/// (own)
pub fn deriving_laws()
    ensures row { (t u : Tree) (os : List ℕ) → IsWell t → Rewrites t u os → Reaches t u (at_here ∷ []) }
    ensures after { (t u v : Tree) (ps qs : List Step) → Reaches t u ps → Reaches u v qs → Reaches t v (ps ++ qs) }
    ensures inside { (i : ℕ) (c d t : Tree) (ps : List Step) → HasSlot i c t → Reaches c d ps → Reaches t (put i d t) (below_all i ps) }
    ensures handed_in { (t u : Tree) → Keeps t u → Reaches t u (record { place = []; spent = suc (weight u) } ∷ []) }
{}

/// States that passes are rewrites that were counted: what they make may stand for the tree, and they lower its weight unless an entry that was
/// handed in answered; and the rewrite to which they come is made at one place, with at least as many before it there. (own)
pub fn optimizing_laws()
    ensures optimizes { (t u : Tree) (n s : ℕ) → Optimizes t u n s → IsRewritten t u n s }
    ensures descends { (t u : Tree) (n s : ℕ) → Descends t u n s → IsRewritten t u n s }
    ensures comes { (t u : Tree) (k n s : ℕ) → ComesTo t u k n s → ReachesAt t u k n s }
    ensures descends_to { (t : Tree) (k n s : ℕ) → DescendsTo t k n s → IsAtPlace t k n s }
{}

/// States that a slice of a slice may stand for the one slice, and a filter of a filter for the filter by the combined mask, whatever
/// stood for the choices in between. (own)
pub fn selecting_laws()
    ensures slices { (t u v : Tree) (a b c d : ℕ) → IsRange a b t → IsRange c d (slice_of a b t)
        → Keeps (slice_of a b t) u → Keeps (slice_of c d u) v → Keeps (slice_of (a + c) (a + d) t) v }
    ensures filters { (t u v : Tree) (outer inner : List Bool) → IsMaskOf inner (filter_of outer t)
        → Keeps (filter_of outer t) u → Keeps (filter_of inner u) v → Keeps (filter_of (combined outer inner) t) v }
{}
