//! Laws of trees. Each is a function with an empty body, whose contract is the law.

ghost use Rattle.std.specs.Prelude.{◌≡◌, ◌+◌, ◌-◌, ◌*◌, ◌<◌, ◌≤◌, ℕ, Bool, List, true, ◌↔◌, Option, None};
ghost use Rattle.vx_value.specs.Types.{DataType};
ghost use Rattle.vx_value.specs.Typed.{Typed};
ghost use Rattle.vx_tree.specs.Tree.{Tree, Slots, Data, len, slice_of, filter_of, node, constant, slice, filter, masked, is_valid, function, dict, chunked, interleave, slot, no_slots, is_canonical, id_of, lets_below};
ghost use Rattle.vx_tree.specs.Cells.{rows};
ghost use Rattle.vx_mask.specs.Places.{combined};
ghost use Rattle.vx_tree.specs.Slots.{put, HasSlot};
ghost use Rattle.vx_tree.specs.Keeps.{Keeps, KeepsExactly};
ghost use Rattle.vx_tree.specs.Firm.{IsFirm, KeepsFirmly};
ghost use Rattle.vx_tree.specs.Cost.{cost, reach, slots_sum};
ghost use Rattle.vx_tree.specs.Weight.{weight};
ghost use Rattle.vx_fn.specs.declared.function.ScalarFnRef.{ScalarFnRef as ScalarFnOf};
ghost use Rattle.vx_tree.specs.Well.{Shape, IsNode, IsWell};
ghost use Rattle.vx_tree.specs.Refusals.{refusal};
ghost use Rattle.vx_tree.specs.Validities.{HasRows, nullability_by, child_of, validity_of, valid_rows};
ghost use Rattle.vx_tree.specs.NodeValidities.{node_validity, IsValidityFor};
ghost use Rattle.vx_tree.specs.declared.validity.Validity.{Validity};
ghost use Rattle.std.specs.Prelude.{◌≡◌, true, false};
ghost use Rattle.vx_tree.specs.Tree.{Tree, Data, datum, is_constant, is_canonical, is_columnar};
ghost use Rattle.vx_tree.specs.Well.{IsWell};
ghost use Rattle.vx_tree.specs.Columns.{IsColumn};

/// States that keeping a tree, and keeping it exactly, are preorders and hold in a slot too. (own)
pub fn keeping_laws()
    ensures reflexive { (t : Tree) → KeepsExactly t t }
    ensures transitive { (t u v : Tree) → Keeps t u → Keeps u v → Keeps t v }
    ensures transitive_exactly { (t u v : Tree) → KeepsExactly t u → KeepsExactly u v → KeepsExactly t v }
    ensures in_slot { (i : ℕ) (t u p : Tree) → Keeps t u → Keeps (put i t p) (put i u p) }
    ensures in_slot_exactly { (i : ℕ) (t u p : Tree) → KeepsExactly t u → KeepsExactly (put i t p) (put i u p) }
{}

/// States that every tree is firm, and that keeping a tree firmly is a preorder and holds in a slot too. (own)
pub fn firm_laws()
    ensures firm { (t : Tree) → IsFirm t }
    ensures reflexive { (t : Tree) → KeepsFirmly t t }
    ensures transitive { (t u v : Tree) → KeepsFirmly t u → KeepsFirmly u v → KeepsFirmly t v }
    ensures in_slot { (i : ℕ) (t u p : Tree) → KeepsFirmly t u → KeepsFirmly (put i t p) (put i u p) }
{}

/// States the bound on turns, encoding by encoding. (own)
pub fn execution_bounds()
    ensures constants { (ty : DataType) (n : ℕ) (v : Typed) → cost (node ty n (constant v) no_slots) ≡ 2 }
    ensures constant_reach { (ty : DataType) (n : ℕ) (v : Typed) → reach (node ty n (constant v) no_slots) ≡ 1 }
    ensures columns { (ty : DataType) (n : ℕ) (d : Data) (ss : Slots) → is_canonical d ≡ true → cost (node ty n d ss) ≡ 1 }
    ensures column_reach { (ty : DataType) (n : ℕ) (d : Data) (ss : Slots) → is_canonical d ≡ true → reach (node ty n d ss) ≡ 1 }
    ensures slices { (ty : DataType) (n a b : ℕ) (c : Tree) → cost (node ty n (slice a b) (slot c no_slots)) ≡ cost c + 3 * reach c }
    ensures slice_reach { (ty : DataType) (n a b : ℕ) (c : Tree) → reach (node ty n (slice a b) (slot c no_slots)) ≡ reach c }
    ensures filters { (ty : DataType) (n : ℕ) (bits : List Bool) (c : Tree) → cost (node ty n (filter bits) (slot c no_slots)) ≡ cost c + 3 * reach c + 1 }
    ensures filter_reach { (ty : DataType) (n : ℕ) (bits : List Bool) (c : Tree) → reach (node ty n (filter bits) (slot c no_slots)) ≡ 1 }
    ensures masks { (ty : DataType) (n : ℕ) (c : Tree) (ss : Slots) → cost (node ty n masked (slot c ss)) ≡ cost c + 4 }
    ensures mask_reach { (ty : DataType) (n : ℕ) (c : Tree) (ss : Slots) → reach (node ty n masked (slot c ss)) ≡ 1 + reach c }
    ensures validities { (ty : DataType) (n : ℕ) (c : Tree) → cost (node ty n is_valid (slot c no_slots)) ≡ cost c + 3 }
    ensures validity_reach { (ty : DataType) (n : ℕ) (c : Tree) → reach (node ty n is_valid (slot c no_slots)) ≡ 1 }
    ensures functions { (ty : DataType) (n : ℕ) (f : ScalarFnOf) (ss : Slots) → cost (node ty n (function f) ss) ≡ 3 + slots_sum (λ c. 1 + cost c) ss }
    ensures function_reach { (ty : DataType) (n : ℕ) (f : ScalarFnOf) (ss : Slots) → lets_below f ≡ true
        → reach (node ty n (function f) ss) ≡ 1 + slots_sum reach ss }
    ensures item_reach { (ty : DataType) (n : ℕ) (f : ScalarFnOf) (ss : Slots) → lets_below f ≡ false → reach (node ty n (function f) ss) ≡ 1 }
    ensures dicts { (ty : DataType) (n : ℕ) (k v : Tree) → cost (node ty n dict (slot k (slot v no_slots))) ≡ 3 + (1 + cost k) + (1 + cost v) }
    ensures dict_reach { (ty : DataType) (n : ℕ) (k v : Tree) → reach (node ty n dict (slot k (slot v no_slots))) ≡ 1 + reach k }
    ensures chunks { (ty : DataType) (n : ℕ) (ss : Slots) → cost (node ty n chunked ss) ≡ 2 + slots_sum (λ c. 2 + cost c) ss }
    ensures chunk_reach { (ty : DataType) (n : ℕ) (ss : Slots) → reach (node ty n chunked ss) ≡ 1 }
    ensures interleaves { (ty : DataType) (n : ℕ) (ss : Slots) → cost (node ty n interleave ss) ≡ 3 + slots_sum (λ c. 1 + cost c) ss }
    ensures interleave_reach { (ty : DataType) (n : ℕ) (ss : Slots) → reach (node ty n interleave ss) ≡ 1 }
    ensures positive { (t : Tree) → 0 < cost t }
{}

/// States what `weight` is: at least 3, above the bound on turns, and less if a slot weighs less. (own)
pub fn weight_laws()
    ensures least { (t : Tree) → 3 ≤ weight t }
    ensures turns { (t : Tree) → cost t < weight t }
    ensures in_slot { (i k : ℕ) (c d t : Tree) → HasSlot i c t → k + weight d ≤ weight c → k + weight (put i d t) ≤ weight t }
{}

/// States that a slice of a slice has the rows of one slice, and a filter of a filter has those of one filter by the combined
/// mask. (own)
pub fn choice_laws()
    ensures slices { (t : Tree) (a b c d : ℕ) → a ≤ b → b ≤ len t → c ≤ d → d ≤ b - a
        → rows (slice_of c d (slice_of a b t)) ≡ rows (slice_of (a + c) (a + d) t) }
    ensures filters { (t : Tree) (outer inner : List Bool) → rows (filter_of inner (filter_of outer t)) ≡ rows (filter_of (combined outer inner) t) }
{}

/// States that a node's parts under its own tag are refused exactly if they break its conditions. (own)
pub fn refused_exactly()
    ensures { (ty : DataType) (n : ℕ) (d : Data) (ss : List (Option Shape)) → (refusal (id_of d) ty n d ss ≡ None) ↔ IsNode ty n d ss }
{}

/// States that the validity read back from a child is the one that the child was made from. (own)
pub fn validity_laws()
    ensures { (v : Validity) (n : ℕ) → HasRows v n → valid_rows (validity_of (nullability_by v) (child_of v n)) n ≡ valid_rows v n }
{}

/// States that the validity of a tree says which of its rows are null. (own)
pub fn node_validity_laws()
    ensures { (t : Tree) → IsWell t → IsValidityFor t (node_validity t) }
{}

/// States what every column is, and that canonical columns are columns and not constants. (own)
pub fn column_laws()
    ensures known { (t : Tree) → IsWell t → is_columnar (datum t) ≡ true → IsColumn t }
    ensures canonical_columns { (d : Data) → is_canonical d ≡ true → is_columnar d ≡ true }
    ensures canonical_open { (d : Data) → is_canonical d ≡ true → is_constant d ≡ false }
{}
