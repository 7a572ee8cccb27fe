//! The bounds of worked trees.

ghost use Rattle.std.specs.Prelude.{◌≡◌, pos, true, false, [], ◌∷◌, codes};
ghost use Rattle.vx_value.specs.Types as type;
ghost use Rattle.vx_value.specs.Values.{integer};
ghost use Rattle.vx_value.specs.declared.dtype.PType.TheVariants.{I32};
ghost use Rattle.vx_value.specs.declared.dtype.Nullability.TheVariants.{NonNullable};
ghost use Rattle.vx_fn.specs.declared.function.ScalarFnRef.TheVariants.{Binary, GetItem};
ghost use Rattle.vx_fn.specs.declared.function.Operator.TheVariants.{Add};
ghost use Rattle.vx_tree.specs.Tree.{integers, constant_of, slice_of, filter_of, call_of, dict_of, chunked_of};
ghost use Rattle.vx_tree.specs.Cost.{cost};
ghost use Rattle.vx_tree.specs.Weight.{weight};

/// States the weights and costs of six trees: a column of three rows, a slice of a slice of a column, and a filter of the sum
/// of a column and a constant; then those of a dictionary of two columns, of two chunks, and of the field of a filter.
pub fn worked_weights()
    ensures column { weight (integers I32 (pos 1 ∷ pos 2 ∷ pos 3 ∷ [])) ≡ 3 }
    ensures slices { weight (slice_of 1 4 (slice_of 2 8 (integers I32
        (pos 0 ∷ pos 1 ∷ pos 2 ∷ pos 3 ∷ pos 4 ∷ pos 5 ∷ pos 6 ∷ pos 7 ∷ pos 8 ∷ pos 9 ∷ [])))) ≡ 12 }
    ensures slices_cost { cost (slice_of 1 4 (slice_of 2 8 (integers I32
        (pos 0 ∷ pos 1 ∷ pos 2 ∷ pos 3 ∷ pos 4 ∷ pos 5 ∷ pos 6 ∷ pos 7 ∷ pos 8 ∷ pos 9 ∷ [])))) ≡ 7 }
    ensures filter { weight (filter_of (false ∷ true ∷ true ∷ false ∷ []) (call_of (Binary Add) (type.primitive I32 NonNullable) 4
        (integers I32 (pos 0 ∷ pos 1 ∷ pos 2 ∷ pos 3 ∷ []) ∷ constant_of (record { of_type = type.primitive I32 NonNullable; value = integer (pos 10) }) 4 ∷ []))) ≡ 30 }
    ensures filter_cost { cost (filter_of (false ∷ true ∷ true ∷ false ∷ []) (call_of (Binary Add) (type.primitive I32 NonNullable) 4
        (integers I32 (pos 0 ∷ pos 1 ∷ pos 2 ∷ pos 3 ∷ []) ∷ constant_of (record { of_type = type.primitive I32 NonNullable; value = integer (pos 10) }) 4 ∷ []))) ≡ 18 }
    ensures dict { weight (dict_of (integers I32 (pos 0 ∷ pos 1 ∷ [])) (integers I32 (pos 5 ∷ []))) ≡ 19 }
    ensures dict_cost { cost (dict_of (integers I32 (pos 0 ∷ pos 1 ∷ [])) (integers I32 (pos 5 ∷ []))) ≡ 7 }
    ensures chunks { weight (chunked_of (type.primitive I32 NonNullable) (integers I32 (pos 1 ∷ []) ∷ integers I32 (pos 2 ∷ []) ∷ [])) ≡ 13 }
    ensures chunks_cost { cost (chunked_of (type.primitive I32 NonNullable) (integers I32 (pos 1 ∷ []) ∷ integers I32 (pos 2 ∷ []) ∷ [])) ≡ 8 }
    ensures item { weight (call_of (GetItem (codes "id")) (type.primitive I32 NonNullable) 2
        (filter_of (true ∷ false ∷ true ∷ []) (integers I32 (pos 1 ∷ pos 2 ∷ pos 3 ∷ [])) ∷ [])) ≡ 85 }
    ensures item_cost { cost (call_of (GetItem (codes "id")) (type.primitive I32 NonNullable) 2
        (filter_of (true ∷ false ∷ true ∷ []) (integers I32 (pos 1 ∷ pos 2 ∷ pos 3 ∷ [])) ∷ [])) ≡ 9 }
{}
