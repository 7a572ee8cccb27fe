//! Laws of functions. Each is a function with an empty body, whose contract is the law.

ghost use Rattle.std.specs.Prelude.{◌≡◌, ◌∷◌, [], Bool, List, Option};
ghost use Rattle.vx_value.specs.Types.{DataType, bool};
ghost use Rattle.vx_value.specs.Cell.{Cell, value};
ghost use Rattle.vx_value.specs.declared.dtype.Nullability.{Nullability};
ghost use Rattle.vx_fn.specs.Logic.{kleene_and, kleene_or, not_truth, truth};
ghost use Rattle.vx_fn.specs.Apply.{apply};
ghost use Rattle.vx_fn.specs.declared.function.Operator.TheVariants.{And, Or};
ghost use Rattle.vx_fn.specs.declared.function.ScalarFnRef.TheVariants.{Binary, Not};

/// States that `And` and `Or` commute, whatever their arguments; that `Not` turns each into the other; and that the functions
/// do this on truth values, null included. (own)
pub fn logic_laws()
    ensures and_commutes { (tys : List DataType) (ty : DataType) (c d : Cell) → apply (Binary And) tys ty (c ∷ d ∷ []) ≡ apply (Binary And) tys ty (d ∷ c ∷ []) }
    ensures or_commutes { (tys : List DataType) (ty : DataType) (c d : Cell) → apply (Binary Or) tys ty (c ∷ d ∷ []) ≡ apply (Binary Or) tys ty (d ∷ c ∷ []) }
    ensures and_by_or { (p q : Option Bool) → not_truth (kleene_and p q) ≡ kleene_or (not_truth p) (not_truth q) }
    ensures or_by_and { (p q : Option Bool) → not_truth (kleene_or p q) ≡ kleene_and (not_truth p) (not_truth q) }
    ensures and_is { (tys : List DataType) (n : Nullability) (p q : Option Bool)
        → apply (Binary And) tys (bool n) (value (truth p) ∷ value (truth q) ∷ []) ≡ value (truth (kleene_and p q)) }
    ensures or_is { (tys : List DataType) (n : Nullability) (p q : Option Bool)
        → apply (Binary Or) tys (bool n) (value (truth p) ∷ value (truth q) ∷ []) ≡ value (truth (kleene_or p q)) }
    ensures not_is { (tys : List DataType) (ty : DataType) (p : Option Bool) → apply Not tys ty (value (truth p) ∷ []) ≡ value (truth (not_truth p)) }
{}
