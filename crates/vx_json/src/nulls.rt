//! Which rows are null.

ghost use Rattle.std.specs.Prelude.{◌≡◌, ◌≤◌, Some, None, IfOk, IfErr};
ghost use Rattle.vx_tree.specs.Validities.{HasRows, nullability_by};
ghost use Rattle.vx_json.specs.Refused.{IsRefused};
ghost use Rattle.vx_json.specs.SpelledNulls.{null_keys, validity_spelled};

use crate::BAD_VALUE;
use vx_tree::{ArrayRef, Validity, child_to_validity};
use vx_value::{DType, Nullability, VortexResult};

/// Which rows are null, as `validity` spells it.
#[derive(Drop)]
pub(crate) enum Nulls {
    /// No row: the key is absent.
    Absent,
    /// Every row: `false`.
    EveryRow,
    /// The rows for which this tree is false.
    Told(ArrayRef),
}

impl Nulls {
    /// Returns the number of keys that spell the nulls: 0 without `validity`, else 1.
    pub(crate) fn keys(&self) -> usize
        ensures count { result ≡ null_keys self.now }
        ensures few { result ≤ 1 }
    {
        match self {
            Nulls::Absent => 0,
            _ => 1,
        }
    }

    /// Returns the validity of `len` rows of this nullability. A constant is read back. `InvalidArgument(BadValue)` if a
    /// non-nullable type has a `validity`, or if the tree isn't `len` rows of non-nullable booleans.
    #[tactic(auto, using(crate::proofs::SpelledNullsLemmas::absent_for))]
    pub(crate) fn validity(&self, nullability: Nullability, len: usize) -> VortexResult<Validity>
        ensures ok { IfOk result (λ v. validity_spelled nullability len self.now ≡ Some v) }
        ensures nullability { IfOk result (λ v. nullability_by v ≡ nullability) }
        ensures rows { IfOk result (λ v. HasRows v len) }
        ensures err { IfErr result (IsRefused (validity_spelled nullability len self.now ≡ None)) }
    {
        match self {
            Nulls::Absent => Ok(Validity::from(nullability)),
            _ if !nullability.is_nullable() => Err(BAD_VALUE),
            Nulls::EveryRow => Ok(Validity::AllInvalid),
            Nulls::Told(tree) => told_validity(tree, len),
        }
    }
}

/// Returns the validity of `len` rows that `tree` stands for. `tree` must have as many rows, of non-nullable booleans.
#[tactic(auto, using(crate::proofs::SpelledNullsLemmas::told_for))]
fn told_validity(tree: &ArrayRef, len: usize) -> VortexResult<Validity>
    ensures ok { IfOk result (λ v. validity_spelled Nullability.Nullable len (Nulls.Told tree.now) ≡ Some v) }
    ensures nullability { IfOk result (λ v. nullability_by v ≡ Nullability.Nullable) }
    ensures rows { IfOk result (λ v. HasRows v len) }
    ensures err { IfErr result (IsRefused (validity_spelled Nullability.Nullable len (Nulls.Told tree.now) ≡ None)) }
{
    if *tree.dtype() != DType::Bool(Nullability::NonNullable) || tree.len() != len {
        return Err(BAD_VALUE);
    }
    tree.well_formed_tree();
    Ok(child_to_validity(Some(tree), Nullability::Nullable)?)
}
