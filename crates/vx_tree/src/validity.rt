//! Which rows of a column are null, and the slots of validities.

ghost use Rattle.std.specs.Prelude.{◌≡◌, ℕ, IfOk, length, option_map, Some, true};
ghost use Rattle.vx_value.specs.Errors.{OnlyOutOfMemory};
ghost use Rattle.vx_value.specs.Supported.{has_columns};
ghost use Rattle.vx_tree.specs.Validities.{nullability_by, without_nulls, child_of, child_by, validity_by, count_children, validity_of, array_refusal, HasRange};
ghost use Rattle.vx_mask.specs.Masks.{bits_in};
ghost use Rattle.vx_tree.specs.Tree.{constant_of};
ghost use Rattle.vx_tree.specs.Parts.{part_of, choice_of, HasLen};
ghost use Rattle.vx_tree.specs.Conditions.{Checks};

use crate::array::{ArrayKind, ArrayRef, Encoding, IntoArray, Node};
use crate::arrays::boolean::BoolData;
use crate::arrays::constant::ConstantArray;
use crate::arrays::filter::FilterArray;
use crate::arrays::slice::SliceArray;
use crate::conditions::check_that;
use crate::types::{BOOLEANS, is_same_type};
use std::alloc::Global;
use std::ops::Range;
use vx_mask::{BitBuffer, Mask};
use vx_value::{ArgKind, Nullability, Scalar, VortexResult};

/// Which rows of a column are null.
#[derive(Clone, Debug, Drop)]
pub enum Validity {
    /// No row, since the column's type is non-nullable.
    NonNullable,
    /// No row, though the column's type is nullable.
    AllValid,
    /// Every row.
    AllInvalid,
    /// The rows for which this array of non-nullable booleans is false.
    Array(ArrayRef),
}

impl Validity {
    /// Returns the nullability of the column's type.
    pub fn nullability(&self) -> Nullability
        ensures { result ≡ nullability_by self.now }
    {
        match self {
            Validity::NonNullable => Nullability::NonNullable,
            _ => Nullability::Nullable,
        }
    }

    /// Returns the validity of a nullable column whose rows are null where `bits` is false, in its one form: `AllValid` if no
    /// row is null, `AllInvalid` if there is a row and all are null. Fails only with `OutOfMemory`. (own)
    pub fn from_bits(alloc: Global, bits: BitBuffer) -> VortexResult<Validity>
        ensures form { IfOk result (λ v. v ≡ validity_by bits) }
        ensures ok { IfOk result (λ v. child_of v (length bits) ≡ child_by bits) }
        ensures nullable { IfOk result (λ v. nullability_by v ≡ Nullability.Nullable) }
        ensures err { OnlyOutOfMemory result }
    {
        match Mask::from_bits(bits) {
            Mask::AllTrue(_) => Ok(Validity::AllValid),
            Mask::AllFalse(_) => Ok(Validity::AllInvalid),
            Mask::Values(values) => {
                let bits = values.bit_buffer().clone()?;
                let slots = vec![in alloc; None]?;
                let node = Node {
                    dtype: BOOLEANS,
                    len: bits.len(),
                    encoding: Encoding::Bool(BoolData { bits }),
                    slots,
                };
                Ok(Validity::Array(node.into_array(alloc)?))
            }
        }
    }
}

impl From<Nullability> for Validity {
    ghost from_gives = { λ n v. v ≡ without_nulls n };

    fn from(nullability: Nullability) -> Validity {
        match nullability {
            Nullability::NonNullable => Validity::NonNullable,
            Nullability::Nullable => Validity::AllValid,
        }
    }
}

/// Returns the validity that `child` stands for in a column of this nullability. A constant is read back as `AllValid` or
/// `AllInvalid`. Fails only with `OutOfMemory`.
pub fn child_to_validity(
    child: Option<&ArrayRef>,
    nullability: Nullability,
) -> VortexResult<Validity>
    ensures ok { IfOk result (λ v. v ≡ validity_of nullability (option_map (λ c. c.now) child.entry)) }
    ensures err { OnlyOutOfMemory result }
{
    let Some(child) = child else {
        return Ok(Validity::from(nullability));
    };
    if let ArrayKind::Constant(scalar) = child.kind() {
        match scalar.as_bool() {
            Some(true) => return Ok(Validity::AllValid),
            Some(false) => return Ok(Validity::AllInvalid),
            None => {}
        }
    }
    Ok(Validity::Array(child.clone()?))
}

/// Returns the number of children that stand for `validity`: 0 or 1.
pub fn validity_nchildren(validity: &Validity) -> usize
    ensures { (n : ℕ) → result ≡ count_children (child_of validity.now n) }
{
    match validity {
        Validity::NonNullable | Validity::AllValid => 0,
        Validity::AllInvalid | Validity::Array(_) => 1,
    }
}

/// Returns the child that stands for `validity` in a column of `len` rows, or `None` if no row is null. Fails only with
/// `OutOfMemory`.
pub fn validity_to_child(
    alloc: Global,
    validity: &Validity,
    len: usize,
) -> VortexResult<Option<ArrayRef>>
    ensures ok { IfOk result (λ child. child ≡ child_of validity.now len) }
    ensures err { OnlyOutOfMemory result }
{
    match validity {
        Validity::NonNullable | Validity::AllValid => Ok(None),
        Validity::AllInvalid => {
            let invalid = Scalar::bool(false, Nullability::NonNullable);
            Ok(Some(ConstantArray::new_unchecked(alloc, invalid, len)?.into_array()))
        }
        Validity::Array(array) => Ok(Some(array.clone()?)),
    }
}

/// Checks that `validity` has `len` rows.
#[tactic(auto, using(crate::proofs::ConditionsLemmas::in_turn))]
pub(crate) fn check_validity(validity: &Validity, len: usize) -> VortexResult<()>
    ensures { Checks result (array_refusal len validity.now) }
{
    let Validity::Array(array) = validity else {
        return Ok(());
    };
    check_that(
        is_same_type(array.dtype(), &BOOLEANS),
        ArgKind::SlotType { slot: 0 },
    )?;
    check_that(array.len() == len, ArgKind::SlotLen { slot: 0 })
}

/// Returns the slot of a validity that is `scalar` for each of `len` rows. Fails only with `OutOfMemory`.
fn repeated(alloc: Global, scalar: &Scalar, len: usize) -> VortexResult<Option<ArrayRef>>
    requires { has_columns scalar.now.of_type ≡ true }
    ensures ok { IfOk result (λ w. w ≡ Some (constant_of scalar.now len)) }
    ensures err { OnlyOutOfMemory result }
{
    Ok(Some(ConstantArray::new_unchecked(alloc, scalar.clone()?, len)?.into_array()))
}

/// Returns the validity of the rows in `range`, which must be in order and in bounds, given the slot of the whole column's. A
/// constant stays one. Fails only with `OutOfMemory`. (own)
#[tactic(auto, using(crate::proofs::ValiditiesLemmas::constant_supported))]
pub fn slice_validity(
    alloc: Global,
    validity: &Option<ArrayRef>,
    range: Range<usize>,
) -> VortexResult<Option<ArrayRef>>
    requires { HasRange range.start range.end validity.now }
    ensures ok { IfOk result (λ w. w ≡ option_map (part_of range.start range.end) validity.now) }
    ensures err { OnlyOutOfMemory result }
{
    let Some(child) = validity else {
        return Ok(None);
    };
    child.well_formed_tree();
    if let ArrayKind::Constant(scalar) = child.kind() {
        return repeated(alloc, scalar, range.end - range.start);
    }
    Ok(Some(SliceArray::new(alloc, child.clone()?, range)?.into_array()))
}

/// Returns the validity of the rows that `mask` chooses, given the slot of the whole column's, which must have as many rows as
/// `mask`. A constant stays one. Fails only with `OutOfMemory`. (own)
#[tactic(auto, using(crate::proofs::ValiditiesLemmas::constant_supported))]
pub fn choose_validity(
    alloc: Global,
    validity: &Option<ArrayRef>,
    mask: &Mask,
) -> VortexResult<Option<ArrayRef>>
    requires { HasLen (length (bits_in mask.now)) validity.now }
    ensures ok { IfOk result (λ w. w ≡ option_map (choice_of (bits_in mask.now)) validity.now) }
    ensures err { OnlyOutOfMemory result }
{
    let Some(child) = validity else {
        return Ok(None);
    };
    child.well_formed_tree();
    if let ArrayKind::Constant(scalar) = child.kind() {
        return repeated(alloc, scalar, mask.true_count());
    }
    Ok(Some(FilterArray::new(alloc, child.clone()?, mask.clone()?)?.into_array()))
}
