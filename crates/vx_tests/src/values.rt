//! Worked values: which are of a type, and which comes first.

ghost use Rattle.std.specs.Prelude.{◌≡◌, pos, negsuc, [], ◌∷◌, true, false, Some, None};
ghost use Rattle.std.specs.declared.cmp.Ordering.TheVariants.{Less, Equal, Greater};
ghost use Rattle.vx_value.specs.Types as type;
ghost use Rattle.vx_value.specs.Values.{null, boolean, integer, decimal, bytes};
ghost use Rattle.vx_value.specs.declared.dtype.PType.TheVariants.{I32, U8};
ghost use Rattle.vx_value.specs.declared.dtype.Nullability.TheVariants.{NonNullable, Nullable};
ghost use Rattle.vx_value.specs.IsOf.{is_of};
ghost use Rattle.vx_value.specs.Order.{scalar_cmp};
ghost use Rattle.vx_tests.specs.Parts.{i32, nullable, u8, text, binary, hundredths, typed};

/// States which of nine values are of a type.
pub fn worked_types()
    ensures null_of_null { is_of type.null null ≡ true }
    ensures bytes_of_null { is_of type.null (bytes []) ≡ false }
    ensures null_boolean { is_of (type.bool Nullable) null ≡ true }
    ensures truth { is_of (type.bool Nullable) (boolean true) ≡ true }
    ensures number { is_of i32 (integer (negsuc 0)) ≡ true }
    ensures truth_as_number { is_of i32 (boolean true) ≡ false }
    ensures hundreds { is_of hundredths (decimal (pos 100) 2) ≡ true }
    ensures another_scale { is_of hundredths (decimal (pos 1) 1) ≡ false }
    ensures any_bytes { is_of binary (bytes (255 ∷ [])) ≡ true }
{}

/// States which of each of sixteen pairs of values comes first, and that values of two types aren't ordered.
pub fn worked_orders()
    ensures null_first { scalar_cmp (typed nullable null) (typed nullable (integer (pos 1))) ≡ Some Less }
    ensures by_size { scalar_cmp (typed nullable (integer (pos 1))) (typed nullable (integer (negsuc 0))) ≡ Some Greater }
    ensures same_number { scalar_cmp (typed nullable (integer (pos 1))) (typed nullable (integer (pos 1))) ≡ Some Equal }
    ensures nulls { scalar_cmp (typed nullable null) (typed nullable null) ≡ Some Equal }
    ensures nullabilities { scalar_cmp (typed i32 (integer (pos 1))) (typed nullable (integer (pos 1))) ≡ None }
    ensures widths { scalar_cmp (typed i32 (integer (pos 1))) (typed u8 (integer (pos 1))) ≡ None }
    ensures null_of_two_types { scalar_cmp (typed (type.bool Nullable) null) (typed nullable null) ≡ None }
    ensures false_first { scalar_cmp (typed (type.bool Nullable) (boolean false)) (typed (type.bool Nullable) (boolean true)) ≡ Some Less }
    ensures decimals { scalar_cmp (typed hundredths (decimal (pos 10) 2)) (typed hundredths (decimal (pos 9) 2)) ≡ Some Greater }
    ensures same_decimal { scalar_cmp (typed hundredths (decimal (pos 10) 2)) (typed hundredths (decimal (pos 10) 2)) ≡ Some Equal }
    ensures scales { scalar_cmp (typed hundredths (decimal (pos 0) 2)) (typed (type.decimal 38 0 NonNullable) (decimal (pos 0) 0)) ≡ None }
    ensures shorter_text { scalar_cmp (typed text (bytes (97 ∷ []))) (typed text (bytes (97 ∷ 98 ∷ []))) ≡ Some Less }
    ensures same_text { scalar_cmp (typed text (bytes (97 ∷ 98 ∷ []))) (typed text (bytes (97 ∷ 98 ∷ []))) ≡ Some Equal }
    ensures text_and_bytes { scalar_cmp (typed text (bytes (97 ∷ []))) (typed binary (bytes (97 ∷ []))) ≡ None }
    ensures by_first_byte { scalar_cmp (typed binary (bytes (1 ∷ []))) (typed binary (bytes (0 ∷ 0 ∷ []))) ≡ Some Greater }
    ensures nulls_of_null { scalar_cmp (typed type.null null) (typed type.null null) ≡ Some Equal }
{}
