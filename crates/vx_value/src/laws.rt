//! Laws of values. Each is a function with an empty body, whose contract is the law.

ghost use Rattle.std.specs.Prelude.{◌≡◌, true};
ghost use Rattle.vx_value.specs.Types.{DataType};
ghost use Rattle.vx_value.specs.Values.{Value};
ghost use Rattle.vx_value.specs.Cell.{value};
ghost use Rattle.vx_value.specs.IsOf.{is_of};
ghost use Rattle.vx_value.specs.Fits.{ListsFit};
ghost use Rattle.vx_value.specs.Casts.{has_cast, cast_value, cast_to};

/// States that a cast to a value's own type changes nothing, that the result of a cast is of the target type, that its lists fit
/// if those of the value do, and that it then depends on the target alone. (own)
pub fn cast_laws()
    ensures own_type { (t : DataType) → has_cast t t ≡ true }
    ensures unchanged { (t : DataType) (v : Value) → is_of t v ≡ true → cast_value t t v ≡ value v }
    ensures typed { (s t : DataType) (v w : Value) → is_of s v ≡ true → cast_value s t v ≡ value w → is_of t w ≡ true }
    ensures fits { (s t : DataType) (v w : Value) → ListsFit s v → cast_value s t v ≡ value w → ListsFit t w }
    ensures by_target { (s t : DataType) (v : Value) → is_of s v ≡ true → ListsFit s v → has_cast s t ≡ true → cast_value s t v ≡ cast_to t v }
{}
