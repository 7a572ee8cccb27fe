//! Laws of masks. Each is a function with an empty body, whose contract is the law.

ghost use Rattle.std.specs.Prelude.{◌≡◌, ◌↔◌, ◌<◌, ◌≤◌, ℕ, true, Bool, List, Some, IsSome, length, slice_get, take};
ghost use Rattle.std.specs.Option.{option_and_then};
ghost use Rattle.vx_mask.specs.Logic.{bit_row};
ghost use Rattle.vx_mask.specs.Masks.{bits_in, mask_of};
ghost use Rattle.vx_mask.specs.Places.{true_count, true_place, combined, chosen};

/// States that a mask has the bits that it was made from. (own)
pub fn mask_laws()
    ensures bits { (bits : List Bool) → bits_in (mask_of bits) ≡ bits }
    ensures value { (bits : List Bool) (i : ℕ) → slice_get (bits_in (mask_of bits)) i ≡ slice_get bits i }
{}

/// States that there is a `k`-th true bit exactly if `k` is below the count, and that it is the true bit with `k` true
/// bits before it. (own)
pub fn place_laws()
    ensures below_count { (bits : List Bool) (k : ℕ) → IsSome (true_place bits k) ↔ (k < true_count bits) }
    ensures exact { (bits : List Bool) (k p : ℕ)
        → (true_place bits k ≡ Some p) ↔ ((p < length bits) × (bit_row bits p ≡ true) × (true_count (take p bits) ≡ k)) }
{}

/// States that choosing by combined bits is choosing twice, how many items are chosen, and which. (own)
pub fn choice_laws<T>()
    ensures twice { (outer inner : List Bool) (xs : List T) → chosen (combined outer inner) xs ≡ chosen inner (chosen outer xs) }
    ensures count { (bits : List Bool) (xs : List T) → length xs ≡ length bits → length (chosen bits xs) ≡ true_count bits }
    ensures combined_count { (outer inner : List Bool) (xs : List T) → length inner ≡ true_count outer
        → length xs ≡ length outer → length (chosen (combined outer inner) xs) ≡ true_count inner }
    ensures item { (bits : List Bool) (xs : List T) (k : ℕ)
        → slice_get (chosen bits xs) k ≡ option_and_then (slice_get xs) (true_place bits k) }
{}
