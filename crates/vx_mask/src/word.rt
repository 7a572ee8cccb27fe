//! The bits of one word, from the lowest one on.

ghost use Rattle.std.specs.Prelude.{◌≡◌, ◌<◌, ◌-◌, ◌^◌, Some};
ghost use Rattle.vx_mask.specs.Places.{true_count, true_place, combined, chosen};
ghost use Rattle.vx_mask.specs.Words.{low_bits};

/// Returns the number of true bits.
#[inline]
pub(crate) fn ones_in(word: u64) -> usize
    ensures { result ≡ true_count (low_bits 64 word) }
{
    word.count_ones() as usize
}

/// Returns the place of the lowest true bit.
#[inline]
pub(crate) fn first_one(word: u64) -> usize
    requires { 0 < word }
    ensures { true_place (low_bits 64 word) 0 ≡ Some result }
{
    word.trailing_zeros() as usize
}

/// Returns the place of the highest true bit.
#[inline]
pub(crate) fn last_one(word: u64) -> usize
    requires { 0 < word }
    ensures { true_place (low_bits 64 word) (true_count (low_bits 64 word) - 1) ≡ Some result }
{
    63 - word.leading_zeros() as usize
}

/// Returns the place of the true bit that has `k` true bits below it.
pub(crate) fn nth_one(word: u64, k: usize) -> usize
    requires { k < true_count (low_bits 64 word) }
    ensures { true_place (low_bits 64 word) k ≡ Some result }
{
    let mut left = word;
    for _ in 0..k {
        left &= left - 1;
    }
    first_one(left)
}

/// Replaces the true bits of `outer` by the bits of `inner`, in order.
#[inline]
pub(crate) fn spread(outer: u64, inner: u64) -> u64
    ensures { low_bits 64 result ≡ combined (low_bits 64 outer) (low_bits 64 inner) }
{
    let mut left = outer;
    let mut bits = inner;
    let mut word = 0;
    while left != 0 {
        word += (bits & 1) << left.trailing_zeros();
        bits >>= 1;
        left &= left - 1;
    }
    word
}

/// Moves the bits of `word` that stand at the true bits of `places` to the lowest places, in order. The bits above them are 0.
#[inline]
pub(crate) fn gather(places: u64, word: u64) -> u64
    ensures bits { low_bits (true_count (low_bits 64 places)) result ≡ chosen (low_bits 64 places) (low_bits 64 word) }
    ensures above { result < 2 ^ true_count (low_bits 64 places) }
{
    let mut left = places;
    let mut gathered = 0;
    for count in 0..ones_in(places) {
        gathered += ((word >> left.trailing_zeros()) & 1) << count;
        left &= left - 1;
    }
    gathered
}
