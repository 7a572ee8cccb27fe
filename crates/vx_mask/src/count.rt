//! Counts and places of the true bits of whole buffers, 64 at a time.

ghost use Rattle.std.specs.Prelude.{◌≡◌, ◌-◌};
ghost use Rattle.vx_mask.specs.Places.{true_count, true_place};

use crate::bits::BitBuffer;
use crate::word::{first_one, last_one, nth_one, ones_in};

impl BitBuffer {
    /// Returns the number of true bits.
    pub fn true_count(&self) -> usize
        ensures { result ≡ true_count self.now }
    {
        let mut count = 0;
        for k in 0..self.len() / 64 {
            count += ones_in(self.full_word(k));
        }
        count + ones_in(self.last_word())
    }

    /// Returns the index of the true bit with `k` true bits before it, or `None` if there are at most `k`.
    pub(crate) fn rank(&self, k: usize) -> Option<usize>
        ensures { result ≡ true_place self.now k }
    {
        let full = self.len() / 64;
        let mut left = k;
        for place in 0..full {
            let word = self.full_word(place);
            let ones = ones_in(word);
            if left < ones {
                return Some(64 * place + nth_one(word, left));
            }
            left -= ones;
        }
        let last = self.last_word();
        if left < ones_in(last) {
            Some(64 * full + nth_one(last, left))
        } else {
            None
        }
    }

    /// Returns the index of the first true bit, or `None` if there is none.
    pub(crate) fn first(&self) -> Option<usize>
        ensures { result ≡ true_place self.now 0 }
    {
        let full = self.len() / 64;
        for k in 0..full {
            let word = self.full_word(k);
            if word != 0 {
                return Some(64 * k + first_one(word));
            }
        }
        let last = self.last_word();
        if last != 0 {
            Some(64 * full + first_one(last))
        } else {
            None
        }
    }

    /// Returns the index of the last true bit, or `None` if there is none.
    pub(crate) fn last(&self) -> Option<usize>
        ensures { result ≡ true_place self.now (true_count self.now - 1) }
    {
        let mut k = self.len() / 64;
        let mut word = self.last_word();
        while word == 0 {
            if k == 0 {
                return None;
            }
            k -= 1;
            word = self.full_word(k);
        }
        Some(64 * k + last_one(word))
    }
}
