//! Native numbers printed in decimal.

ghost use Rattle.std.specs.Prelude.{◌≡◌};
ghost use Rattle.std.specs.Fmt.{signed_decimal};

use itoa::Integer;
use vx_tree::NativeNumber;

/// A native number that `itoa` prints as the integer that it stands for. (own)
pub(crate) trait PrintedNumber: NativeNumber + Integer {
    /// States that the number's text is that of the integer.
    fn is_printed(self)
        ensures { Self.text self ≡ signed_decimal (Self.value self) };
}

impl PrintedNumber for u8 {
    fn is_printed(self) {}
}

impl PrintedNumber for u16 {
    fn is_printed(self) {}
}

impl PrintedNumber for u32 {
    fn is_printed(self) {}
}

impl PrintedNumber for u64 {
    fn is_printed(self) {}
}

impl PrintedNumber for i8 {
    fn is_printed(self) {}
}

impl PrintedNumber for i16 {
    fn is_printed(self) {}
}

impl PrintedNumber for i32 {
    fn is_printed(self) {}
}

impl PrintedNumber for i64 {
    fn is_printed(self) {}
}

impl PrintedNumber for i128 {
    fn is_printed(self) {}
}
