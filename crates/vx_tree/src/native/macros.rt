//! Macros that open the native types.

/// Calls a generic function at the type that a kind, one of these variants of its enum, names.
#[macro_export]
macro_rules! at_type {
    ($kind:expr, $kinds:ident[$($variant:ident = $type:ident),*], $function:ident $arguments:tt) => {
        match $kind {
            $($crate::$kinds::$variant => $function::<$type> $arguments,)*
        }
    };
}

/// Calls a generic function at the type that a `PType` names: `by_type!(ptype, read(list))` calls `read::<u8>(list)` at `U8`.
#[macro_export]
macro_rules! by_type {
    ($ptype:expr, $function:ident($($argument:expr),* $(,)?)) => {
        $crate::at_type!(
            $ptype,
            PType[U8 = u8, U16 = u16, U32 = u32, U64 = u64, I8 = i8, I16 = i16, I32 = i32, I64 = i64],
            $function($($argument),*)
        )
    };
}

/// Calls a generic function at the type that a `DecimalType` names: `by_decimal_type!(width, read(list))` calls
/// `read::<i8>(list)` at `I8`.
#[macro_export]
macro_rules! by_decimal_type {
    ($decimal_type:expr, $function:ident($($argument:expr),* $(,)?)) => {
        $crate::at_type!(
            $decimal_type,
            DecimalType[I8 = i8, I16 = i16, I32 = i32, I64 = i64, I128 = i128],
            $function($($argument),*)
        )
    };
}

/// Evaluates one expression over the numbers in a `NativeBuffer`, whatever their type:
/// `by_native!(buffer, |numbers| sum(numbers))`.
#[macro_export]
macro_rules! by_native {
    ($buffer:expr, |$numbers:ident| $body:expr) => {
        match $buffer {
            $crate::NativeBuffer::U8($numbers) => $body,
            $crate::NativeBuffer::U16($numbers) => $body,
            $crate::NativeBuffer::U32($numbers) => $body,
            $crate::NativeBuffer::U64($numbers) => $body,
            $crate::NativeBuffer::I8($numbers) => $body,
            $crate::NativeBuffer::I16($numbers) => $body,
            $crate::NativeBuffer::I32($numbers) => $body,
            $crate::NativeBuffer::I64($numbers) => $body,
            $crate::NativeBuffer::I128($numbers) => $body,
        }
    };
}

/// Calls one of the macros below for the variants of the nine types, which come first among its arguments.
macro_rules! for_natives {
    ($macro:ident!($($argument:tt)*)) => {
        $macro!([U8, U16, U32, U64, I8, I16, I32, I64, I128] $($argument)*)
    };
}

/// Calls one of the macros below for the variants of the eight types of integers, which come first among its arguments.
macro_rules! for_integers {
    ($macro:ident!($($argument:tt)*)) => {
        $macro!([U8, U16, U32, U64, I8, I16, I32, I64] $($argument)*)
    };
}

/// Calls one of the macros below for the variants of the five types that decimals are stored in, which come first among its
/// arguments.
macro_rules! for_decimals {
    ($macro:ident!($($argument:tt)*)) => {
        $macro!([I8, I16, I32, I64, I128] $($argument)*)
    };
}

/// Evaluates one expression over the payload of an enum, whichever of these variants it is.
macro_rules! over {
    ([$($variant:ident),*] $values:expr, $enum:ident($value:ident) => $body:expr) => {
        match $values {
            $($enum::$variant($value) => $body,)*
        }
    };
}

/// Evaluates to the variant of the enum `$to` that has the name of a variant of the enum `$from`.
macro_rules! named {
    ([$($variant:ident),*] $kind:expr, $from:ident => $to:ident) => {
        match $kind {
            $($from::$variant => $to::$variant,)*
        }
    };
}

/// Makes an enum `$to` from the result of `$body`, of the variant that a kind names.
macro_rules! made {
    ([$($variant:ident),*] $kind:expr, $kinds:ident => $to:ident, $body:expr) => {
        match $kind {
            $($kinds::$variant => Ok($to::$variant($body?)),)*
        }
    };
}

/// Evaluates to the numbers in a borrowed `NativeBuffer`, which must be of this variant.
macro_rules! numbers_of {
    ($buffer:expr, $variant:ident) => {
        match $buffer {
            NativeBuffer::$variant(numbers) => numbers,
            _ => unreachable!(),
        }
    };
}

pub(crate) use for_decimals;
pub(crate) use for_integers;
pub(crate) use for_natives;
pub(crate) use made;
pub(crate) use named;
pub(crate) use numbers_of;
pub(crate) use over;
