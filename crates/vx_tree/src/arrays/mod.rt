//! The encodings, a module for each: its tag, the data of its nodes, how they are opened, its constructors and its checks.

pub mod boolean;
mod child;
pub mod chunked;
pub(crate) mod column;
pub mod constant;
pub mod decimal;
pub mod dict;
pub mod extension;
pub mod filter;
pub mod interleave;
pub mod masked;
pub mod null;
pub mod primitive;
pub mod scalar_fn;
pub mod scalar_fn_validity;
pub mod slice;
mod slots;
pub mod structs;
pub mod varbinview;

/// Evaluates to `Some(data)`, the data of a borrowed `Encoding` of this variant, or to `None` if it is another variant.
macro_rules! payload {
    ($encoding:expr, $variant:ident) => {
        match $encoding {
            Encoding::$variant(data) => Some(data),
            _ => None,
        }
    };
}

/// Evaluates to `Some(data)`, the data of an owned `Encoding` of this variant, or to `None` if it is another variant, which is
/// dropped whole.
macro_rules! into_payload {
    ($encoding:expr, $variant:ident) => {
        match $encoding {
            Encoding::$variant(data) => Some(data),
            other => {
                drop(other);
                None
            }
        }
    };
}

pub(crate) use into_payload;
pub(crate) use payload;
