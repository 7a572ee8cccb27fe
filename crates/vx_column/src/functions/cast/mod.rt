//! Casts whole columns.

mod casts;
mod rescale;
mod text;

pub(crate) use casts::{cast, know_integers};
