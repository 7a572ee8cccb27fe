//! Tests of the library crates, and laws that work out their definitions on examples: what their contracts and the program
//! don't show.
//!
//! A crate with tests is proved once more for them, so they stand here together.
#![tactic(auto)]

#[cfg(test)]
mod buffers;
#[cfg(test)]
mod builders;
#[cfg(test)]
mod casts;
#[cfg(test)]
mod errors;
#[cfg(test)]
mod nested;
#[cfg(test)]
mod parts;
mod refusals;
#[cfg(test)]
mod rewriting;
#[cfg(test)]
mod rows;
#[cfg(test)]
mod rules;
#[cfg(test)]
mod sharing;
#[cfg(test)]
mod steps;
#[cfg(test)]
mod targets;
mod values;
mod weights;

pub use refusals::{
    worked_columns, worked_functions, worked_lazy_nodes, worked_lookups, worked_values,
};
pub use values::{worked_orders, worked_types};
pub use weights::worked_weights;
