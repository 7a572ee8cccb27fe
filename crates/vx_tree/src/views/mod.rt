//! Columns of text or bytes as views into shared data buffers. In contracts a column is its views and buffers, and
//! `rows_of` gives the list of its rows, each a list of bytes.

mod builder;
mod view;
mod views;

pub use builder::BinaryBuilder;
pub use view::View;
pub use views::BinaryViews;
