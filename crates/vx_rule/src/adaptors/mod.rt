//! The answers of encodings for parents of one kind, a trait for each kind, and the rules that ask for them.

mod call;
mod filter;
mod slice;
mod take;

pub use call::{
    BetweenReduce, BetweenReduceAdaptor, CastReduce, CastReduceAdaptor, FillNullReduce,
    FillNullReduceAdaptor, GetItemReduce, GetItemReduceAdaptor, MaskReduce, MaskReduceAdaptor,
    NotReduce, NotReduceAdaptor,
};
pub use filter::{FilterReduce, FilterReduceAdaptor};
pub use slice::{SliceReduce, SliceReduceAdaptor};
pub use take::{TakeReduce, TakeReduceAdaptor};
