//! The temporaries of a function: how many of each shape, and which numbers they have.
#![tactic(auto)]

mod counting;
mod most;
mod numbering;
mod shapes;
mod statements;
mod tally;
mod temps;
mod used;

pub use counting::is_constant;
pub use shapes::{
    common, gives, library_gives, or_int, read_shape, result_of, shape_at, unary_shape,
};
pub use temps::Temps;
pub use used::TempCounts;
