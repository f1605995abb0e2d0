//! The rules on framing and guards that are judged by a program's formulas alone, and the count of
//! the ways through a function.
#![tactic(auto)]

mod fault;
mod framing;
mod guards;
mod left;
mod paths;
mod paths_capped;
mod paths_trees;
mod reads;

pub use fault::FrameFault;
pub use framing::check_framing;
pub use paths::count_paths;
