//! Questions whose answers are known, and one of each kind of answer.
mod questions;
mod sheet;
