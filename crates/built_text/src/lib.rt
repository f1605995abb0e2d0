//! Reads the tokens of a C0 program with functions, loops and contracts into its tree, in which
//! names are not yet resolved.
#![tactic(auto)]

// A part's value, or its fault as that of the whole.
macro_rules! part {
    ($part:expr) => {
        match $part {
            Ok(value) => value,
            Err(fault) => return Err(fault),
        }
    };
}

mod cursor;
mod expressions;
mod forms;
mod functions;
mod reader;
mod statements;
mod token;
mod tokens;
mod tree;

pub use forms::built_forms;
pub use reader::{each_tokens, one_fault, one_tree, read};
pub use tokens::cut_ends_last;
pub use tree::{
    Call, Clause, ClauseKind, Expr, Formula, Function, Named, Note, Operator, Parameter, Program,
    ReadFault, Right, Shape, Spot, Stmt, Typed, UnaryOperator,
};
