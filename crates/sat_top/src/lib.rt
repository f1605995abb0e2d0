//! The one call that does all that the program does: from the words of a command and the bytes
//! of a file to what is written and the status.
#![tactic(auto)]

mod answers;
mod limits;
mod log_file;
mod request;
mod search;
mod status;
mod target;
mod top;

pub use limits::Limits;
pub use request::{Request, request_of};
pub use status::Status;
pub use target::Target;
pub use top::solve;
