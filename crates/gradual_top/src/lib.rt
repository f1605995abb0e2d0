//! The one call that does all that the program does: from the words of a command and the
//! bytes of a file to what is written and the status.
#![tactic(auto)]

mod laws;
mod lines;
mod request;
mod status;
mod top;
mod word;

pub use laws::{each_verdict, one_verdict};
pub use request::{Request, request_of};
pub use status::Status;
pub use top::gradual;
