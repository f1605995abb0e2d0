//! What each part of the parser does with the answer of a smaller one.

/// A part's value, or its fault as that of the whole.
#[macro_export]
macro_rules! part {
    ($part:expr) => {
        match $part {
            Ok(value) => value,
            Err(fault) => return Err(fault),
        }
    };
}
