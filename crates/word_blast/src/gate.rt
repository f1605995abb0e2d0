//! Gates.

/// The gates of circuits, each of two or three bits. `Sum` and `Carry` are the two bits of a
/// sum of three, and `Pick` is the first bit where the third is true, and else the second.
#[derive(Clone, Copy, Debug, PartialEq, Eq)]
pub enum Gate {
    And,
    Xor,
    Sum,
    Carry,
    Pick,
}
