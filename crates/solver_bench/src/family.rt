//! The families of queries that are measured.

ghost use Rattle.std.specs.Prelude.{◌≡◌, IfSome};
ghost use Rattle.solver_bench.specs.Families.{operator, IsSorted};

use word_terms::Op2;

/// The operators between the words of a chain, from the left.
#[derive(Clone, Copy, Debug, PartialEq, Eq)]
pub enum Links {
    /// One operator at each place.
    Same(Op2),
    /// `<<` and `>>` by turns.
    Shifts,
}

/// What a symbol and the next one are asked to be.
#[derive(Clone, Copy, Debug, PartialEq, Eq)]
pub enum Pair {
    /// `x < y`
    Less,
    /// `x == y`
    Equal,
    /// `-x == y`
    Negated,
    /// `(x < y ? x : y) == y`
    Least,
    /// `x + 1 == y + 1`, a fact that shares its left side with the fact before it.
    Fact,
}

/// The queries that are measured: a family has one of each size.
#[derive(Clone, Copy, Debug, PartialEq, Eq)]
pub enum Family {
    /// `x0 op x1 op .. == y`, with so many operators.
    Words(Links),
    /// `x0 op x1 op ..` over truths, with so many operators.
    Truths(Op2),
    /// So many pairs.
    Pairs(Pair),
}

const FAMILIES: [(&str, Family); 18] = [
    ("add", Family::Words(Links::Same(Op2::Add))),
    ("sub", Family::Words(Links::Same(Op2::Sub))),
    ("mul", Family::Words(Links::Same(Op2::Mul))),
    ("div", Family::Words(Links::Same(Op2::Div))),
    ("rem", Family::Words(Links::Same(Op2::Rem))),
    ("and", Family::Words(Links::Same(Op2::And))),
    ("or", Family::Words(Links::Same(Op2::Or))),
    ("xor", Family::Words(Links::Same(Op2::Xor))),
    ("shl", Family::Words(Links::Same(Op2::Shl))),
    ("shr", Family::Words(Links::Same(Op2::Shr))),
    ("shifts", Family::Words(Links::Shifts)),
    ("both", Family::Truths(Op2::Both)),
    ("either", Family::Truths(Op2::Either)),
    ("less", Family::Pairs(Pair::Less)),
    ("equal", Family::Pairs(Pair::Equal)),
    ("neg", Family::Pairs(Pair::Negated)),
    ("choose", Family::Pairs(Pair::Least)),
    ("facts", Family::Pairs(Pair::Fact)),
];

/// The family of a name.
pub fn family_of(name: &str) -> Option<Family>
    ensures { IfSome result IsSorted }
{
    for (known, family) in FAMILIES {
        if known == name {
            return Some(family);
        }
    }
    None
}

impl Links {
    /// The operator at a place, counted from 0.
    pub fn at(self, place: u32) -> Op2
        ensures { result ≡ operator self place }
    {
        match self {
            Links::Same(op) => op,
            Links::Shifts if place % 2 == 0 => Op2::Shl,
            Links::Shifts => Op2::Shr,
        }
    }
}
