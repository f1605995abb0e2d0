//! The instructions of the stack machine, and the law of the code of a core. It holds of the
//! definitions, so the function does nothing.
#![tactic(auto)]

ghost use Rattle.code_laws.specs.CodeLaws.{code_law};

/// The code of a stepped core does what the watched core does, with the parts of any placement.
pub fn code_follows()
    ensures { code_law }
{}
