//! The law that code of programs that can be run is code that the machine runs.

ghost use Rattle.stack_runner.specs.Built.{IsBuiltWhole};

/// The code of a program of the built forms is one that a machine takes. A law, so this function
/// does nothing.
pub fn built_programs_have_built_code()
    ensures { IsBuiltWhole }
{}
