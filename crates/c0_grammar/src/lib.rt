//! The grammar of C0 in this project's profile, as definitions and laws about them: what is
//! written, what the grammar allows, and how tokens are taken one by one.
//!
//! Nothing here runs. A parser's contract says that it gives what `run` gives, and these laws say
//! what that is.
#![tactic(auto)]

ghost use Rattle.c0_grammar.specs.Reads.{OneTree};
ghost use Rattle.c0_grammar.specs.Laws.{RunIsExact, RunIsComplete};

/// The run over tokens gives the tree of a program, or stands at its first fault.
pub fn run_is_exact()
    ensures { RunIsExact }
{}

/// A program that is not too deep is read as its tree.
pub fn run_is_complete()
    ensures { RunIsComplete }
{}

/// A text has at most one tree.
pub fn one_tree()
    ensures { OneTree }
{}
