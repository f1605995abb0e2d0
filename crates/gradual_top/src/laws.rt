//! What is true of every text: it has one verdict.
ghost use Rattle.gradual_top.specs.Source.{OneVerdict, EachVerdict};

use built_text::{cut_ends_last, each_tokens};
use c0_grammar::{one_tree, run_is_exact};
use c0_lex::{each_text, never_both, one_fault, one_list};

/// A text has at most one verdict: refused for one fault, too deep, past one limit of counts, not
/// built at one place, or run.
pub fn one_verdict()
    ensures { OneVerdict }
{
    one_list();
    one_fault();
    never_both();
    one_tree();
    built_text::one_fault();
}

/// Each text has a verdict.
pub fn each_verdict()
    ensures { EachVerdict }
{
    each_text();
    run_is_exact();
    each_tokens();
    cut_ends_last();
}
