//! What is written for the tree of a text.

ghost use Rattle.c0_print.specs.Laws.{WritesTree, WritesGood, WritesNoDeeper, WritesAgain, ReadsAnywhere};

/// What is written for the tree of a text is that tree, places aside.
pub fn writes_tree()
    ensures { WritesTree }
{}

/// What is written for the tree of a text that the grammar allows is allowed by it.
pub fn writes_good()
    ensures { WritesGood }
{}

/// What is written for the tree of a text that the grammar allows is no deeper than the text.
pub fn writes_no_deeper()
    ensures { WritesNoDeeper }
{}

/// What is written for the tree of a program is a program with that tree, places aside.
pub fn writes_again()
    ensures { WritesAgain }
{}

/// Tokens that are those which are written for the tree of a program, wherever they stand, are a
/// program with that tree, places aside.
pub fn reads_anywhere()
    ensures { ReadsAnywhere }
{}
