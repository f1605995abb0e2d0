//! Laws of the tokens of texts.

ghost use Rattle.c0_lex.specs.Words.{QuotedMeans};
ghost use Rattle.c0_lex.specs.Texts.{OneList, OneFault, NeverBoth, EachText, FirstShown, Slices};

/// A text has at most one list of tokens.
pub fn one_list()
    ensures { OneList }
{}

/// A text has at most one first fault.
pub fn one_fault()
    ensures { OneFault }
{}

/// No text has both tokens and a fault.
pub fn never_both()
    ensures { NeverBoth }
{}

/// Each text has tokens or a fault.
pub fn each_text()
    ensures { EachText }
{}

/// The text of a string stands for what its characters stand for.
pub fn quoted_means()
    ensures { QuotedMeans }
{}

/// The fault of a text is the one that its shortest front shows, where a front shows a fault if
/// no text that begins so has tokens: all texts that begin with such a front have one fault.
pub fn first_shown()
    ensures { FirstShown }
{}

/// The tokens of a text are slices of it, each at its place and behind the one before it.
pub fn slices()
    ensures { Slices }
{}
