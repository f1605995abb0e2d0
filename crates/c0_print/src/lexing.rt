//! What is printed has tokens, and is read again.

ghost use Rattle.c0_print.specs.Laws.{PrintsTokens, ReadsBack};

use c0_lex::quoted_means;

/// What is printed for the tree of a text has the tokens that are written for it, wherever they
/// stand.
pub fn prints_tokens()
    ensures { PrintsTokens }
{
    quoted_means();
}

/// What is printed for the tree of a text is a text with that tree, places aside, and no deeper.
pub fn reads_back()
    ensures { ReadsBack }
{
    prints_tokens();
}
