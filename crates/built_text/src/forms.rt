//! Each text that is read is a program of the language, of the forms that are built.

ghost use Rattle.built_text.specs.Forms.{IsBuiltLaw};

use c0_grammar::one_tree;

/// A text of this grammar has, in the whole grammar of C0, a tree of the forms that are built.
pub fn built_forms()
    ensures { IsBuiltLaw }
{
    one_tree();
}
