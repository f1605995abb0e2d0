//! The call that reads a program, and the laws of reading.

ghost use Rattle.std.specs.Prelude.{IfOk, IfErr};
ghost use Rattle.built_text.specs.Tree.{ProgramTree};
ghost use Rattle.built_text.specs.Views.{program_view};
ghost use Rattle.built_text.specs.Tokens.{all_built, EndsLast};
ghost use Rattle.built_text.specs.Grammar.{IsProgram};
ghost use Rattle.built_text.specs.Reads.{HasReadCause, OneTree, OneFault, EachTokens};
ghost use Rattle.built_text.specs.Answers.{GivesOrMemory};

use crate::functions::program_of;
use crate::tokens::built_tokens;
use crate::tree::{Program, ReadFault};
use std::alloc::Global;

/// Reads the tokens of a program, as `c0_lex::tokens` gives them, into its tree.
///
/// ```text
/// program  = { function }
/// function = type id "(" [ type id { "," type id } ] ")" { contract }
///            "{" { stmt } "return" expr ";" "}"
/// type     = "int" | "bool"
/// contract = begin ( "requires" | "ensures" ) formula ";" end
/// stmt     = type id "=" right ";" | id "=" right ";" | call ";"
///          | ( "printint" | "printbool" ) "(" expr ")" ";" | "return" expr ";"
///          | "if" "(" expr ")" block [ "else" block ]
///          | "while" "(" expr ")" { begin "loop_invariant" formula ";" end } block
///          | begin "assert" formula ";" end
/// block    = "{" { stmt } "}"
/// right    = expr | call                 call = id "(" [ expr { "," expr } ] ")"
/// formula  = "?" [ "&&" parts ] | parts  parts = expr { "&&" expr }
/// ```
///
/// `begin` and `end` open and close an annotation. An `expr` has numbers, `true`, `false`, locals,
/// parentheses, `!`, `-`, `*`, `+`, the four orders, `==` and `!=`, with the precedence of the C0
/// Reference, and in an `ensures` also `\result`. The unary `!` and `-`, the `(` of an expression
/// and the blocks together nest at most `Limits::NESTING` deep, and one expression has at most as
/// many operators between two expressions as a source text may have bytes. No keyword and no
/// library call is an `id`.
///
/// Tokens that are none of the grammar are `NotBuilt`, at the first that, with those before it,
/// begins no text of the grammar.
pub fn read(alloc: Global, tokens: &[c0_lex::Token<'_>]) -> Result<Program, ReadFault>
    ensures tree { IfOk result (λ p. IsProgram (all_built tokens.now) (program_view p)) }
    ensures fault { EndsLast (all_built tokens.now) → IfErr result (λ e. HasReadCause (all_built tokens.now) e) }
    ensures only { (p : ProgramTree) → IsProgram (all_built tokens.now) p → GivesOrMemory p result }
{
    let taken = built_tokens(alloc, tokens)?;
    program_of(alloc, &taken)
}

/// Tokens have at most one tree.
pub fn one_tree()
    ensures { OneTree }
{}

/// Tokens have at most one first fault, and those that have a tree have none.
pub fn one_fault()
    ensures { OneFault }
{}

/// Tokens that end with the end of the text have a tree or a first fault.
pub fn each_tokens()
    ensures { EachTokens }
{}
