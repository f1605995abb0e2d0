//! A whole program.
#![tactic(auto, using(c0_cursor::specs::Laws::fails_as))]

ghost use Rattle.std.specs.Prelude.{◌≡◌, ◌<◌, ℕ, List, [], length, Ok, IfOk, IfErr};
ghost use Rattle.parsed_tree.specs.declared.items.Library.{Library};
ghost use Rattle.parsed_tree.specs.Tree.{ProgramTree};
ghost use Rattle.parsed_tree.specs.Views.{program_view};
ghost use Rattle.c0_grammar.specs.Tokens.{use_mark};
ghost use Rattle.c0_grammar.specs.Plan.{Plan, await, many, use_loop, use_plan, start};
ghost use Rattle.c0_grammar.specs.Reads.{EndsLast, Reads};
ghost use Rattle.c0_cursor.specs.Seen.{reading, Parsed as Answer};
ghost use Rattle.c0_grammar.specs.Seen.{all_seen};
ghost use Rattle.parse_faults.specs.TreeFaults.{tree_faults};
ghost use Rattle.c0_parse.specs.Causes.{HasCause};
ghost use Rattle.c0_parse.specs.Answers.{AnswersTree, answer_of};

use crate::items::items_of;
use crate::part;
use c0_cursor::{Mark, Stop, begins, expect, library, remaining};
use c0_grammar::{run_is_complete, run_is_exact};
use c0_lex::{Symbol, Token};
use gc0_base::Limits;
use parse_faults::{ParseFault, first_fault};
use parsed_tree::{Library, Parsed};
use sqlite_items::Items;
use std::alloc::Global;

// A line that names a library.
fn use_of<'t, 'a>(tokens: &'t [Token<'a>]) -> Result<(Library, &'t [Token<'a>]), Stop>
    ensures reads { (next : Library → ℕ → Plan) → Answer (λ x. reading (next x.0 0) x.1.now) (reading (await 0 use_mark (λ at. use_plan next)) tokens.now) result }
    ensures shorter { IfOk result (λ x. length x.1.now < length tokens.now) }
{
    let (_, rest) = part!(expect(Mark::Use, tokens));
    let (_, rest) = part!(expect(Mark::Sign(Symbol::Less), rest));
    let (library, rest) = part!(library(rest));
    let (_, rest) = part!(expect(Mark::Sign(Symbol::Greater), rest));
    Ok((library, rest))
}

// The libraries that the program names, which stand first.
fn libraries_of<'t, 'a>(
    alloc: Global,
    tokens: &'t [Token<'a>],
) -> Result<(Items<Library>, &'t [Token<'a>]), Stop>
    ensures reads { (next : List Library → ℕ → Plan) → Answer (λ x. reading (next x.0 0) x.1.now) (reading (many use_loop next) tokens.now) result }
{
    let mut found = Items::new(alloc);
    let mut rest = tokens;
    while begins(Mark::Use, rest) {
        let (library, after) = part!(use_of(rest));
        found.push(library)?;
        rest = remaining(after);
    }
    Ok((found, rest))
}

// The tree of the tokens, whatever its faults.
fn tree_of(alloc: Global, tokens: &[Token<'_>]) -> Result<Parsed, Stop>
    ensures { Answer (λ p. Ok (program_view p)) (reading start tokens.now) result }
{
    let (uses, rest) = part!(libraries_of(alloc, tokens));
    let (items, _, rest) = part!(items_of(alloc, rest));
    match rest.split_first() {
        None => Ok(Parsed { uses, items }),
        Some((token, _)) => Err(Stop::Syntax(token.place)),
    }
}

// A tree without a fault, or the first fault.
fn answer_of(read: Result<Parsed, Stop>) -> Result<Parsed, ParseFault>
    ensures { result ≡ answer_of read }
{
    match read {
        Ok(parsed) => match first_fault(&parsed) {
            None => Ok(parsed),
            Some(fault) => Err(fault),
        },
        Err(Stop::Syntax(place)) => Err(ParseFault::Syntax(place)),
        Err(Stop::TooDeep(place)) => Err(ParseFault::TooDeep(place)),
        Err(Stop::Memory) => Err(ParseFault::Memory),
    }
}

/// Reads the tokens of a text into its tree, or names its first fault: of the text, and else of
/// the tree.
///
/// `tokens` are those that `c0_lex::tokens` gives; the last of them is the end of the text.
/// Errors: `Syntax` and `TooDeep` where the tokens have no tree, or one with a path of more than
/// 100 nodes; `ContractOnPrototype` and `DeepRead` where the tree has such faults, and this one
/// stands first; `Memory` where there was not memory enough. All but the last hold the place of
/// the fault.
///
/// The grammar is a part of that of the C0 Reference, with the annotations of Gradual C0.
pub fn parse(alloc: Global, tokens: &[Token<'_>]) -> Result<Parsed, ParseFault>
    ensures tree { EndsLast (all_seen tokens.now) → IfOk result (λ p. Reads Limits.NESTING (all_seen tokens.now) (program_view p)) }
    ensures faultless { IfOk result (λ p. tree_faults (program_view p) ≡ []) }
    ensures cause { EndsLast (all_seen tokens.now) → IfErr result (λ e. HasCause (all_seen tokens.now) e) }
    ensures complete { (p : ProgramTree) → Reads Limits.NESTING (all_seen tokens.now) p → AnswersTree p result }
{
    run_is_exact();
    run_is_complete();
    answer_of(tree_of(alloc, tokens))
}
