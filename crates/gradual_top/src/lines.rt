//! The one line that goes to the error output.
ghost use Rattle.std.specs.Prelude.{◌≡◌, ◌≢◌, ◌++◌, OnOk, IfOk, codes};
ghost use Rattle.gc0_tree.specs.Views.{program_view};
ghost use Rattle.gradual_top.specs.Lines.{place_text, place_line, fault_word, what_of, function_name, stop_place, or_nowhere, line_of, absent_line, not_built_line, refused_at, lexical_line, parse_line, type_line, frame_line, name_line, limit_line};

use crate::word::word_at;
use c0_lex::LexFault;
use c0_parse::ParseFault;
use c0_types::TypeFault;
use gc0_base::{Ending, Kind, Place, Site, TrapKind};
use gc0_tree::{Program, place_of};
use program_limits::Limit;
use self_framing::FrameFault;
use std::alloc::{AllocError, Global};

/// The line of an ending, with its line end. The text is that of the program.
pub fn ending_text(
    alloc: Global,
    text: &[u8],
    program: &Program,
    ending: Ending,
) -> Result<Vec<u8>, AllocError>
    ensures { IfOk result (λ line. line.items ≡ line_of text.now (program_view program.now) ending) }
{
    match ending {
        Ending::Returned(word) => {
            let value = word.to_i32();
            Ok(format!(in alloc; "result {value}\n")?.into_bytes())
        }
        Ending::Stop(site) => {
            let place = stop_place(alloc, program, site)?;
            let what = what_of(alloc, text, program, site, place)?;
            place_line(alloc, b"stopped ", place, &what)
        }
        Ending::Fault(fault, site) => {
            let place = stop_place(alloc, program, site)?;
            place_line(alloc, b"fault ", place, fault_word(fault))
        }
        Ending::StepsUsed => Vec::from_slice(alloc, b"steps used\n"),
    }
}

/// The line of a file that is not there.
pub fn absent_text(alloc: Global, name: &str) -> Result<Vec<u8>, AllocError>
    ensures { IfOk result (λ line. line.items ≡ absent_line name.now) }
{
    Ok(format!(in alloc; "absent {name}\n")?.into_bytes())
}

/// The line of a text that is not built.
pub fn not_built_text(alloc: Global, place: Place) -> Result<Vec<u8>, AllocError>
    ensures { IfOk result (λ line. line.items ≡ not_built_line place) }
{
    let line = place.line;
    let column = place.column;
    Ok(format!(in alloc; "not built {line}:{column}\n")?.into_bytes())
}

/// The line of a lexical fault. Want of memory is none, and has no line: it is handed on.
pub fn lexical_text(alloc: Global, fault: LexFault) -> Result<Vec<u8>, AllocError>
    ensures line { IfOk result (λ line. line.items ≡ lexical_line fault) }
    ensures fault { IfOk result (λ _. fault ≢ LexFault.Memory) }
{
    match fault {
        LexFault::BadByte(place) => refused_at(alloc, place, b"bad byte"),
        LexFault::BadNumber(place) => refused_at(alloc, place, b"bad number"),
        LexFault::BadEscape(place) => refused_at(alloc, place, b"bad escape"),
        LexFault::OpenComment(place) => refused_at(alloc, place, b"open comment"),
        LexFault::OpenString(place) => refused_at(alloc, place, b"open string"),
        LexFault::NestedAnnotation(place) => refused_at(alloc, place, b"nested annotation"),
        LexFault::Memory => Err(AllocError),
    }
}

/// The line of a fault of the parser. Want of memory is none, and has no line: it is handed on.
pub fn parse_text(alloc: Global, fault: ParseFault) -> Result<Vec<u8>, AllocError>
    ensures line { IfOk result (λ line. line.items ≡ parse_line fault) }
    ensures fault { IfOk result (λ _. fault ≢ ParseFault.Memory) }
{
    match fault {
        ParseFault::Syntax(place) => refused_at(alloc, place, b"syntax"),
        ParseFault::TooDeep(_) => Vec::from_slice(alloc, b"limit nesting\n"),
        ParseFault::ContractOnPrototype(place) => refused_at(
            alloc,
            place,
            b"contract on prototype",
        ),
        ParseFault::DeepRead(place) => refused_at(alloc, place, b"deep read"),
        ParseFault::Memory => Err(AllocError),
    }
}

/// The line of a violation of the typing rules. Want of memory is none, and has no line: it is
/// handed on.
pub fn type_text(alloc: Global, fault: TypeFault) -> Result<Vec<u8>, AllocError>
    ensures line { IfOk result (λ line. line.items ≡ type_line fault) }
    ensures fault { IfOk result (λ _. fault ≢ TypeFault.Memory) }
{
    match fault {
        TypeFault::Unknown(place) => refused_at(alloc, place, b"unknown"),
        TypeFault::Twice(place) => refused_at(alloc, place, b"twice"),
        TypeFault::WrongType(place) => refused_at(alloc, place, b"wrong type"),
        TypeFault::WrongCount(place) => refused_at(alloc, place, b"wrong count"),
        TypeFault::Unassigned(place) => refused_at(alloc, place, b"unassigned"),
        TypeFault::NoReturn(place) => refused_at(alloc, place, b"no return"),
        TypeFault::AssignedInEnsures(place) => refused_at(alloc, place, b"assigned in ensures"),
        TypeFault::NoMain(place) => refused_at(alloc, place, b"no main"),
        TypeFault::Memory => Err(AllocError),
    }
}

/// The line of a fault of framing or guards.
pub fn frame_text(alloc: Global, fault: FrameFault) -> Result<Vec<u8>, AllocError>
    ensures { IfOk result (λ line. line.items ≡ frame_line fault) }
{
    match fault {
        FrameFault::NotFramed(place) => refused_at(alloc, place, b"not framed"),
        FrameFault::Unguarded(place) => refused_at(alloc, place, b"unguarded"),
    }
}

/// The line of a limit of counts that a program passes.
pub fn limit_text(alloc: Global, program: &Program, limit: Limit) -> Result<Vec<u8>, AllocError>
    ensures { IfOk result (λ line. line.items ≡ limit_line (program_view program.now) limit) }
{
    match limit {
        Limit::Structs => Vec::from_slice(alloc, b"limit structs\n"),
        Limit::Predicates => Vec::from_slice(alloc, b"limit predicates\n"),
        Limit::Functions => Vec::from_slice(alloc, b"limit functions\n"),
        Limit::Fields(_) => Vec::from_slice(alloc, b"limit fields\n"),
        Limit::Locals(number) => {
            name_line(alloc, b"limit locals ", function_name(program, number))
        }
        Limit::Temporaries(number) => {
            name_line(alloc, b"limit temporaries ", function_name(program, number))
        }
    }
}

// A word, and a name at the end of its line.
fn name_line(alloc: Global, word: &[u8], name: &[u8]) -> Result<Vec<u8>, AllocError>
    ensures { IfOk result (λ line. line.items ≡ name_line word.now name.now) }
{
    let mut line = named(alloc, word, name)?;
    put(&mut line, b"\n")?;
    Ok(line)
}

// The line of a rule that is broken at a place.
fn refused_at(alloc: Global, place: Place, cause: &[u8]) -> Result<Vec<u8>, AllocError>
    ensures { IfOk result (λ line. line.items ≡ refused_at place cause.now) }
{
    place_line(alloc, b"refused ", place, cause)
}

// A line of a word, a place, and what there is to say of it.
fn place_line(alloc: Global, word: &[u8], place: Place, what: &[u8]) -> Result<Vec<u8>, AllocError>
    ensures { IfOk result (λ line. line.items ≡ place_line word.now place what.now) }
{
    let at = place_text(alloc, place)?;
    let mut line = Vec::from_slice(alloc, word)?;
    put(&mut line, &at)?;
    put(&mut line, what)?;
    put(&mut line, b"\n")?;
    Ok(line)
}

// A place and a space.
fn place_text(alloc: Global, place: Place) -> Result<Vec<u8>, AllocError>
    ensures { IfOk result (λ at. at.items ≡ place_text place) }
{
    let line = place.line;
    let column = place.column;
    Ok(format!(in alloc; "{line}:{column} ")?.into_bytes())
}

// What stops the run at a site, at its place.
fn what_of(
    alloc: Global,
    text: &[u8],
    program: &Program,
    site: Site,
    place: Place,
) -> Result<Vec<u8>, AllocError>
    ensures { IfOk result (λ what. what.items ≡ what_of text.now (program_view program.now) site place) }
{
    match site.kind {
        Kind::Start => named(alloc, b"requires ", b"main"),
        Kind::Requires => named(alloc, b"requires ", word_at(text, place)),
        Kind::Ensures => named(alloc, b"ensures ", function_name(program, site.function)),
        Kind::Entry | Kind::Again => named(alloc, b"loop_invariant", b""),
        Kind::Assert => named(alloc, b"assert", b""),
        Kind::Fold => named(alloc, b"fold", b""),
        Kind::Unfold => named(alloc, b"unfold", b""),
        Kind::Access | Kind::Trap => named(alloc, b"access", b""),
    }
}

// A word, and the name behind it.
fn named(alloc: Global, word: &[u8], name: &[u8]) -> Result<Vec<u8>, AllocError>
    ensures { IfOk result (λ what. what.items ≡ word.now ++ name.now) }
{
    let mut what = Vec::from_slice(alloc, word)?;
    put(&mut what, name)?;
    Ok(what)
}

// The name of the function of a number.
fn function_name(program: &Program, number: u32) -> &[u8]
    ensures { result.now ≡ function_name (program_view program.now) number }
{
    match program.functions.get(number as usize) {
        Some(function) => function.name.as_slice(),
        None => b"",
    }
}

// The place of a site.
fn stop_place(alloc: Global, program: &Program, site: Site) -> Result<Place, AllocError>
    ensures { IfOk result (λ place. place ≡ stop_place (program_view program.now) site) }
{
    Ok(or_nowhere(place_of(alloc, program, site)?))
}

fn or_nowhere(place: Option<Place>) -> Place
    ensures { result ≡ or_nowhere place }
{
    match place {
        Some(place) => place,
        None => Place { line: 0, column: 0 },
    }
}

fn fault_word(fault: TrapKind) -> &'static [u8]
    ensures { result.now ≡ fault_word fault }
{
    match fault {
        TrapKind::Null => b"null",
        TrapKind::Division => b"division",
        TrapKind::Shift => b"shift",
        TrapKind::Assertion => b"assert",
        TrapKind::Raised => b"error",
        TrapKind::InputEnd => b"input",
    }
}

// One more piece of a line.
fn put(line: &mut Vec<u8>, piece: &[u8]) -> Result<(), AllocError>
    ensures { OnOk result (line.new.items ≡ line.old.items ++ piece.now) }
{
    line.extend_from_slice(piece)?;
    Ok(())
}
