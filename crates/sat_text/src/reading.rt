//! Reading a whole text.
ghost use Rattle.std.specs.Prelude.{◌≡◌, ℕ, ◌≤◌, IfOk, IfErr, Some};
ghost use Rattle.sat_text.specs.Texts.{rows_of};
ghost use Rattle.sat_text.specs.Formulas.{Denotes, FirstFault};
ghost use Rattle.sat_text.specs.Reading.{formula_in};
ghost use Rattle.sat_text.specs.Faults.{IsFaultAt};
ghost use Rattle.sat_text.specs.declared.formula.Formula.{Formula as OneFormula};

use crate::formula::Formula;
use crate::reader::{LineFault, Reader};
use crate::words::first_line;
use std::alloc::Global;

/// Why a text gives no formula.
#[derive(Clone, Copy, Debug, PartialEq, Eq)]
pub enum TextFault {
    /// The line of this number, counted from 1, is none of the format, or the text ends there
    /// too soon.
    BadLine(usize),
    /// There was not memory enough.
    Memory,
}

/// The formula that a text in the DIMACS CNF format says.
///
/// A line that begins with `c` is a comment and has no words. The first line that has words is
/// `p cnf V C`, with at most 1,000,000 variables and 4,294,967,295 clauses. Behind it stand C
/// clauses, each of them literals and a 0; a literal is the number of its variable, from 1 to V,
/// behind a minus where it is negated. Numbers have no leading zero and no plus. Words are
/// separated by spaces, tabs and line ends.
pub fn read(alloc: Global, text: &[u8]) -> Result<Formula, TextFault>
    // What is read is what the text says.
    ensures formula { IfOk result (λ f. Denotes (rows_of text.now) f) }
    // What a text says is read, unless memory runs out.
    ensures only { (f : OneFormula) → Denotes (rows_of text.now) f → IfOk result (λ g. g ≡ f) }
    ensures complete { (f : OneFormula) → Denotes (rows_of text.now) f → IfErr result (λ e. e ≡ TextFault.Memory) }
    // Which line is the first that is none of the format.
    ensures fault { (line : ℕ) → result ≡ Err (TextFault.BadLine line) → FirstFault (rows_of text.now) line }
{
    read_lines(alloc, text)
}

// The formula, line by line.
fn read_lines(alloc: Global, text: &[u8]) -> Result<Formula, TextFault>
    ensures formula { IfOk result (λ f. formula_in (rows_of text.now) ≡ Some f) }
    ensures fault { (line : ℕ) → result ≡ Err (TextFault.BadLine line) → IsFaultAt (rows_of text.now) line }
{
    let mut reader = Reader::new(alloc);
    let mut rest = text;
    let mut number = 1;
    loop {
        let (line, behind) = first_line(rest);
        match reader.take_line(alloc, line) {
            Ok(()) => {}
            Err(LineFault::Bad) => return Err(TextFault::BadLine(number)),
            Err(LineFault::Memory) => return Err(TextFault::Memory),
        }
        let Some(behind) = behind else {
            break;
        };
        rest = behind;
        number += 1;
    }
    match reader.formula() {
        Some(formula) => Ok(formula),
        None => Err(TextFault::BadLine(number)),
    }
}
