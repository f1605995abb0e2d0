//! The reader, which takes line by line.
ghost use Rattle.std.specs.Prelude.{◌≡◌, ◌≢◌, OnOk, Err, None, Some};
ghost use Rattle.sat_text.specs.Texts.{words_of, row_of};
ghost use Rattle.sat_text.specs.Reading.{token_step, word_step, words_step, header_in, header_row, row_step, start, formula_of};

use crate::formula::{Clauses, Formula};
use crate::limits::FormulaLimits;
use crate::numerals::{Token, number_in, token_in};
use crate::words::{is_comment, next_word};
use sat_check::{Clause, Lits};
use std::alloc::{AllocError, AllocFailed, Global};

/// Why a line is not taken.
#[derive(Clone, Copy, Debug, PartialEq, Eq)]
pub(crate) enum LineFault {
    /// It is none of the format.
    Bad,
    /// There was not memory enough.
    Memory,
}

impl From<AllocError> for LineFault {
    ghost use Rattle.std.specs.Prelude.{◌≡◌};
    ghost use Rattle.sat_text.specs.declared.reader.LineFault.TheVariants.{Memory};

    ghost from_gives = { λ _ e. e ≡ Memory };

    fn from(_: AllocError) -> LineFault {
        LineFault::Memory
    }
}

/// What a header says: how many variables and how many clauses there are.
#[derive(Clone, Copy)]
pub(crate) struct Header {
    pub(crate) variables: u32,
    pub(crate) clauses: u32,
}

/// What was read so far: the header, the clauses that have ended, and the literals behind them.
#[derive(Drop)]
pub(crate) struct Reader {
    pub(crate) header: Option<Header>,
    pub(crate) clauses: Clauses,
    pub(crate) lits: Lits,
}

impl Reader {
    /// Before the first line.
    pub(crate) fn new(alloc: Global) -> Reader
        ensures { result ≡ start }
    {
        Reader {
            header: None,
            clauses: Clauses::new(alloc),
            lits: Lits::new(alloc),
        }
    }

    // The literals so far become a clause.
    fn end_clause(&mut self, alloc: Global) -> Result<(), LineFault>
        ensures ok { OnOk result (token_step self.old Token.End ≡ self.new) }
        ensures fault { result ≢ Err LineFault.Bad }
    {
        let lits = std::mem::replace(&mut self.lits, Lits::new(alloc));
        self.clauses.push(Clause { lits })?;
        Ok(())
    }

    // One more token.
    fn take_token(&mut self, alloc: Global, token: Token) -> Result<(), LineFault>
        ensures ok { OnOk result (token_step self.old token ≡ self.new) }
        ensures fault { result ≢ Err LineFault.Bad }
    {
        match token {
            Token::End => self.end_clause(alloc),
            Token::Literal(lit) => {
                self.lits.push(lit)?;
                Ok(())
            }
        }
    }

    // A word behind the header.
    fn take_word(&mut self, alloc: Global, header: Header, word: &[u8]) -> Result<(), LineFault>
        ensures ok { OnOk result (word_step header self.old word.now ≡ Some self.new) }
        ensures bad { result ≡ Err LineFault.Bad → word_step header self.old word.now ≡ None }
    {
        if self.clauses.len() >= header.clauses as usize {
            return Err(LineFault::Bad);
        }
        match token_in(header.variables, word) {
            Some(token) => self.take_token(alloc, token),
            None => Err(LineFault::Bad),
        }
    }

    // All words of a line behind the header.
    fn take_words(&mut self, alloc: Global, header: Header, line: &[u8]) -> Result<(), LineFault>
        ensures ok { OnOk result (words_step header self.old (words_of line.now) ≡ Some self.new) }
        ensures bad { result ≡ Err LineFault.Bad → words_step header self.old (words_of line.now) ≡ None }
    {
        let mut rest = line;
        while let Some((word, behind)) = next_word(rest) {
            self.take_word(alloc, header, word)?;
            rest = behind;
        }
        Ok(())
    }

    /// One more line. After a fault the reader is of no use.
    pub(crate) fn take_line(&mut self, alloc: Global, line: &[u8]) -> Result<(), LineFault>
        ensures ok { OnOk result (row_step self.old (row_of line.now) ≡ Some self.new) }
        ensures bad { result ≡ Err LineFault.Bad → row_step self.old (row_of line.now) ≡ None }
    {
        if is_comment(line) {
            return Ok(());
        }
        match self.header {
            Some(header) => self.take_words(alloc, header, line),
            None => self.take_header(line),
        }
    }

    // A line before the header, or the header.
    fn take_header(&mut self, line: &[u8]) -> Result<(), LineFault>
        ensures ok { OnOk result (header_row self.old (words_of line.now) ≡ Some self.new) }
        ensures bad { result ≡ Err LineFault.Bad → header_row self.old (words_of line.now) ≡ None }
    {
        if next_word(line).is_none() {
            return Ok(());
        }
        match header_in(line) {
            Some(header) => {
                self.header = Some(header);
                Ok(())
            }
            None => Err(LineFault::Bad),
        }
    }

    /// The formula, where the text ends here.
    pub(crate) fn formula(self) -> Option<Formula>
        ensures { result ≡ formula_of self }
    {
        let header = self.header?;
        if self.clauses.len() != header.clauses as usize || !self.lits.is_empty() {
            return None;
        }
        Some(Formula {
            variables: header.variables,
            clauses: self.clauses,
        })
    }
}

// The header that a line is.
fn header_in(line: &[u8]) -> Option<Header>
    ensures { result ≡ header_in (words_of line.now) }
{
    let (p, rest) = next_word(line)?;
    let (cnf, rest) = next_word(rest)?;
    let (variables, rest) = next_word(rest)?;
    let (clauses, rest) = next_word(rest)?;
    if next_word(rest).is_some() || p != b"p".as_slice() || cnf != b"cnf".as_slice() {
        return None;
    }
    Some(Header {
        variables: number_in(FormulaLimits::VARIABLES, variables)?,
        clauses: number_in(FormulaLimits::CLAUSES, clauses)?,
    })
}
