//! Questions as texts.
ghost use Rattle.std.specs.Prelude.{◌≡◌, ◌<◌, length, IfOk, IfSome, OnOk};
ghost use Rattle.word_terms.specs.Terms.{sort_of, sort_of_unary, sort_of_binary, TakesTwo};
ghost use Rattle.word_terms.specs.Tables.{term};
ghost use Rattle.word_blast.specs.Queries.{ids};
ghost use Rattle.word_blast.specs.Valuations.{AreTruths};
ghost use Rattle.entail.specs.Sheets.{IsPlaced, ArePlaced};

use crate::{Answer, Decider};
use gc0_base::Word;
use std::alloc::{AllocError, Global};
use std::test::Fail;
use word_terms::{Op1, Op2, Sort, TermId, Terms};

/// Terms that are written behind their parts, as `x 3 <` for `x < 3`, with a stack of those
/// that are no part yet. The letters `x`, `y` and `z` are words, and `p` and `q` are truths.
#[derive(Drop)]
pub struct Sheet {
    pub terms: Terms,
    letters: Vec<(Sort, TermId)>,
    stack: Vec<(Sort, TermId)>,
}

impl Sheet {
    pub fn new(alloc: Global) -> Result<Sheet, AllocError>
        ensures letters { IfOk result (λ sheet. ArePlaced sheet.terms.nodes sheet.letters.items) }
        ensures stack { IfOk result (λ sheet. ArePlaced sheet.terms.nodes sheet.stack.items) }
    {
        let mut sheet = Sheet {
            terms: Terms::new(alloc),
            letters: Vec::new(alloc),
            stack: Vec::new(alloc),
        };
        for _word in 0..3 {
            sheet.add_letter(Sort::Word32)?;
        }
        for _truth in 0..2 {
            sheet.add_letter(Sort::Truth)?;
        }
        Ok(sheet)
    }

    fn add_letter(&mut self, sort: Sort) -> Result<(), AllocError>
        requires letters { ArePlaced self.old.terms.nodes self.old.letters.items }
        requires stack { ArePlaced self.old.terms.nodes self.old.stack.items }
        ensures letters { OnOk result (ArePlaced self.new.terms.nodes self.new.letters.items) }
        ensures stack { OnOk result (ArePlaced self.new.terms.nodes self.new.stack.items) }
    {
        let symbol = self.terms.symbol(sort)?;
        self.letters.push((sort, symbol))?;
        Ok(())
    }

    fn letter(&mut self, number: usize) -> Result<(), Fail>
        requires letters { ArePlaced self.old.terms.nodes self.old.letters.items }
        requires stack { ArePlaced self.old.terms.nodes self.old.stack.items }
        ensures letters { OnOk result (ArePlaced self.new.terms.nodes self.new.letters.items) }
        ensures stack { OnOk result (ArePlaced self.new.terms.nodes self.new.stack.items) }
    {
        if number >= self.letters.len() {
            return Err("no such letter".into());
        }
        let letter = self.letters[number];
        self.stack.push(letter)?;
        Ok(())
    }

    fn constant(&mut self, number: u32) -> Result<(), Fail>
        requires letters { ArePlaced self.old.terms.nodes self.old.letters.items }
        requires stack { ArePlaced self.old.terms.nodes self.old.stack.items }
        ensures letters { OnOk result (ArePlaced self.new.terms.nodes self.new.letters.items) }
        ensures stack { OnOk result (ArePlaced self.new.terms.nodes self.new.stack.items) }
    {
        let term = self.terms.constant(Word(number))?;
        self.stack.push((Sort::Word32, term))?;
        Ok(())
    }

    fn truth(&mut self, truth: bool) -> Result<(), Fail>
        requires letters { ArePlaced self.old.terms.nodes self.old.letters.items }
        requires stack { ArePlaced self.old.terms.nodes self.old.stack.items }
        ensures letters { OnOk result (ArePlaced self.new.terms.nodes self.new.letters.items) }
        ensures stack { OnOk result (ArePlaced self.new.terms.nodes self.new.stack.items) }
    {
        let term = self.terms.truth(truth)?;
        self.stack.push((Sort::Truth, term))?;
        Ok(())
    }

    // The last term, which has to have this sort.
    fn pop(&mut self, sort: Sort) -> Result<TermId, Fail>
        requires stack { ArePlaced self.old.terms.nodes self.old.stack.items }
        ensures terms { self.new.terms ≡ self.old.terms }
        ensures letters { self.new.letters.items ≡ self.old.letters.items }
        ensures stack { OnOk result (ArePlaced self.new.terms.nodes self.new.stack.items) }
        ensures within { IfOk result (λ t. t.0 < length self.new.terms.nodes) }
        ensures sort { IfOk result (λ t. sort_of (term self.new.terms.nodes t.0) ≡ sort) }
    {
        match self.stack.pop() {
            Some((found, term)) if found == sort => Ok(term),
            Some(_) => Err("a term of another sort".into()),
            None => Err("no term".into()),
        }
    }

    fn unary(&mut self, op: Op1, sort: Sort) -> Result<(), Fail>
        requires letters { ArePlaced self.old.terms.nodes self.old.letters.items }
        requires stack { ArePlaced self.old.terms.nodes self.old.stack.items }
        requires sort { sort ≡ sort_of_unary op }
        ensures letters { OnOk result (ArePlaced self.new.terms.nodes self.new.letters.items) }
        ensures stack { OnOk result (ArePlaced self.new.terms.nodes self.new.stack.items) }
    {
        let part = self.pop(sort)?;
        let term = self.terms.unary(op, part)?;
        self.stack.push((sort, term))?;
        Ok(())
    }

    fn binary(&mut self, op: Op2, sort: Sort) -> Result<(), Fail>
        requires letters { ArePlaced self.old.terms.nodes self.old.letters.items }
        requires stack { ArePlaced self.old.terms.nodes self.old.stack.items }
        requires sort { TakesTwo op sort sort }
        ensures letters { OnOk result (ArePlaced self.new.terms.nodes self.new.letters.items) }
        ensures stack { OnOk result (ArePlaced self.new.terms.nodes self.new.stack.items) }
    {
        let right = self.pop(sort)?;
        let left = self.pop(sort)?;
        let term = self.terms.binary(op, left, right)?;
        self.stack.push((sort_of_whole(op), term))?;
        Ok(())
    }

    // Of the first term, where the truth before both is true, and else the second.
    fn choose(&mut self) -> Result<(), Fail>
        requires letters { ArePlaced self.old.terms.nodes self.old.letters.items }
        requires stack { ArePlaced self.old.terms.nodes self.old.stack.items }
        ensures letters { OnOk result (ArePlaced self.new.terms.nodes self.new.letters.items) }
        ensures stack { OnOk result (ArePlaced self.new.terms.nodes self.new.stack.items) }
    {
        let no = self.pop(Sort::Word32)?;
        let yes = self.pop(Sort::Word32)?;
        let condition = self.pop(Sort::Truth)?;
        let term = self.terms.choose(condition, yes, no)?;
        self.stack.push((Sort::Word32, term))?;
        Ok(())
    }

    // One token of a text.
    fn write(&mut self, token: &str) -> Result<(), Fail>
        requires letters { ArePlaced self.old.terms.nodes self.old.letters.items }
        requires stack { ArePlaced self.old.terms.nodes self.old.stack.items }
        ensures letters { OnOk result (ArePlaced self.new.terms.nodes self.new.letters.items) }
        ensures stack { OnOk result (ArePlaced self.new.terms.nodes self.new.stack.items) }
    {
        if let Some((op, sort)) = operator(token) {
            return self.binary(op, sort);
        }
        match token {
            "," | "|-" => Ok(()),
            "x" => self.letter(0),
            "y" => self.letter(1),
            "z" => self.letter(2),
            "p" => self.letter(3),
            "q" => self.letter(4),
            "true" => self.truth(true),
            "false" => self.truth(false),
            "neg" => self.unary(Op1::Neg, Sort::Word32),
            "~" => self.unary(Op1::Not, Sort::Word32),
            "!" => self.unary(Op1::Flip, Sort::Truth),
            "?:" => self.choose(),
            _ => self.constant(token.parse::<u32>()?),
        }
    }

    /// The terms of a text, one behind the other. A comma ends a fact, and `|-` the last.
    pub fn write_all(&mut self, text: &str) -> Result<(), Fail>
        requires letters { ArePlaced self.old.terms.nodes self.old.letters.items }
        requires stack { ArePlaced self.old.terms.nodes self.old.stack.items }
        ensures letters { OnOk result (ArePlaced self.new.terms.nodes self.new.letters.items) }
        ensures stack { OnOk result (ArePlaced self.new.terms.nodes self.new.stack.items) }
    {
        for token in text.split_whitespace() {
            self.write(token)?;
        }
        Ok(())
    }

    /// So many times the terms of a text.
    pub fn write_repeatedly(&mut self, text: &str, times: u32) -> Result<(), Fail>
        requires letters { ArePlaced self.old.terms.nodes self.old.letters.items }
        requires stack { ArePlaced self.old.terms.nodes self.old.stack.items }
        ensures letters { OnOk result (ArePlaced self.new.terms.nodes self.new.letters.items) }
        ensures stack { OnOk result (ArePlaced self.new.terms.nodes self.new.stack.items) }
    {
        for _time in 0..times {
            self.write_all(text)?;
        }
        Ok(())
    }

    /// Whether the last term follows from the others.
    pub fn ask<D: Decider>(&mut self, alloc: Global, decider: &mut D) -> Result<Answer, Fail>
        requires stack { ArePlaced self.old.terms.nodes self.old.stack.items }
    {
        let claim = self.pop(Sort::Truth)?;
        let mut facts = Vec::new(alloc);
        for _fact in 0..self.stack.len() {
            facts.push(self.pop(Sort::Truth)?)?;
        }
        Ok(decider.entails(alloc, &self.terms, &facts, claim)?)
    }
}

// An operator of two parts, with their sort.
fn operator(token: &str) -> Option<(Op2, Sort)>
    ensures { IfSome result (λ it. TakesTwo it.0 it.1 it.1) }
{
    match token {
        "+" => Some((Op2::Add, Sort::Word32)),
        "-" => Some((Op2::Sub, Sort::Word32)),
        "*" => Some((Op2::Mul, Sort::Word32)),
        "/" => Some((Op2::Div, Sort::Word32)),
        "%" => Some((Op2::Rem, Sort::Word32)),
        "&" => Some((Op2::And, Sort::Word32)),
        "|" => Some((Op2::Or, Sort::Word32)),
        "^" => Some((Op2::Xor, Sort::Word32)),
        "<<" => Some((Op2::Shl, Sort::Word32)),
        ">>" => Some((Op2::Shr, Sort::Word32)),
        "<" => Some((Op2::Less, Sort::Word32)),
        "==" => Some((Op2::Equal, Sort::Word32)),
        "<=>" => Some((Op2::Equal, Sort::Truth)),
        "&&" => Some((Op2::Both, Sort::Truth)),
        "||" => Some((Op2::Either, Sort::Truth)),
        _ => None,
    }
}

fn sort_of_whole(op: Op2) -> Sort
    ensures { result ≡ sort_of_binary op }
{
    match op {
        Op2::Less | Op2::Equal | Op2::Both | Op2::Either => Sort::Truth,
        _ => Sort::Word32,
    }
}
