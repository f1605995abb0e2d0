//! Which of the entries that were set aside lies within a clause.
ghost use Rattle.std.specs.Prelude.{◌≡◌, ◌↔◌, ℕ, ◌*◌, ◌<◌, bit_or, length, List, IfOk, IfSome, IfNone, OnOk, Some, slice_get, true};
ghost use Rattle.std.specs.List.{All, Contains};
ghost use Rattle.sat_check.specs.Clauses.{AreBelow, ClausesAreBelow};
ghost use Rattle.sat_check.specs.Logs.{EntriesAreBelow, known_before};
ghost use Rattle.search_state.specs.Shelves.{IsShelf, IsCarded, IsAside, HasFewest, IsPutAt, IsMarked, AreMarked, HasMarked, HasBits, IsSignature, cards_of, code_of, bit_of};
ghost use Rattle.sat_check.specs.declared.clause.Clause.{Clause as OneClause};
ghost use Rattle.sat_check.specs.declared.clause.Lit.{Lit as OneLit};
ghost use Rattle.search_state.specs.declared.shelf.Card.{Card as OneCard};

use crate::watches::Pair;
use sat_check::{Clause, Entry, Lit, named};
use std::alloc::{AllocError, Global};

/// An entry that was set aside, by its number, and a bit for each of its literals.
#[derive(Clone, Copy)]
pub struct Card {
    pub index: u32,
    pub signature: u64,
}

/// For each variable the cards of entries that stand under it, and of those that stand under its
/// negation: an entry stands under one of its literals. And a mark for each literal, all of them
/// unset from one call to the next.
#[derive(Drop)]
pub struct Shelf {
    pub positive: Vec<Vec<Card>>,
    pub negative: Vec<Vec<Card>>,
    pub marks: Vec<bool>,
}

impl Shelf {
    /// No entry stands on it.
    pub fn new(alloc: Global, variables: u32) -> Result<Shelf, AllocError>
        ensures { IfOk result (IsShelf variables) }
    {
        Ok(Shelf {
            positive: no_cards(alloc, variables)?,
            negative: no_cards(alloc, variables)?,
            marks: vec![in alloc; false; 2 * variables as usize]?,
        })
    }

    /// Puts the entry of that number under the one of its literals that has the fewest cards.
    pub fn add(&mut self, index: u32, lits: &[Lit]) -> Result<(), AllocError>
        requires shelf { IsShelf (length self.old.positive.items) self.old }
        requires below { AreBelow (length self.old.positive.items) lits.now }
        requires some { 0 < length lits.now }
        ensures shelf { OnOk result (IsShelf (length self.old.positive.items) self.new) }
        ensures kept { OnOk result ((other : ℕ) (others : List OneLit) → IsCarded self.old other others → IsCarded self.new other others) }
        ensures carded { OnOk result (IsCarded self.new index lits.now) }
    {
        let lit = self.rarest(lits);
        let card = Card {
            index,
            signature: signature_of(lits),
        };
        if lit.positive {
            push_at(&mut self.positive, lit.variable, card)
        } else {
            push_at(&mut self.negative, lit.variable, card)
        }
    }

    // The literal under which the fewest cards stand.
    fn rarest(&self, lits: &[Lit]) -> Lit
        requires shelf { IsShelf (length self.now.positive.items) self.now }
        requires below { AreBelow (length self.now.positive.items) lits.now }
        requires some { 0 < length lits.now }
        ensures stands { Contains lits.now result }
        ensures fewest { HasFewest self.now lits.now result }
    {
        let mut rarest = lits[0];
        for lit in lits {
            if self.of(*lit).len() < self.of(rarest).len() {
                rarest = *lit;
            }
        }
        rarest
    }

    // The cards that stand under the literal.
    fn of(&self, lit: Lit) -> &[Card]
        requires positive { lit.variable < length self.now.positive.items }
        requires negative { lit.variable < length self.now.negative.items }
        ensures { result.now ≡ cards_of self.now lit }
    {
        if lit.positive {
            self.positive[lit.variable as usize].as_slice()
        } else {
            self.negative[lit.variable as usize].as_slice()
        }
    }

    /// The number of an entry that was set aside and has all its literals among these, if there is
    /// one on the shelf.
    pub fn within(
        &mut self,
        pairs: &[Pair],
        clauses: &[Clause],
        entries: &[Entry],
        lits: &[Lit],
    ) -> Option<u32>
        requires shelf { IsShelf (length self.old.positive.items) self.old }
        requires below { AreBelow (length self.old.positive.items) lits.now }
        requires clauses_below { ClausesAreBelow (length self.old.positive.items) clauses.now }
        requires entries_below { EntriesAreBelow (length self.old.positive.items) entries.now }
        ensures positive { self.new.positive ≡ self.old.positive }
        ensures negative { self.new.negative ≡ self.old.negative }
        ensures shelf { IsShelf (length self.old.positive.items) self.new }
        ensures found { IfSome result (IsAside pairs.now) }
        ensures none { IfNone result ((index : ℕ) (clause : OneClause) → slice_get (known_before clauses.now entries.now) index ≡ Some clause → IsAside pairs.now index → IsCarded self.old index clause.lits → ¬ All (Contains lits.now) clause.lits) }
    {
        self.mark(lits, true);
        let found = self.marked(pairs, clauses, entries, lits);
        self.mark(lits, false);
        found
    }

    // Sets or unsets the marks of the literals.
    fn mark(&mut self, lits: &[Lit], mark: bool)
        requires len { length self.old.marks.items ≡ 2 * length self.old.positive.items }
        requires below { AreBelow (length self.old.positive.items) lits.now }
        ensures positive { self.new.positive ≡ self.old.positive }
        ensures negative { self.new.negative ≡ self.old.negative }
        ensures marked { AreMarked self.old.marks.items self.new.marks.items lits.now mark }
    {
        for lit in lits {
            self.marks[code_of(*lit)] = mark;
        }
    }

    // The number of an entry that was set aside, stands under one of the literals, and has only
    // marked ones. The marks are those of the literals.
    fn marked(
        &self,
        pairs: &[Pair],
        clauses: &[Clause],
        entries: &[Entry],
        lits: &[Lit],
    ) -> Option<u32>
        requires positive { AreBelow (length self.now.positive.items) lits.now }
        requires negative { AreBelow (length self.now.negative.items) lits.now }
        requires len { length self.now.marks.items ≡ 2 * length self.now.positive.items }
        requires clauses_below { ClausesAreBelow (length self.now.positive.items) clauses.now }
        requires entries_below { EntriesAreBelow (length self.now.positive.items) entries.now }
        requires marks { (lit : OneLit) → Contains lits.now lit → IsMarked self.now.marks.items lit }
        ensures aside { IfSome result (IsAside pairs.now) }
        ensures marked { IfSome result (HasMarked self.now.marks.items (known_before clauses.now entries.now)) }
        ensures none { IfNone result ((index : ℕ) (clause : OneClause) → slice_get (known_before clauses.now entries.now) index ≡ Some clause → IsAside pairs.now index → IsCarded self.now index clause.lits → ¬ All (Contains lits.now) clause.lits) }
    {
        let whole = signature_of(lits);
        for lit in lits {
            if let Some(index) = self.marked_under(pairs, clauses, entries, *lit, whole) {
                return Some(index);
            }
        }
        None
    }

    // The number of an entry that was set aside, stands under the literal, and has only marked
    // ones. Only what may lie within the signature is looked at.
    fn marked_under(
        &self,
        pairs: &[Pair],
        clauses: &[Clause],
        entries: &[Entry],
        lit: Lit,
        whole: u64,
    ) -> Option<u32>
        requires positive { lit.variable < length self.now.positive.items }
        requires negative { lit.variable < length self.now.negative.items }
        requires len { length self.now.marks.items ≡ 2 * length self.now.positive.items }
        requires clauses_below { ClausesAreBelow (length self.now.positive.items) clauses.now }
        requires entries_below { EntriesAreBelow (length self.now.positive.items) entries.now }
        ensures aside { IfSome result (IsAside pairs.now) }
        ensures marked { IfSome result (HasMarked self.now.marks.items (known_before clauses.now entries.now)) }
        ensures none { IfNone result ((card : OneCard) → Contains (cards_of self.now lit) card → bit_or card.signature whole ≡ whole → IsAside pairs.now card.index → ¬ HasMarked self.now.marks.items (known_before clauses.now entries.now) card.index) }
    {
        for card in self.of(lit) {
            if may_lie(card.signature, whole)
                && is_aside(pairs, card.index)
                && self.has_marked(clauses, entries, card.index)
            {
                return Some(card.index);
            }
        }
        None
    }

    // Whether all literals of the clause of that number are marked.
    fn has_marked(&self, clauses: &[Clause], entries: &[Entry], index: u32) -> bool
        requires len { length self.now.marks.items ≡ 2 * length self.now.positive.items }
        requires clauses_below { ClausesAreBelow (length self.now.positive.items) clauses.now }
        requires entries_below { EntriesAreBelow (length self.now.positive.items) entries.now }
        ensures { result ≡ true ↔ HasMarked self.now.marks.items (known_before clauses.now entries.now) index }
    {
        match named(clauses, entries, index) {
            Some(lits) => self.are_marked(lits),
            None => false,
        }
    }

    // Whether all of the literals are marked.
    fn are_marked(&self, lits: &[Lit]) -> bool
        requires len { length self.now.marks.items ≡ 2 * length self.now.positive.items }
        requires below { AreBelow (length self.now.positive.items) lits.now }
        ensures { result ≡ true ↔ All (IsMarked self.now.marks.items) lits.now }
    {
        for lit in lits {
            if !self.marks[code_of(*lit)] {
                return false;
            }
        }
        true
    }
}

// Whether the clause of that number was set aside.
fn is_aside(pairs: &[Pair], index: u32) -> bool
    ensures { result ≡ true ↔ IsAside pairs.now index }
{
    match pairs.get(index as usize) {
        Some(pair) => pair.aside,
        None => false,
    }
}

// The place of a literal's mark.
fn code_of(lit: Lit) -> usize
    ensures { result ≡ code_of lit }
{
    2 * lit.variable as usize + if lit.positive { 1 } else { 0 }
}

// A bit for each literal. Two literals may have the same.
fn signature_of(lits: &[Lit]) -> u64
    ensures within { IsSignature result lits.now }
    ensures has { HasBits result lits.now }
{
    let mut signature = 0;
    for lit in lits {
        signature = bit_of(*lit) | signature;
    }
    signature
}

// Half of the bits are for variables, and the other half for their negations.
fn bit_of(lit: Lit) -> u64
    ensures { result ≡ bit_of lit }
{
    let place = lit.variable % 32;
    1 << if lit.positive { place } else { place + 32 }
}

// Whether the clause of the first signature may lie within that of the second.
fn may_lie(signature: u64, whole: u64) -> bool
    ensures { result ≡ true ↔ bit_or signature whole ≡ whole }
{
    signature | whole == whole
}

fn push_at(lists: &mut Vec<Vec<Card>>, place: u32, card: Card) -> Result<(), AllocError>
    requires { place < length lists.old.items }
    ensures { OnOk result (IsPutAt lists.old.items lists.new.items place card) }
{
    lists[place as usize].push(card)?;
    Ok(())
}

fn no_cards(alloc: Global, variables: u32) -> Result<Vec<Vec<Card>>, AllocError>
    ensures { IfOk result (λ lists. length lists.items ≡ variables) }
{
    let mut lists = Vec::with_capacity(alloc, variables as usize)?;
    for _made in 0..variables {
        lists.push(Vec::new(alloc))?;
    }
    Ok(lists)
}
