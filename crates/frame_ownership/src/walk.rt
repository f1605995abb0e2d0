//! The walk of a formula by a stack of frames.

ghost use Rattle.std.specs.Prelude.{◌≡◌, ℕ, ◌+◌, ◌<◌, ◌≤◌, IsTrue, [], ◌∷◌, ◌++◌, length, drop, take, map, IfOk, OnOk, if◌then◌else◌};
ghost use Rattle.gc0_tree.specs.Tree.{value_part, acc_part, instance_part, choice_part};
ghost use Rattle.gc0_tree.specs.Views.{expr_view, exprs_view, conjunct_view, conjuncts_view, predicate_view};
ghost use Rattle.c0_meaning.specs.Holds.{values_in, take_cell};
ghost use Rattle.c0_meaning.specs.Framing.{predicates_unguarded};
ghost use Rattle.owned_heap.specs.Views.{heap_view};
ghost use Rattle.walk_laws.specs.Walks.{resume};
ghost use Rattle.frame_ownership.specs.Seen.{numbers, mode_of, mine, seen};
ghost use Rattle.frame_ownership.specs.Frames.{words_of, frame_view, stack_of, Rises, waiting, if_found, Walked};

use crate::taken::Taken;
use crate::values::{Sight, branch, goes_past, value};
use gc0_base::{Place, Word};
use gc0_tree::{Conjunct, Expr, Predicate};
use owned_heap::Cell;
use std::alloc::{AllocError, Global};
use walk_laws::{cells_of_heap, stack_walks};

/// What is left of a list of conjuncts, and where the words stand that they speak of.
#[derive(Clone, Copy)]
pub(crate) struct Frame<'p> {
    /// The conjuncts.
    pub(crate) parts: &'p [Conjunct],
    /// Where the first of the words stands.
    pub(crate) start: usize,
    /// Where the last of them ends.
    pub(crate) end: usize,
}

/// What a walk needs. It is kept from one walk to the next, so that they take no memory once there
/// was enough of it.
#[derive(Drop)]
pub(crate) struct Walk<'p> {
    // The topmost frame is the last.
    pub(crate) frames: Vec<Frame<'p>>,
    // The words of all frames.
    pub(crate) words: Vec<Word>,
    // The footprint so far.
    pub(crate) taken: Taken,
}

// The words that stand there.
fn words_in(words: &[Word], start: usize, end: usize) -> &[Word]
    requires start { start ≤ end }
    requires end { end ≤ length words.now }
    ensures { result.now ≡ drop start (take end words.now) }
{
    let front = &words[..end];
    &front[start..]
}

// The values of arguments, behind those words that end there: they speak of these from `start` on.
// Tells whether each has a value.
fn push_values(
    words: &mut Vec<Word>,
    exprs: &[Expr],
    start: usize,
    end: usize,
    sight: Sight<'_>,
) -> Result<bool, AllocError>
    requires start { start ≤ end }
    requires end { end ≤ length words.old.items }
    ensures kept { OnOk result (take end words.new.items ≡ take end words.old.items) }
    ensures long { OnOk result (end ≤ length words.new.items) }
    ensures values { IfOk result (λ found. values_in (heap_view sight.entry.heap.now) (seen sight.entry.mode sight.entry.heap.now sight.entry.levels.now) (numbers (drop start (take end words.old.items))) (exprs_view exprs.now) ≡ if_found found (numbers (drop end words.new.items))) }
{
    words.truncate(end);
    for expr in exprs {
        match value(expr, words_in(words.as_slice(), start, end), sight) {
            Some(word) => words.push(word)?,
            None => return Ok(false),
        }
    }
    Ok(true)
}

// Takes the cell of an `acc`, unless it isn't there, isn't seen or was taken. Tells whether it did.
fn take(taken: &mut Taken, base: Word, field: u32, sight: Sight<'_>) -> Result<bool, AllocError>
    ensures { IfOk result (λ took. take_cell (heap_view sight.entry.heap.now) (seen sight.entry.mode sight.entry.heap.now sight.entry.levels.now) base.0 field taken.old ≡ if_found took taken.new) }
{
    cells_of_heap();
    if base.0 == 0 {
        return Ok(false);
    }
    let cell = Cell {
        object: base.0,
        field,
    };
    if !sight.sees(cell) {
        return Ok(false);
    }
    let Some(_) = sight.heap.value(cell) else {
        return Ok(false);
    };
    let took = taken.take(cell)?;
    Ok(took)
}

// The branch that is taken.
fn pick<'p>(first: bool, these: &'p [Conjunct], those: &'p [Conjunct]) -> &'p [Conjunct]
    ensures { result.now ≡ (if first then these.now else those.now) }
{
    if first { these } else { those }
}

impl<'p> Walk<'p> {
    /// Nothing was walked. It takes no memory.
    pub(crate) fn new(alloc: Global) -> Walk<'p>
        ensures { result.taken ≡ [] }
    {
        Walk {
            frames: Vec::new(alloc),
            words: Vec::new(alloc),
            taken: Taken::new(alloc),
        }
    }

    // Puts a frame on top, unless nothing is left of it.
    fn wait(&mut self, frame: Frame<'p>) -> Result<(), AllocError>
        ensures frames { OnOk result (self.new.frames.items ≡ waiting self.old.frames.items frame.entry) }
        ensures words { self.new.words.items ≡ self.old.words.items }
        ensures taken { self.new.taken ≡ self.old.taken }
    {
        if frame.parts.is_empty() {
            return Ok(());
        }
        self.frames.push(frame)?;
        Ok(())
    }

    // Puts a frame on top, and another on top of it.
    fn wait_both(&mut self, frame: Frame<'p>, top: Frame<'p>) -> Result<(), AllocError>
        ensures frames { OnOk result (self.new.frames.items ≡ waiting (waiting self.old.frames.items frame.entry) top.entry) }
        ensures words { self.new.words.items ≡ self.old.words.items }
        ensures taken { self.new.taken ≡ self.old.taken }
    {
        self.wait(frame)?;
        self.wait(top)?;
        Ok(())
    }

    // Goes past a value, where it is met.
    fn test(
        &mut self,
        predicates: &'p [Predicate],
        expr: &Expr,
        rest: Frame<'p>,
        sight: Sight<'_>,
    ) -> Result<bool, AllocError>
        requires guarded { predicates_unguarded 0 (map predicate_view predicates.now) ≡ [] }
        requires rises { Rises 0 self.old.frames.items rest.end }
        requires start { rest.start ≤ rest.end }
        requires end { rest.end ≤ length self.old.words.items }
        ensures walked { IfOk result (λ went. Walked predicates.now sight.entry.mode sight.entry.heap.now sight.entry.levels.now ((words_of self.old.words.items rest.entry, value_part (expr_view expr.now) (conjuncts_view rest.entry.parts.now)) ∷ stack_of self.old.words.items self.old.frames.items) self.old.taken went self.new) }
        ensures rises { IfOk result (λ went. IsTrue went → Rises 0 self.new.frames.items (length self.new.words.items)) }
    {
        stack_walks();
        let words = words_in(self.words.as_slice(), rest.start, rest.end);
        if !goes_past(expr, words, sight) {
            return Ok(false);
        }
        self.wait(rest)?;
        Ok(true)
    }

    // Takes the cell of an `acc`, where it can be taken.
    fn reach(
        &mut self,
        predicates: &'p [Predicate],
        base: &Expr,
        field: u32,
        rest: Frame<'p>,
        sight: Sight<'_>,
    ) -> Result<bool, AllocError>
        requires guarded { predicates_unguarded 0 (map predicate_view predicates.now) ≡ [] }
        requires rises { Rises 0 self.old.frames.items rest.end }
        requires start { rest.start ≤ rest.end }
        requires end { rest.end ≤ length self.old.words.items }
        ensures walked { IfOk result (λ went. Walked predicates.now sight.entry.mode sight.entry.heap.now sight.entry.levels.now ((words_of self.old.words.items rest.entry, acc_part (expr_view base.now) field (conjuncts_view rest.entry.parts.now)) ∷ stack_of self.old.words.items self.old.frames.items) self.old.taken went self.new) }
        ensures rises { IfOk result (λ went. IsTrue went → Rises 0 self.new.frames.items (length self.new.words.items)) }
    {
        stack_walks();
        let words = words_in(self.words.as_slice(), rest.start, rest.end);
        let Some(word) = value(base, words, sight) else {
            return Ok(false);
        };
        let took = take(&mut self.taken, word, field, sight)?;
        if !took {
            return Ok(false);
        }
        self.wait(rest)?;
        Ok(true)
    }

    // Puts the body of an instance on top, with its arguments as words.
    fn open(
        &mut self,
        predicates: &'p [Predicate],
        place: Place,
        number: u32,
        arguments: &[Expr],
        rest: Frame<'p>,
        sight: Sight<'_>,
    ) -> Result<bool, AllocError>
        requires guarded { predicates_unguarded 0 (map predicate_view predicates.now) ≡ [] }
        requires rises { Rises 0 self.old.frames.items rest.end }
        requires start { rest.start ≤ rest.end }
        requires end { rest.end ≤ length self.old.words.items }
        ensures walked { IfOk result (λ went. Walked predicates.now sight.entry.mode sight.entry.heap.now sight.entry.levels.now ((words_of self.old.words.items rest.entry, instance_part place number (exprs_view arguments.now) (conjuncts_view rest.entry.parts.now)) ∷ stack_of self.old.words.items self.old.frames.items) self.old.taken went self.new) }
        ensures rises { IfOk result (λ went. IsTrue went → Rises 0 self.new.frames.items (length self.new.words.items)) }
    {
        stack_walks();
        let found = push_values(&mut self.words, arguments, rest.start, rest.end, sight)?;
        if !found {
            return Ok(false);
        }
        let Some(predicate) = predicates.get(number as usize) else {
            return Ok(false);
        };
        let end = self.words.len();
        let body = Frame {
            parts: predicate.body.as_slice(),
            start: rest.end,
            end,
        };
        self.wait_both(rest, body)?;
        Ok(true)
    }

    // Puts the branch of a choice on top that is taken.
    fn choose(
        &mut self,
        predicates: &'p [Predicate],
        place: Place,
        condition: &Expr,
        these: &'p [Conjunct],
        those: &'p [Conjunct],
        rest: Frame<'p>,
        sight: Sight<'_>,
    ) -> Result<bool, AllocError>
        requires guarded { predicates_unguarded 0 (map predicate_view predicates.now) ≡ [] }
        requires rises { Rises 0 self.old.frames.items rest.end }
        requires start { rest.start ≤ rest.end }
        requires end { rest.end ≤ length self.old.words.items }
        ensures walked { IfOk result (λ went. Walked predicates.now sight.entry.mode sight.entry.heap.now sight.entry.levels.now ((words_of self.old.words.items rest.entry, choice_part place (expr_view condition.now) (conjuncts_view these.now) (conjuncts_view those.now) (conjuncts_view rest.entry.parts.now)) ∷ stack_of self.old.words.items self.old.frames.items) self.old.taken went self.new) }
        ensures rises { IfOk result (λ went. IsTrue went → Rises 0 self.new.frames.items (length self.new.words.items)) }
    {
        stack_walks();
        let words = words_in(self.words.as_slice(), rest.start, rest.end);
        let Some(first) = branch(condition, words, sight) else {
            return Ok(false);
        };
        let top = Frame {
            parts: pick(first, these, those),
            start: rest.start,
            end: rest.end,
        };
        self.wait_both(rest, top)?;
        Ok(true)
    }

    // One step with the topmost frame. Tells whether it went on.
    fn step(
        &mut self,
        predicates: &'p [Predicate],
        frame: Frame<'p>,
        sight: Sight<'_>,
    ) -> Result<bool, AllocError>
        requires guarded { predicates_unguarded 0 (map predicate_view predicates.now) ≡ [] }
        requires rises { Rises 0 self.old.frames.items frame.end }
        requires start { frame.start ≤ frame.end }
        requires end { frame.end ≤ length self.old.words.items }
        ensures walked { IfOk result (λ went. Walked predicates.now sight.entry.mode sight.entry.heap.now sight.entry.levels.now (frame_view self.old.words.items frame.entry ∷ stack_of self.old.words.items self.old.frames.items) self.old.taken went self.new) }
        ensures rises { IfOk result (λ went. IsTrue went → Rises 0 self.new.frames.items (length self.new.words.items)) }
    {
        stack_walks();
        let Some((part, parts)) = frame.parts.split_first() else {
            return Ok(true);
        };
        let rest = Frame {
            parts,
            start: frame.start,
            end: frame.end,
        };
        match part {
            Conjunct::Value(expr) => {
                let went = self.test(predicates, expr, rest, sight)?;
                Ok(went)
            }
            Conjunct::Acc(base, field) => {
                let went = self.reach(predicates, base, *field, rest, sight)?;
                Ok(went)
            }
            Conjunct::Instance(place, number, arguments) => {
                let arguments = arguments.as_slice();
                let went = self.open(predicates, *place, *number, arguments, rest, sight)?;
                Ok(went)
            }
            Conjunct::Choice(place, condition, these, those) => {
                let these = these.as_slice();
                let those = those.as_slice();
                let went = self.choose(predicates, *place, condition, these, those, rest, sight)?;
                Ok(went)
            }
        }
    }

    // Walks what the frames hold. Tells whether nothing failed.
    fn run(&mut self, predicates: &'p [Predicate], sight: Sight<'_>) -> Result<bool, AllocError>
        requires guarded { predicates_unguarded 0 (map predicate_view predicates.now) ≡ [] }
        requires rises { Rises 0 self.old.frames.items (length self.old.words.items) }
        ensures { IfOk result (λ found. resume (map predicate_view predicates.now) (mode_of sight.entry.mode) (heap_view sight.entry.heap.now) (mine sight.entry.heap.now sight.entry.levels.now) (stack_of self.old.words.items self.old.frames.items) self.old.taken ≡ if_found found self.new.taken) }
    {
        while let Some(frame) = self.frames.pop() {
            let went = self.step(predicates, frame, sight)?;
            if !went {
                return Ok(false);
            }
        }
        Ok(true)
    }

    /// Walks conjuncts over some words. Tells whether nothing failed; the cells that were taken are
    /// then the footprint.
    pub(crate) fn walk(
        &mut self,
        predicates: &'p [Predicate],
        parts: &'p [Conjunct],
        words: &[Word],
        sight: Sight<'_>,
    ) -> Result<bool, AllocError>
        requires guarded { predicates_unguarded 0 (map predicate_view predicates.now) ≡ [] }
        ensures { IfOk result (λ found. resume (map predicate_view predicates.now) (mode_of sight.entry.mode) (heap_view sight.entry.heap.now) (mine sight.entry.heap.now sight.entry.levels.now) ((numbers words.now, conjuncts_view parts.now) ∷ []) [] ≡ if_found found self.new.taken) }
    {
        self.frames.clear();
        self.words.clear();
        self.taken.clear();
        self.words.extend_from_slice(words)?;
        let end = self.words.len();
        self.wait(Frame {
            parts,
            start: 0,
            end,
        })?;
        let found = self.run(predicates, sight)?;
        Ok(found)
    }
}
