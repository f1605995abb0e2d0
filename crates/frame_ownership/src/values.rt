//! The values of the expressions of formulas. They take no memory.

ghost use Rattle.std.specs.Prelude.{◌≡◌, ◌-◌, ◌<◌, ◌≤◌, length, map, slice_index, option_map};
ghost use Rattle.gc0_tree.specs.Views.{expr_view};
ghost use Rattle.c0_meaning.specs.Operators.{truth_word, unary_word, binary_word};
ghost use Rattle.c0_meaning.specs.Holds.{owned_value, value_in};
ghost use Rattle.core_meaning.specs.Choices.{is_so};
ghost use Rattle.owned_heap.specs.Views.{cell_view, heap_view};
ghost use Rattle.walk_laws.specs.Walks.{is_met, branch_of};
ghost use Rattle.frame_ownership.specs.Seen.{number, numbers, mode_of, mine, seen, sees};

use gc0_base::Word;
use gc0_tree::{Expr, ExprForm, ExprOp, UnaryOp};
use owned_heap::{Cell, Heap, Levels};
use walk_laws::cells_of_heap;

/// What a walk of a formula asks.
#[derive(Clone, Copy)]
pub enum Mode {
    /// Values are true, and cells are owned.
    Strict,
    /// Values are passed over, and each cell of the heap will do.
    Loose,
}

/// What a formula may speak of, besides its words.
#[derive(Clone, Copy)]
pub(crate) struct Sight<'s> {
    /// The heap.
    pub(crate) heap: &'s Heap,
    /// What is owned of it.
    pub(crate) levels: &'s Levels,
    /// Which cells are seen.
    pub(crate) mode: Mode,
}

impl Sight<'_> {
    // Whether a cell is seen, if the heap has it.
    pub(crate) fn sees(&self, cell: Cell) -> bool
        ensures { result ≡ sees self.now.mode self.now.heap.now self.now.levels.now (cell_view cell) }
    {
        match self.mode {
            Mode::Strict => self.levels.owns(self.heap, cell),
            Mode::Loose => true,
        }
    }

    // The word in a cell that is seen.
    fn read(&self, base: Word, field: u32) -> Option<Word>
        ensures { option_map number result ≡ owned_value (heap_view self.now.heap.now) (seen self.now.mode self.now.heap.now self.now.levels.now) base.0 field }
    {
        cells_of_heap();
        if base.0 == 0 {
            return None;
        }
        let cell = Cell {
            object: base.0,
            field,
        };
        if !self.sees(cell) {
            return None;
        }
        self.heap.value(cell)
    }
}

fn truth(truth: bool) -> Word
    ensures { result.0 ≡ truth_word truth }
{
    if truth { Word(1) } else { Word(0) }
}

fn unary(operator: UnaryOp, x: Word) -> Word
    ensures { result.0 ≡ unary_word operator x.0 }
{
    match operator {
        UnaryOp::Neg => x.neg(),
        UnaryOp::Not => x.not(),
        UnaryOp::Flip => truth(x.0 == 0),
    }
}

// The value of an operator, where it has one.
fn binary(operator: ExprOp, x: Word, y: Word) -> Option<Word>
    ensures { option_map number result ≡ binary_word operator x.0 y.0 }
{
    match operator {
        ExprOp::Add => Some(x.add(y)),
        ExprOp::Sub => Some(x.sub(y)),
        ExprOp::Mul => Some(x.mul(y)),
        ExprOp::Div => x.div(y),
        ExprOp::Rem => x.rem(y),
        ExprOp::Shl => x.shl(y),
        ExprOp::Shr => x.shr(y),
        ExprOp::And => Some(x.and(y)),
        ExprOp::Or => Some(x.or(y)),
        ExprOp::Xor => Some(x.xor(y)),
        ExprOp::Less => Some(truth(x.less(y))),
        ExprOp::LessEq => Some(truth(!y.less(x))),
        ExprOp::Greater => Some(truth(y.less(x))),
        ExprOp::GreaterEq => Some(truth(!x.less(y))),
        ExprOp::Equal => Some(truth(x.0 == y.0)),
        ExprOp::NotEqual => Some(truth(!(x.0 == y.0))),
    }
}

// The word of this number, and 0 where there is none.
fn word_at(words: &[Word], number: usize) -> Word
    ensures { result.0 ≡ slice_index (numbers words.now) number }
{
    if number < words.len() {
        words[number]
    } else {
        Word(0)
    }
}

// The last word, and 0 where there is none.
fn last_word(words: &[Word]) -> Word
    ensures { result.0 ≡ slice_index (numbers words.now) (length (numbers words.now) - 1) }
{
    if words.is_empty() {
        Word(0)
    } else {
        words[words.len() - 1]
    }
}

/// The value of an expression of a formula over some words, where it has one.
pub(crate) fn value(expr: &Expr, words: &[Word], sight: Sight<'_>) -> Option<Word>
    ensures { option_map number result ≡ value_in (heap_view sight.entry.heap.now) (seen sight.entry.mode sight.entry.heap.now sight.entry.levels.now) (numbers words.now) (expr_view expr.now) }
{
    match &expr.form {
        ExprForm::Number(word) => Some(*word),
        ExprForm::Truth(holds) => Some(truth(*holds)),
        ExprForm::Null => Some(Word(0)),
        ExprForm::Local(number) => Some(word_at(words, *number as usize)),
        ExprForm::ResultValue => Some(last_word(words)),
        ExprForm::Unary(operator, operand) => {
            let word = value(operand.get(), words, sight)?;
            Some(unary(*operator, word))
        }
        ExprForm::Binary(operator, left, right) => {
            let x = value(left.get(), words, sight)?;
            let y = value(right.get(), words, sight)?;
            binary(*operator, x, y)
        }
        ExprForm::Both(left, right) => {
            let x = value(left.get(), words, sight)?;
            if x.0 == 0 {
                return Some(Word(0));
            }
            value(right.get(), words, sight)
        }
        ExprForm::Either(left, right) => {
            let x = value(left.get(), words, sight)?;
            if x.0 == 0 {
                return value(right.get(), words, sight);
            }
            Some(x)
        }
        ExprForm::Choose(condition, yes, no) => {
            let x = value(condition.get(), words, sight)?;
            if x.0 == 0 {
                return value(no.get(), words, sight);
            }
            value(yes.get(), words, sight)
        }
        ExprForm::Read {
            base,
            of_struct: _,
            field,
        } => {
            let pointer = value(base.get(), words, sight)?;
            sight.read(pointer, *field)
        }
        ExprForm::Call { .. } => None,
        ExprForm::Library { .. } => None,
        ExprForm::Alloc(_) => None,
    }
}

// Whether a word is there and not 0.
fn is_so(word: Option<Word>) -> bool
    ensures { result ≡ is_so (option_map number word) }
{
    match word {
        Some(word) => !(word.0 == 0),
        None => false,
    }
}

/// Whether a walk goes past a value.
pub(crate) fn goes_past(expr: &Expr, words: &[Word], sight: Sight<'_>) -> bool
    ensures { result ≡ is_met (mode_of sight.entry.mode) (heap_view sight.entry.heap.now) (mine sight.entry.heap.now sight.entry.levels.now) (numbers words.now) (expr_view expr.now) }
{
    match sight.mode {
        Mode::Strict => is_so(value(expr, words, sight)),
        Mode::Loose => true,
    }
}

/// Which branch of a choice a walk takes: the first where true.
pub(crate) fn branch(condition: &Expr, words: &[Word], sight: Sight<'_>) -> Option<bool>
    ensures { result ≡ branch_of (mode_of sight.entry.mode) (heap_view sight.entry.heap.now) (mine sight.entry.heap.now sight.entry.levels.now) (numbers words.now) (expr_view condition.now) }
{
    let owned = Sight {
        heap: sight.heap,
        levels: sight.levels,
        mode: Mode::Strict,
    };
    let word = value(condition, words, owned);
    match sight.mode {
        Mode::Strict => match word {
            Some(word) => Some(!(word.0 == 0)),
            None => None,
        },
        Mode::Loose => Some(is_so(word)),
    }
}
