//! Which clauses watch a literal.
ghost use Rattle.std.specs.Prelude.{◌≡◌, ℕ, ◌+◌, ◌<◌, [], ◌∷◌, ◌++◌, length, List, IfOk, OnOk, Some, slice_index_or, slice_get, slice_set};
ghost use Rattle.std.specs.List.{swap_remove};
ghost use Rattle.search_state.specs.Watches.{watchers_of, list_at, IsWritten, IsWrittenAt, ListsMore, WatchesMore, IsPut};
ghost use Rattle.sat_check.specs.declared.clause.Lit.{Lit as OneLit};
ghost use Rattle.search_state.specs.declared.watches.Watcher.{Watcher as OneWatcher};

use sat_check::Lit;
use std::alloc::{AllocError, Global};

/// A clause, by its number, and one of its literals: where that is true, the clause needs no look.
#[derive(Clone, Copy)]
pub struct Watcher {
    pub index: u32,
    pub blocker: Lit,
}

/// The two literals that a clause watches. Where they are one, it watches none: a literal of it is
/// true before any decision, or it was set aside.
#[derive(Clone, Copy)]
pub struct Pair {
    pub first: Lit,
    pub second: Lit,
    pub aside: bool,
}

/// For each variable the clauses that watch it, and those that watch its negation; and for each
/// clause the pair that it watches.
#[derive(Drop)]
pub struct Watches {
    pub positive: Vec<Vec<Watcher>>,
    pub negative: Vec<Vec<Watcher>>,
    pub pairs: Vec<Pair>,
}

impl Watches {
    pub fn new(alloc: Global, variables: u32) -> Result<Watches, AllocError>
        ensures positive { IfOk result (λ all. length all.positive.items ≡ variables) }
        ensures negative { IfOk result (λ all. length all.negative.items ≡ variables) }
        ensures pairs { IfOk result (λ all. all.pairs.items ≡ []) }
        ensures none { IfOk result (λ all. (lit : OneLit) → watchers_of all lit ≡ []) }
    {
        Ok(Watches {
            positive: no_lists(alloc, variables)?,
            negative: no_lists(alloc, variables)?,
            pairs: Vec::new(alloc),
        })
    }

    /// The clauses that watch the literal.
    pub fn of(&self, lit: Lit) -> &[Watcher]
        requires positive { lit.variable < length self.now.positive.items }
        requires negative { lit.variable < length self.now.negative.items }
        ensures { result.now ≡ watchers_of self.now lit }
    {
        if lit.positive {
            self.positive[lit.variable as usize].as_slice()
        } else {
            self.negative[lit.variable as usize].as_slice()
        }
    }

    /// One clause more watches the literal.
    pub fn push(&mut self, lit: Lit, watcher: Watcher) -> Result<(), AllocError>
        requires positive { lit.variable < length self.old.positive.items }
        requires negative { lit.variable < length self.old.negative.items }
        ensures { OnOk result (IsWritten self.old self.new lit (watchers_of self.old lit ++ watcher ∷ [])) }
    {
        if lit.positive {
            push_at(&mut self.positive, lit.variable, watcher)
        } else {
            push_at(&mut self.negative, lit.variable, watcher)
        }
    }

    // Lists the clause of that number under both literals of the pair, unless they are one.
    fn list(&mut self, index: u32, pair: Pair) -> Result<(), AllocError>
        requires first_positive { pair.first.variable < length self.old.positive.items }
        requires first_negative { pair.first.variable < length self.old.negative.items }
        requires second_positive { pair.second.variable < length self.old.positive.items }
        requires second_negative { pair.second.variable < length self.old.negative.items }
        ensures pairs { OnOk result (self.new.pairs.items ≡ self.old.pairs.items) }
        ensures lists { OnOk result (ListsMore self.old self.new index pair) }
    {
        if pair.first != pair.second {
            let first = Watcher {
                index,
                blocker: pair.second,
            };
            let second = Watcher {
                index,
                blocker: pair.first,
            };
            self.push(pair.first, first)?;
            self.push(pair.second, second)?;
        }
        Ok(())
    }

    /// The clause of that number, which is the next, watches the pair.
    pub fn watch(&mut self, index: u32, pair: Pair) -> Result<(), AllocError>
        requires first_positive { pair.first.variable < length self.old.positive.items }
        requires first_negative { pair.first.variable < length self.old.negative.items }
        requires second_positive { pair.second.variable < length self.old.positive.items }
        requires second_negative { pair.second.variable < length self.old.negative.items }
        ensures { OnOk result (WatchesMore self.old self.new index pair) }
    {
        self.list(index, pair)?;
        self.pairs.push(pair)?;
        Ok(())
    }

    /// The clause of that number watches the pair from now on.
    pub fn put(&mut self, index: u32, pair: Pair) -> Result<(), AllocError>
        requires first_positive { pair.first.variable < length self.old.positive.items }
        requires first_negative { pair.first.variable < length self.old.negative.items }
        requires second_positive { pair.second.variable < length self.old.positive.items }
        requires second_negative { pair.second.variable < length self.old.negative.items }
        requires index { index < length self.old.pairs.items }
        ensures { OnOk result (IsPut self.old self.new index pair) }
    {
        self.list(index, pair)?;
        self.pairs[index as usize] = pair;
        Ok(())
    }

    /// The clause of that number watches nothing from now on.
    pub fn rest(&mut self, index: u32, lit: Lit, aside: bool)
        requires { index < length self.old.pairs.items }
        ensures { IsPut self.old self.new index (record { first = lit; second = lit; aside = aside }) }
    {
        self.pairs[index as usize] = Pair {
            first: lit,
            second: lit,
            aside,
        };
    }

    /// The clause at that place no longer watches the literal, and the last takes its place.
    pub fn remove(&mut self, lit: Lit, place: usize)
        requires positive { lit.variable < length self.old.positive.items }
        requires negative { lit.variable < length self.old.negative.items }
        requires within { place < length (watchers_of self.old lit) }
        ensures { (last : OneWatcher) × IsWritten self.old self.new lit (swap_remove (watchers_of self.old lit) place last) }
    {
        if lit.positive {
            remove_at(&mut self.positive, lit.variable, place);
        } else {
            remove_at(&mut self.negative, lit.variable, place);
        }
    }

    /// The watcher at that place of the literal's list has this blocker from now on.
    pub fn block(&mut self, lit: Lit, place: usize, blocker: Lit)
        requires positive { lit.variable < length self.old.positive.items }
        requires negative { lit.variable < length self.old.negative.items }
        requires within { place < length (watchers_of self.old lit) }
        ensures { (watcher : OneWatcher) × (slice_get (watchers_of self.old lit) place ≡ Some watcher) × IsWritten self.old self.new lit (slice_set (watchers_of self.old lit) place (record { index = watcher.index; blocker = blocker })) }
    {
        if lit.positive {
            block_at(&mut self.positive, lit.variable, place, blocker);
        } else {
            block_at(&mut self.negative, lit.variable, place, blocker);
        }
    }
}

fn push_at(lists: &mut Vec<Vec<Watcher>>, place: u32, watcher: Watcher) -> Result<(), AllocError>
    requires { place < length lists.old.items }
    ensures { OnOk result (IsWrittenAt lists.old.items lists.new.items place (list_at lists.old.items place ++ watcher ∷ [])) }
{
    lists[place as usize].push(watcher)?;
    Ok(())
}

fn remove_at(lists: &mut Vec<Vec<Watcher>>, list: u32, place: usize)
    requires list { list < length lists.old.items }
    requires within { place < length (list_at lists.old.items list) }
    ensures { (last : OneWatcher) × IsWrittenAt lists.old.items lists.new.items list (swap_remove (list_at lists.old.items list) place last) }
{
    let _watcher = lists[list as usize].swap_remove(place);
}

fn block_at(lists: &mut Vec<Vec<Watcher>>, list: u32, place: usize, blocker: Lit)
    requires list { list < length lists.old.items }
    requires within { place < length (list_at lists.old.items list) }
    ensures { (watcher : OneWatcher) × (slice_get (list_at lists.old.items list) place ≡ Some watcher) × IsWrittenAt lists.old.items lists.new.items list (slice_set (list_at lists.old.items list) place (record { index = watcher.index; blocker = blocker })) }
{
    lists[list as usize][place].blocker = blocker;
}

fn no_lists(alloc: Global, variables: u32) -> Result<Vec<Vec<Watcher>>, AllocError>
    ensures len { IfOk result (λ lists. length lists.items ≡ variables) }
    ensures none { IfOk result (λ lists. (place : ℕ) → list_at lists.items place ≡ []) }
{
    let mut lists = Vec::with_capacity(alloc, variables as usize)?;
    for _made in 0..variables {
        lists.push(Vec::new(alloc))?;
    }
    Ok(lists)
}
