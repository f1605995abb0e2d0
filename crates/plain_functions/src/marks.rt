//! The marks of a program's functions, on the way from the open ones back to their callers.

ghost use Rattle.std.specs.Prelude.{◌≡◌, ◌∷◌, [], false, get_or, map, IfOk, OnOk};
ghost use Rattle.gc0_tree.specs.Views.{function_view};
ghost use Rattle.plain_functions.specs.Callers.{MarksMore, IsStart};

use super::openness::is_open;
use gc0_tree::Function;
use sqlite_items::Items;
use std::alloc::{AllocError, Global};

/// What is known so far. Each function waits once at most: when it is marked.
#[derive(Drop)]
pub struct Marks {
    /// For each function by number, whether it has no mark: a mark says that it reaches a `?`.
    pub plain: Items<bool>,
    /// The marked functions whose callers are to be marked yet.
    pub waiting: Items<usize>,
}

impl Marks {
    /// The open functions are marked, and wait.
    ///
    /// Errors: there was not memory enough.
    pub fn new(alloc: Global, functions: &[Function]) -> Result<Marks, AllocError>
        ensures { IfOk result (λ m. IsStart (map function_view functions.now) m) }
    {
        let mut plain = Items::new(alloc);
        let mut waiting = Items::new(alloc);
        for (number, function) in functions.iter().enumerate() {
            let open = is_open(function);
            plain.push(!open)?;
            if open {
                waiting.push(number)?;
            }
        }
        Ok(Marks { plain, waiting })
    }

    /// Marks those functions that have no mark. A number past the functions is passed over.
    ///
    /// Errors: there was not memory enough.
    pub fn mark_all(&mut self, those: &[usize]) -> Result<(), AllocError>
        ensures { OnOk result (MarksMore self.old those.now self.new) }
    {
        for function in those {
            self.mark(*function)?;
        }
        Ok(())
    }

    fn mark(&mut self, function: usize) -> Result<(), AllocError>
        ensures { OnOk result (MarksMore self.old (function ∷ []) self.new) }
    {
        if self.lacks_mark(function) {
            self.plain.set(function, false);
            self.waiting.push(function)?;
        }
        Ok(())
    }

    fn lacks_mark(&self, function: usize) -> bool
        ensures { result ≡ get_or self.now.plain function false }
    {
        match self.plain.get(function) {
            Some(lacks) => *lacks,
            None => false,
        }
    }
}
