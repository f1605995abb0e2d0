//! The names of the typedefs above.

ghost use Rattle.std.specs.Prelude.{◌≡◌, [], ◌∷◌, OnOk};
ghost use Rattle.c0_grammar.specs.Tokens.{is_among};

use indexmap::IndexMap;
use std::alloc::{AllocError, Global};
use std::marker::Model;

/// The names of the typedefs above, of which the last one comes first, with an index that finds
/// one without a walk over them.
#[derive(Drop)]
pub struct Names<'a> {
    // In the order of the text.
    names: Vec<&'a [u8]>,
    index: IndexMap<&'a [u8], ()>,
}

impl<'a> Model for Names<'a> {
    ghost use Rattle.std.specs.Prelude.{◌≡◌, List, ℕ, map, reverse, is_some};
    ghost use Rattle.std.specs.HashMap.{get_by};
    ghost use Rattle.std.specs.Str.{bytes_eq};
    ghost use Rattle.c0_grammar.specs.Tokens.{is_among};

    ghost Value = { List (List ℕ) };

    ghost view = { λ i. reverse (map (λ n. n.now) i.names.items) };

    ghost invariant = { λ i. (name : List ℕ) → is_some (get_by (λ k. bytes_eq name k.now) i.index) ≡ is_among (reverse (map (λ n. n.now) i.names.items)) name };
}

impl<'a> Names<'a> {
    /// No names. It takes no memory.
    pub fn new(alloc: Global) -> Names<'a>
        ensures { result ≡ [] }
    {
        Names {
            names: Vec::new(alloc),
            index: IndexMap::new(alloc),
        }
    }

    /// Whether a name is among these.
    pub fn contains(&self, name: &[u8]) -> bool
        ensures { result ≡ is_among self.now name.now }
    {
        self.index.get(&name).is_some()
    }

    /// Puts a name before the others.
    pub fn add(&mut self, name: &'a [u8]) -> Result<(), AllocError>
        ensures { OnOk result (self.new ≡ name.now ∷ self.old) }
    {
        self.names.push(name)?;
        match self.index.insert(name, ()) {
            Ok(_) => Ok(()),
            Err(_) => {
                let _ = self.names.pop();
                Err(AllocError)
            }
        }
    }
}
