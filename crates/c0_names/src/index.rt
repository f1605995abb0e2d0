//! Names in a row, with an index of the last of each.

ghost use Rattle.std.specs.Prelude.{◌≡◌, [], ◌∷◌, ◌++◌, length, take, slice_get, OnOk};
ghost use Rattle.std.specs.Option.{option_map};
ghost use Rattle.c0_names.specs.Names.{last_place, front, names_with};

use indexmap::IndexMap;
use std::alloc::{AllocError, Global};
use std::marker::Model;

/// Names in a row, with an index that finds the last of a name without a walk over the row.
#[derive(Drop)]
pub struct Index<'a> {
    entries: Vec<Entry<'a>>,
    // The last place of each name; a name that was taken out has none.
    last: IndexMap<&'a [u8], Option<usize>>,
}

// A name, and the place before of the same name.
#[derive(Clone, Copy)]
struct Entry<'a> {
    name: &'a [u8],
    before: Option<usize>,
}

impl<'a> Model for Index<'a> {
    ghost use Rattle.std.specs.Prelude.{List, ℕ, map};
    ghost use Rattle.c0_names.specs.Indexed.{IsIndexed};

    ghost Value = { List (List ℕ) };

    ghost view = { λ i. map (λ e. e.name.now) i.entries.items };

    ghost invariant = { λ i. IsIndexed (map (λ e. e.name.now) i.entries.items) (map (λ e. e.before) i.entries.items) i.last };
}

impl<'a> Index<'a> {
    /// No names. It takes no memory.
    pub fn new(alloc: Global) -> Index<'a>
        ensures { result ≡ [] }
    {
        Index {
            entries: Vec::new(alloc),
            last: IndexMap::new(alloc),
        }
    }

    /// The number of names.
    pub fn len(&self) -> usize
        ensures { result ≡ length self.now }
    {
        self.entries.len()
    }

    /// The name at a place.
    pub fn name(&self, place: usize) -> Option<&'a [u8]>
        ensures { option_map (λ n. n.now) result ≡ slice_get self.now place }
    {
        match self.entries.get(place) {
            Some(entry) => Some(entry.name),
            None => None,
        }
    }

    /// The last place of a name.
    pub fn last(&self, name: &[u8]) -> Option<usize>
        ensures { result ≡ last_place self.now name.now }
    {
        match self.last.get(name) {
            Some(place) => *place,
            None => None,
        }
    }

    /// Puts a name at the end. After an error the names are as they were.
    pub fn push(&mut self, name: &'a [u8]) -> Result<(), AllocError>
        ensures { OnOk result (self.new ≡ self.old ++ name.now ∷ []) }
    {
        let before = self.last(name);
        let place = self.entries.len();
        self.entries.push(Entry { name, before })?;
        match self.last.insert(name, Some(place)) {
            Ok(_) => Ok(()),
            Err(_) => {
                let _ = self.entries.pop();
                Err(AllocError)
            }
        }
    }

    /// Takes the last name out.
    pub fn pop(&mut self) -> Result<(), AllocError>
        ensures { OnOk result (self.new ≡ front self.old) }
    {
        if let Some(entry) = self.entries.pop() {
            self.last.insert(entry.name, entry.before)?;
        }
        Ok(())
    }

    /// Takes the names behind the first ones out.
    pub fn truncate(&mut self, count: usize) -> Result<(), AllocError>
        ensures { OnOk result (self.new ≡ take count self.old) }
    {
        while self.len() > count {
            self.pop()?;
        }
        Ok(())
    }

    /// Puts a name at the end, unless it is there.
    pub fn add(&mut self, name: &'a [u8]) -> Result<(), AllocError>
        ensures { OnOk result (self.new ≡ names_with self.old name.now) }
    {
        if self.last(name).is_none() {
            self.push(name)?;
        }
        Ok(())
    }
}
