//! The locals in scope, and which of them every path has assigned.

ghost use Rattle.std.specs.Prelude.{◌≡◌, IfOk, OnOk, is_some, slice_get, false, take};
ghost use Rattle.std.specs.Option.{unwrap_or};
ghost use Rattle.c0_names.specs.Names.{last_place};
ghost use Rattle.c0_value_rules.specs.Scopes.{no_scope, standing_of, is_assigned, is_read_well, held_type, read_type, scope_with, flow_with, scope_assigned, ended, depth_of, cut, both_assigned, joined};

use c0_names::{Index, ValueType};
use sqlite_items::Items;
use std::alloc::{AllocError, Global};

/// What is known of a local from its declaration on.
#[derive(Clone, Copy, Debug)]
pub struct Standing {
    /// The type of its values.
    pub holds: ValueType,
    /// Whether it is a parameter that `ensures` names.
    pub fixed: bool,
}

/// What is known of the paths that lead to a place of the code.
#[derive(Debug, Drop)]
pub struct Flow {
    /// Whether a path leads there.
    pub live: bool,
    /// For each local in scope whether every such path has assigned it.
    pub assigned: Items<bool>,
}

/// The locals in scope at a place of the code, in the order of their declarations.
#[derive(Drop)]
pub struct Scope<'a> {
    pub names: Index<'a>,
    pub standings: Items<Standing>,
    pub flow: Flow,
}

/// How many names, standings and flags a scope has.
#[derive(Clone, Copy, Debug)]
pub struct Depth {
    pub names: usize,
    pub standings: usize,
    pub flags: usize,
}

impl Flow {
    /// A copy.
    pub fn copied(&self, alloc: Global) -> Result<Flow, AllocError>
        ensures { IfOk result (λ f. f ≡ self.now) }
    {
        let assigned = Items::from_slice(alloc, self.assigned.as_slice())?;
        Ok(Flow {
            live: self.live,
            assigned,
        })
    }

    fn is_assigned(&self, place: Option<usize>) -> bool
        ensures { result ≡ is_assigned self.now place }
    {
        match place {
            Some(place) => !self.live || self.flag(place),
            None => false,
        }
    }

    fn flag(&self, place: usize) -> bool
        ensures { result ≡ unwrap_or (slice_get self.now.assigned place) false }
    {
        match self.assigned.get(place) {
            Some(flag) => *flag,
            None => false,
        }
    }

    fn assign(&mut self, place: Option<usize>)
        ensures { self.new ≡ flow_with self.old place }
    {
        if let Some(place) = place {
            if place < self.assigned.len() {
                self.assigned.set(place, true);
            }
        }
    }
}

/// Where two paths meet.
pub fn joined(alloc: Global, f: Flow, g: Flow) -> Result<Flow, AllocError>
    ensures { IfOk result (λ h. h ≡ joined f g) }
{
    if !f.live {
        return Ok(g);
    }
    if !g.live {
        return Ok(f);
    }
    let assigned = both_assigned(alloc, f.assigned.as_slice(), g.assigned.as_slice())?;
    Ok(Flow {
        live: true,
        assigned,
    })
}

fn both_assigned(alloc: Global, f: &[bool], g: &[bool]) -> Result<Items<bool>, AllocError>
    ensures { IfOk result (λ both. both ≡ both_assigned f.now g.now) }
{
    let mut both = Items::new(alloc);
    for (place, a) in f.iter().enumerate() {
        match g.get(place) {
            Some(b) => both.push(*a && *b)?,
            None => return Ok(both),
        }
    }
    Ok(both)
}

impl<'a> Scope<'a> {
    /// No locals, where a path leads.
    pub fn new(alloc: Global) -> Scope<'a>
        ensures { result ≡ no_scope }
    {
        Scope {
            names: Index::new(alloc),
            standings: Items::new(alloc),
            flow: Flow {
                live: true,
                assigned: Items::new(alloc),
            },
        }
    }

    /// Whether a local of this name is in scope.
    pub fn has(&self, name: &[u8]) -> bool
        ensures { result ≡ is_some (last_place self.now.names name.now) }
    {
        self.names.last(name).is_some()
    }

    /// What is known of the last local of this name.
    pub fn standing(&self, name: &[u8]) -> Option<Standing>
        ensures { result ≡ standing_of self.now name.now }
    {
        let place = self.names.last(name)?;
        self.standings.get(place).copied()
    }

    /// Whether each path that leads here has assigned the local.
    pub fn is_read_well(&self, name: &[u8]) -> bool
        ensures { result ≡ is_read_well self.now name.now }
    {
        self.flow.is_assigned(self.names.last(name))
    }

    /// The type of a local.
    pub fn held_type(&self, name: &[u8]) -> Option<ValueType>
        ensures { result ≡ held_type self.now name.now }
    {
        match self.standing(name) {
            Some(standing) => Some(standing.holds),
            None => None,
        }
    }

    /// The type of a local that is read.
    pub fn read_type(&self, name: &[u8]) -> Option<ValueType>
        ensures { result ≡ read_type self.now name.now }
    {
        if self.is_read_well(name) {
            self.held_type(name)
        } else {
            None
        }
    }

    /// Puts a local into scope.
    pub fn declare(
        &mut self,
        name: &'a [u8],
        standing: Standing,
        assigned: bool,
    ) -> Result<(), AllocError>
        ensures { OnOk result (self.new ≡ scope_with self.old name.now standing assigned) }
    {
        self.names.push(name)?;
        self.standings.push(standing)?;
        self.flow.assigned.push(assigned)
    }

    /// The local is assigned.
    pub fn assign(&mut self, name: &[u8])
        ensures { self.new ≡ scope_assigned self.old name.now }
    {
        let place = self.names.last(name);
        self.flow.assign(place);
    }

    /// No path leads on.
    pub fn end(&mut self)
        ensures { self.new ≡ ended self.old }
    {
        self.flow.live = false;
    }

    /// How many locals there are.
    pub fn depth(&self) -> Depth
        ensures { result ≡ depth_of self.now }
    {
        Depth {
            names: self.names.len(),
            standings: self.standings.len(),
            flags: self.flow.assigned.len(),
        }
    }

    /// Takes the locals behind the first ones out.
    pub fn close(&mut self, depth: Depth) -> Result<(), AllocError>
        ensures { OnOk result (self.new ≡ cut depth self.old) }
    {
        self.names.truncate(depth.names)?;
        truncate(&mut self.standings, depth.standings);
        truncate(&mut self.flow.assigned, depth.flags);
        Ok(())
    }

    /// Goes on with other paths; what is known of these is given.
    pub fn turn(&mut self, flow: Flow) -> Flow
        ensures given { result ≡ self.old.flow }
        ensures scope { self.new ≡ record self.old { flow = flow } }
    {
        std::mem::replace(&mut self.flow, flow)
    }
}

fn truncate<T: Drop>(items: &mut Items<T>, count: usize)
    ensures { items.new ≡ take count items.old }
{
    while items.len() > count {
        let _ = items.pop();
    }
}
