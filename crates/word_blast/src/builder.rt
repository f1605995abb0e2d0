//! A circuit that grows by gates.
ghost use Rattle.std.specs.Prelude.{◌≡◌, ◌<◌, ◌^◌, ◌+◌, [], ◌∷◌, ◌++◌, map, IfOk, OnOk, suc};
ghost use Rattle.word_blast.specs.Gates.{Circuit, clause_of, first_circuit, gate_lits, even_lits, emit};
ghost use Rattle.word_blast.specs.Groups.{each, add, carry, all, zero_lit, one_lit};

use crate::gate::Gate;
use sat_check::{Clause, Lit, Lits};
use std::alloc::{AllocError, Global};
use std::marker::Model;

/// The literal that is never true.
pub(crate) const ZERO: Lit = Lit {
    variable: 0,
    positive: false,
};

/// The literal that is always true.
pub(crate) const ONE: Lit = Lit {
    variable: 0,
    positive: true,
};

/// The variables in use and the clauses so far. Variable 0 is true.
#[derive(Drop)]
pub(crate) struct Builder {
    variables: u32,
    clauses: Vec<Clause>,
}

impl Model for Builder {
    ghost use Rattle.word_blast.specs.Gates.{Circuit};

    ghost Value = { Circuit };

    ghost view = { λ b. record { variables = b.variables; clauses = b.clauses.items } };
}

/// The two results of a sum of words.
#[derive(Drop)]
pub(crate) struct Sum {
    pub bits: Vec<Lit>,
    pub carry: Lit,
}

impl Builder {
    /// The circuit of the one clause that makes variable 0 true.
    pub fn new(alloc: Global) -> Result<Builder, AllocError>
        ensures { IfOk result (λ b. b ≡ first_circuit) }
    {
        let mut builder = Builder {
            variables: 1,
            clauses: Vec::new(alloc),
        };
        builder.add_clause(&[ONE])?;
        Ok(builder)
    }

    /// The allocator that the circuit grows by.
    pub fn allocator(&self) -> Global {
        *self.clauses.allocator()
    }

    /// The number of variables in use.
    pub fn variables(&self) -> u32
        ensures { result ≡ self.now.variables }
    {
        self.variables
    }

    /// The clauses, taken out of the circuit.
    pub fn into_clauses(self) -> Vec<Clause>
        ensures { result.items ≡ self.clauses }
    {
        let Builder {
            variables: _,
            clauses,
        } = self;
        clauses
    }

    /// Takes so many new variables, and gives the first.
    pub fn take_variables(&mut self, count: u32) -> Result<u32, AllocError>
        ensures first { IfOk result (λ v. v ≡ self.old.variables) }
        ensures fits { IfOk result (λ v. v + count < 2 ^ 32) }
        ensures circuit { OnOk result (self.new ≡ record { variables = self.old.variables + count; clauses = self.old.clauses }) }
    {
        let first = self.variables;
        if count > u32::MAX - first {
            return Err(AllocError);
        }
        self.variables = first + count;
        Ok(first)
    }

    /// Adds a clause.
    pub fn add_clause(&mut self, lits: &[Lit]) -> Result<(), AllocError>
        ensures { OnOk result (self.new ≡ record { variables = self.old.variables; clauses = self.old.clauses ++ clause_of lits.now ∷ [] }) }
    {
        let lits = list_of(self.allocator(), lits)?;
        self.clauses.push(Clause { lits })?;
        Ok(())
    }

    /// Adds a gate, and gives its literal.
    pub fn emit(&mut self, gate: Gate, x: Lit, y: Lit, z: Lit) -> Result<Lit, AllocError>
        ensures lit { IfOk result (λ l. l ≡ (emit gate x y z self.old).lit) }
        ensures circuit { OnOk result (self.new ≡ (emit gate x y z self.old).circuit) }
    {
        let variable = self.take_variables(1)?;
        let own = Lit {
            variable,
            positive: true,
        };
        self.define(gate, own, x, y, z)?;
        Ok(own)
    }

    // Adds the clauses that make a literal equal to a gate's value.
    fn define(&mut self, gate: Gate, own: Lit, x: Lit, y: Lit, z: Lit) -> Result<(), AllocError>
        ensures { OnOk result (self.new ≡ record { variables = self.old.variables; clauses = self.old.clauses ++ map clause_of (gate_lits gate own x y z) }) }
    {
        match gate {
            Gate::And => self.define_and(own, x, y),
            Gate::Xor => self.define_xor(own, x, y),
            Gate::Sum => self.define_sum(own, x, y, z),
            Gate::Carry => self.define_carry(own, x, y, z),
            Gate::Pick => self.define_pick(own, x, y, z),
        }
    }

    fn define_and(&mut self, own: Lit, x: Lit, y: Lit) -> Result<(), AllocError>
        ensures { OnOk result (self.new ≡ record { variables = self.old.variables; clauses = self.old.clauses ++ map clause_of (gate_lits Gate.And own x y y) }) }
    {
        let not = own.opposite();
        self.add_clause(&[not, x])?;
        self.add_clause(&[not, y])?;
        self.add_clause(&[own, x.opposite(), y.opposite()])
    }

    fn define_xor(&mut self, own: Lit, x: Lit, y: Lit) -> Result<(), AllocError>
        ensures { OnOk result (self.new ≡ record { variables = self.old.variables; clauses = self.old.clauses ++ map clause_of (gate_lits Gate.Xor own x y y) }) }
    {
        let not = own.opposite();
        let (not_x, not_y) = (x.opposite(), y.opposite());
        self.add_clause(&[not, x, y])?;
        self.add_clause(&[not, not_x, not_y])?;
        self.add_clause(&[own, not_x, y])?;
        self.add_clause(&[own, x, not_y])
    }

    fn define_sum(&mut self, own: Lit, x: Lit, y: Lit, z: Lit) -> Result<(), AllocError>
        ensures { OnOk result (self.new ≡ record { variables = self.old.variables; clauses = self.old.clauses ++ map clause_of (gate_lits Gate.Sum own x y z) }) }
    {
        self.forbid_even(own.opposite(), x, y, z)?;
        self.forbid_even(own, x.opposite(), y, z)?;
        Ok(())
    }

    // Adds the clauses that make the first true where an even number of the others is.
    fn forbid_even(&mut self, own: Lit, x: Lit, y: Lit, z: Lit) -> Result<(), AllocError>
        ensures { OnOk result (self.new ≡ record { variables = self.old.variables; clauses = self.old.clauses ++ map clause_of (even_lits own x y z) }) }
    {
        let (not_x, not_y, not_z) = (x.opposite(), y.opposite(), z.opposite());
        self.add_clause(&[own, x, y, z])?;
        self.add_clause(&[own, x, not_y, not_z])?;
        self.add_clause(&[own, not_x, y, not_z])?;
        self.add_clause(&[own, not_x, not_y, z])
    }

    fn define_carry(&mut self, own: Lit, x: Lit, y: Lit, z: Lit) -> Result<(), AllocError>
        ensures { OnOk result (self.new ≡ record { variables = self.old.variables; clauses = self.old.clauses ++ map clause_of (gate_lits Gate.Carry own x y z) }) }
    {
        let not = own.opposite();
        let (not_x, not_y, not_z) = (x.opposite(), y.opposite(), z.opposite());
        self.add_clause(&[not, x, y])?;
        self.add_clause(&[not, x, z])?;
        self.add_clause(&[not, y, z])?;
        self.add_clause(&[own, not_x, not_y])?;
        self.add_clause(&[own, not_x, not_z])?;
        self.add_clause(&[own, not_y, not_z])
    }

    fn define_pick(&mut self, own: Lit, x: Lit, y: Lit, z: Lit) -> Result<(), AllocError>
        ensures { OnOk result (self.new ≡ record { variables = self.old.variables; clauses = self.old.clauses ++ map clause_of (gate_lits Gate.Pick own x y z) }) }
    {
        let not = own.opposite();
        let not_z = z.opposite();
        self.add_clause(&[not, not_z, x])?;
        self.add_clause(&[own, not_z, x.opposite()])?;
        self.add_clause(&[not, z, y])?;
        self.add_clause(&[own, z, y.opposite()])
    }

    /// The same gate at each place of two words, and a third bit. It ends with the shorter.
    pub fn each(
        &mut self,
        gate: Gate,
        xs: &[Lit],
        ys: &[Lit],
        z: Lit,
    ) -> Result<Vec<Lit>, AllocError>
        ensures bits { IfOk result (λ bits. bits.items ≡ (each gate xs.now ys.now z self.old).bits) }
        ensures circuit { OnOk result (self.new ≡ (each gate xs.now ys.now z self.old).circuit) }
    {
        let mut bits = Vec::new(self.allocator());
        for i in 0..xs.len().min(ys.len()) {
            let bit = self.emit(gate, xs[i], ys[i], z)?;
            bits.push(bit)?;
        }
        Ok(bits)
    }

    /// The sum of two words and a carry. It ends with the shorter.
    pub fn add(&mut self, xs: &[Lit], ys: &[Lit], first: Lit) -> Result<Sum, AllocError>
        ensures bits { IfOk result (λ sum. sum.bits.items ≡ (add xs.now ys.now first self.old).bits) }
        ensures carry { IfOk result (λ sum. sum.carry ≡ (add xs.now ys.now first self.old).carry) }
        ensures circuit { OnOk result (self.new ≡ (add xs.now ys.now first self.old).circuit) }
    {
        let mut bits = Vec::new(self.allocator());
        let mut over = first;
        for i in 0..xs.len().min(ys.len()) {
            let bit = self.emit(Gate::Sum, xs[i], ys[i], over)?;
            over = self.emit(Gate::Carry, xs[i], ys[i], over)?;
            bits.push(bit)?;
        }
        Ok(Sum { bits, carry: over })
    }

    /// The carry out of the last place of a sum of two words and a carry.
    pub fn carry(&mut self, xs: &[Lit], ys: &[Lit], first: Lit) -> Result<Lit, AllocError>
        ensures carry { IfOk result (λ over. over ≡ (carry xs.now ys.now first self.old).lit) }
        ensures circuit { OnOk result (self.new ≡ (carry xs.now ys.now first self.old).circuit) }
    {
        let mut over = first;
        for i in 0..xs.len().min(ys.len()) {
            over = self.emit(Gate::Carry, xs[i], ys[i], over)?;
        }
        Ok(over)
    }

    /// Whether a bit is true and all of a word are.
    pub fn all(&mut self, bit: Lit, xs: &[Lit]) -> Result<Lit, AllocError>
        ensures lit { IfOk result (λ l. l ≡ (all bit xs.now self.old).lit) }
        ensures circuit { OnOk result (self.new ≡ (all bit xs.now self.old).circuit) }
    {
        let mut so_far = bit;
        for x in xs {
            so_far = self.emit(Gate::And, so_far, *x, *x)?;
        }
        Ok(so_far)
    }
}

// The list of some literals.
fn list_of(alloc: Global, lits: &[Lit]) -> Result<Lits, AllocError>
    ensures { IfOk result (λ list. list ≡ lits.now) }
{
    let mut list = Lits::new(alloc);
    for lit in lits {
        list.push(*lit)?;
    }
    Ok(list)
}
