//! The rows of a table's terms, one after another.
ghost use Rattle.std.specs.Prelude.{◌≡◌, ◌<◌, ◌+◌, [], ◌∷◌, ◌++◌, map, length, All, IfOk, OnOk, if◌then◌else◌};
ghost use Rattle.word_terms.specs.Tables.{IsTable};
ghost use Rattle.word_terms.specs.Weights.{is_under};
ghost use Rattle.word_blast.specs.Bits.{bits_of};
ghost use Rattle.word_blast.specs.Gates.{constant_lit};
ghost use Rattle.word_blast.specs.Groups.{lits_from};
ghost use Rattle.word_blast.specs.Circuits.{width_of, row_at, node_group, inputs_of, with_node, without_node, nothing_blasted, blasted, true_clauses, false_clauses};

use crate::builder::Builder;
use crate::groups::least;
use gc0_base::Word;
use sat_check::{Clause, Lit};
use std::alloc::{AllocError, Global};
use std::marker::Model;
use word_terms::{Node, Sort, TermId, Terms};

/// The variables of a symbol: so many from a first on, none where the symbol isn't asked for.
#[derive(Clone, Copy, Debug, PartialEq, Eq)]
pub struct Input {
    pub first: u32,
    pub count: u32,
}

const NO_INPUT: Input = Input { first: 0, count: 0 };

/// The bits of terms, by the terms' numbers.
#[derive(Drop)]
pub(crate) struct Rows {
    rows: Vec<Vec<Lit>>,
}

impl Model for Rows {
    ghost use Rattle.std.specs.Prelude.{List, map};
    ghost use Rattle.sat_check.specs.declared.clause.Lit.{Lit as OneLit};

    ghost Value = { List (List OneLit) };

    ghost view = { λ r. map (λ row. row.items) r.rows.items };
}

impl Rows {
    fn new(alloc: Global) -> Rows
        ensures { result ≡ [] }
    {
        Rows {
            rows: Vec::new(alloc),
        }
    }

    fn push(&mut self, row: Vec<Lit>) -> Result<(), AllocError>
        ensures { OnOk result (self.new ≡ self.old ++ row.items ∷ []) }
    {
        self.rows.push(row)?;
        Ok(())
    }

    /// The bits of a term, none where there are none.
    pub fn row(&self, term: TermId) -> &[Lit]
        ensures { result.now ≡ row_at self.now term.0 }
    {
        let place = term.0 as usize;
        if place < self.rows.len() {
            self.rows[place].as_slice()
        } else {
            &[]
        }
    }
}

/// What a circuit has so far: the rows of terms, the variables of symbols, and the clauses.
#[derive(Drop)]
pub(crate) struct Blast {
    rows: Rows,
    inputs: Vec<Input>,
    builder: Builder,
}

impl Model for Blast {
    ghost use Rattle.word_blast.specs.Circuits.{Blasted};

    ghost Value = { Blasted };

    ghost view = { λ b. record { rows = b.rows; inputs = b.inputs.items; circuit = b.builder } };
}

/// What a query is made of.
#[derive(Drop)]
pub(crate) struct Parts {
    pub variables: u32,
    pub clauses: Vec<Clause>,
    pub inputs: Vec<Input>,
}

/// The circuit of the terms under the roots.
pub(crate) fn blast_terms(
    alloc: Global,
    terms: &Terms,
    roots: &[TermId],
) -> Result<Blast, AllocError>
    requires { All (λ r. r.0 < length terms.now.nodes) roots.now }
    ensures formed { IsTable terms.now }
    ensures circuit { IfOk result (λ b. b ≡ blasted (is_under terms.now.nodes (map (λ r. r.0) roots.now)) 0 terms.now.nodes (nothing_blasted (length terms.now.sorts))) }
{
    let nodes = terms.nodes();
    let marks = terms.under(roots)?;
    let mut blast = Blast::new(alloc, terms.symbols())?;
    for (place, node) in nodes.iter().enumerate() {
        blast.step(marks[place], *node)?;
    }
    Ok(blast)
}

impl Blast {
    /// The variables, the clauses with those of the roots, and the variables of the symbols.
    pub fn finish(self, truths: &[TermId], falsehoods: &[TermId]) -> Result<Parts, AllocError>
        ensures variables { IfOk result (λ p. p.variables ≡ self.circuit.variables) }
        ensures clauses { IfOk result (λ p. p.clauses.items ≡ self.circuit.clauses ++ true_clauses self.rows (map (λ t. t.0) truths.now) ++ false_clauses self.rows (map (λ t. t.0) falsehoods.now)) }
        ensures inputs { IfOk result (λ p. p.inputs.items ≡ self.inputs) }
    {
        let Blast {
            rows,
            inputs,
            mut builder,
        } = self;
        demand(&mut builder, &rows, truths)?;
        forbid(&mut builder, &rows, falsehoods)?;
        Ok(Parts {
            variables: builder.variables(),
            clauses: builder.into_clauses(),
            inputs,
        })
    }

    fn new(alloc: Global, symbols: u32) -> Result<Blast, AllocError>
        ensures { IfOk result (λ b. b ≡ nothing_blasted symbols) }
    {
        let builder = Builder::new(alloc)?;
        let inputs = vec![in alloc; NO_INPUT; symbols as usize]?;
        Ok(Blast {
            rows: Rows::new(alloc),
            inputs,
            builder,
        })
    }

    // The next term, which is asked for or not.
    fn step(&mut self, asked: bool, node: Node) -> Result<(), AllocError>
        ensures { OnOk result (self.new ≡ (if asked then with_node node self.old else without_node self.old)) }
    {
        if asked { self.join(node) } else { self.skip() }
    }

    fn skip(&mut self) -> Result<(), AllocError>
        ensures { OnOk result (self.new ≡ without_node self.old) }
    {
        self.rows.push(Vec::new(self.builder.allocator()))?;
        Ok(())
    }

    fn join(&mut self, node: Node) -> Result<(), AllocError>
        ensures { OnOk result (self.new ≡ with_node node self.old) }
    {
        let first = self.builder.variables();
        let row = node_group(&mut self.builder, &self.rows, node)?;
        note_input(&mut self.inputs, node, first);
        self.rows.push(row)?;
        Ok(())
    }
}

// Makes truths true.
fn demand(builder: &mut Builder, rows: &Rows, truths: &[TermId]) -> Result<(), AllocError>
    ensures { OnOk result (builder.new ≡ record { variables = builder.old.variables; clauses = builder.old.clauses ++ true_clauses rows.now (map (λ t. t.0) truths.now) }) }
{
    for term in truths {
        let bit = least(rows.row(*term));
        builder.add_clause(&[bit])?;
    }
    Ok(())
}

// Makes truths false.
fn forbid(builder: &mut Builder, rows: &Rows, falsehoods: &[TermId]) -> Result<(), AllocError>
    ensures { OnOk result (builder.new ≡ record { variables = builder.old.variables; clauses = builder.old.clauses ++ false_clauses rows.now (map (λ t. t.0) falsehoods.now) }) }
{
    for term in falsehoods {
        let bit = least(rows.row(*term));
        builder.add_clause(&[bit.opposite()])?;
    }
    Ok(())
}

// The group of a node, whose parts have rows.
fn node_group(builder: &mut Builder, rows: &Rows, node: Node) -> Result<Vec<Lit>, AllocError>
    ensures bits { IfOk result (λ bits. bits.items ≡ (node_group rows.now node builder.old).bits) }
    ensures circuit { OnOk result (builder.new ≡ (node_group rows.now node builder.old).circuit) }
{
    match node {
        Node::Symbol(_, sort) => new_bits(builder, width(sort)),
        Node::Constant(word) => constant_bits(builder.allocator(), word),
        Node::Truth(truth) => truth_bits(builder.allocator(), truth),
        Node::Unary(op, part) => builder.unary_group(op, rows.row(part)),
        Node::Binary(op, left, right) => builder.binary_group(op, rows.row(left), rows.row(right)),
        Node::Choose(condition, yes, no) => {
            builder.pick_of(least(rows.row(condition)), rows.row(yes), rows.row(no))
        }
    }
}

// Notes the variables of a symbol.
fn note_input(inputs: &mut [Input], node: Node, first: u32)
    ensures { inputs.new ≡ inputs_of node first inputs.old }
{
    if let Node::Symbol(number, sort) = node {
        let place = number as usize;
        if place < inputs.len() {
            inputs[place] = Input {
                first,
                count: width(sort),
            };
        }
    }
}

// The number of bits of a sort.
fn width(sort: Sort) -> u32
    ensures { result ≡ width_of sort }
{
    match sort {
        Sort::Word32 => 32,
        Sort::Truth => 1,
    }
}

// So many new variables.
fn new_bits(builder: &mut Builder, count: u32) -> Result<Vec<Lit>, AllocError>
    ensures bits { IfOk result (λ bits. bits.items ≡ lits_from builder.old.variables count) }
    ensures circuit { OnOk result (builder.new ≡ record { variables = builder.old.variables + count; clauses = builder.old.clauses }) }
{
    let first = builder.take_variables(count)?;
    let mut bits = Vec::new(builder.allocator());
    for variable in first..first + count {
        bits.push(Lit {
            variable,
            positive: true,
        })?;
    }
    Ok(bits)
}

// The bits of a word, which are no variables.
fn constant_bits(alloc: Global, word: Word) -> Result<Vec<Lit>, AllocError>
    ensures { IfOk result (λ bits. bits.items ≡ map constant_lit (bits_of 32 word.0)) }
{
    let mut bits = Vec::new(alloc);
    let mut rest = word.0;
    for i in 0..32u32 {
        prove!(i < 32);
        bits.push(Lit {
            variable: 0,
            positive: rest % 2 == 1,
        })?;
        rest /= 2;
    }
    Ok(bits)
}

fn truth_bits(alloc: Global, truth: bool) -> Result<Vec<Lit>, AllocError>
    ensures { IfOk result (λ bits. bits.items ≡ constant_lit truth ∷ []) }
{
    let mut bits = Vec::new(alloc);
    bits.push(Lit {
        variable: 0,
        positive: truth,
    })?;
    Ok(bits)
}
