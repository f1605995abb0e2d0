//! The weight of terms.

ghost use Rattle.std.specs.Prelude.{◌≡◌, ◌<◌, ◌≤◌, ◌^◌, if◌then◌else◌, false, replicate, map, length, All, IfOk};
ghost use Rattle.word_terms.specs.Weights.{weight_of, weight_from, mark_at, node_weight, unary_weight, binary_weight, parts, IsMarked, Adds, HavePartsBefore};

use crate::node::{Node, Op1, Op2, TermId};
use crate::terms::Terms;
use std::alloc::AllocError;

impl Terms {
    /// The weight of the distinct terms under the roots, which measures the circuit that
    /// they need.
    pub fn gates(&self, roots: &[TermId]) -> Result<u64, AllocError>
        requires { All (λ r. r.0 < length self.now.nodes) roots.now }
        ensures { IfOk result (λ w. w ≡ weight_of self.now.nodes (map (λ r. r.0) roots.now)) }
    {
        let marks = self.under(roots)?;
        Ok(weigh(self.nodes(), &marks))
    }

    /// Whether each term, at the place of its number, is under the roots: one of them, or a
    /// part of a term under them.
    pub fn under(&self, roots: &[TermId]) -> Result<Vec<bool>, AllocError>
        requires { All (λ r. r.0 < length self.now.nodes) roots.now }
        ensures { IfOk result (λ marks. IsMarked self.now.nodes (map (λ r. r.0) roots.now) marks.items) }
    {
        let nodes = self.nodes();
        let mut marks = vec![in self.allocator(); false; nodes.len()]?;
        mark_under(nodes, roots, &mut marks);
        Ok(marks)
    }
}

// Marks the roots, and then the parts of what is marked: a whole stands behind its parts.
fn mark_under(nodes: &[Node], roots: &[TermId], marks: &mut [bool])
    requires blank { marks.old ≡ replicate (length nodes.now) false }
    requires roots { All (λ r. r.0 < length nodes.now) roots.now }
    requires parts { HavePartsBefore nodes.now }
    ensures { IsMarked nodes.now (map (λ r. r.0) roots.now) marks.new }
{
    mark(marks, roots);
    for place in (0..nodes.len()).rev() {
        if marks[place] {
            mark_parts(marks, nodes[place]);
        }
    }
}

// Marks terms.
fn mark(marks: &mut [bool], terms: &[TermId])
    requires { All (λ t. t.0 < length marks.old) terms.now }
    ensures { Adds (map (λ t. t.0) terms.now) marks.old marks.new }
{
    for term in terms {
        marks[term.0 as usize] = true;
    }
}

// Marks the parts of a node.
fn mark_parts(marks: &mut [bool], node: Node)
    requires { All (λ t. t < length marks.old) (parts node) }
    ensures { Adds (parts node) marks.old marks.new }
{
    match node {
        Node::Symbol(_, _) | Node::Constant(_) | Node::Truth(_) => {}
        Node::Unary(_, part) => mark(marks, &[part]),
        Node::Binary(_, left, right) => mark(marks, &[left, right]),
        Node::Choose(condition, yes, no) => mark(marks, &[condition, yes, no]),
    }
}

// The weight of the marked nodes.
fn weigh(nodes: &[Node], marks: &[bool]) -> u64
    requires few { length nodes.now < 2 ^ 32 }
    requires marks { length marks.now ≡ length nodes.now }
    ensures { result ≡ weight_from (mark_at marks.now) 0 nodes.now }
{
    let mut weight = 0;
    for (place, node) in nodes.iter().enumerate() {
        weight += marked_weight(marks[place], *node);
    }
    weight
}

// The weight of a node, where it is marked.
fn marked_weight(marked: bool, node: Node) -> u64
    ensures weight { result ≡ (if marked then node_weight node else 0) }
    ensures bound { result ≤ 10000 }
{
    if marked { weight_of_node(node) } else { 0 }
}

// The weight of a node alone.
fn weight_of_node(node: Node) -> u64
    ensures weight { result ≡ node_weight node }
    ensures bound { result ≤ 10000 }
{
    match node {
        Node::Symbol(_, _) | Node::Constant(_) | Node::Truth(_) => 0,
        Node::Unary(op, _) => weight_of_one(op),
        Node::Binary(op, _, _) => weight_of_two(op),
        Node::Choose(_, _, _) => 96,
    }
}

fn weight_of_one(op: Op1) -> u64
    ensures { result ≡ unary_weight op }
{
    match op {
        Op1::Neg => 160,
        Op1::Not | Op1::Flip => 0,
    }
}

fn weight_of_two(op: Op2) -> u64
    ensures weight { result ≡ binary_weight op }
    ensures bound { result ≤ 10000 }
{
    match op {
        Op2::Both | Op2::Either => 1,
        Op2::And | Op2::Or | Op2::Xor => 32,
        Op2::Equal => 64,
        Op2::Add | Op2::Sub | Op2::Less => 160,
        Op2::Shl | Op2::Shr => 500,
        Op2::Mul => 6_000,
        Op2::Div | Op2::Rem => 10_000,
    }
}

#[cfg(test)]
mod tests;
