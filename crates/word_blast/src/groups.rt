//! The clauses of each kind of term.
ghost use Rattle.std.specs.Prelude.{◌≡◌, ◌+◌, ◌^◌, [], ◌∷◌, ◌++◌, map, take, drop, replicate, length, IfOk, OnOk};
ghost use Rattle.word_blast.specs.Bits.{greatest, least, top_changed, moved_up, moved_down};
ghost use Rattle.word_blast.specs.Groups.{zero_lit, one_lit, flips, and_of, xor_of, or_of, pick_of, equal_of, sum_of, difference_of, negation_of, less_of, left_of, right_of, product_row, product_of, subtrahend_of, divide_row, divide, signed_of, masked, nonzero, signed_unless_zero, magnitudes_divided, quotient_of, remainder_of};
ghost use Rattle.word_blast.specs.Circuits.{unary_group, binary_group};
ghost use Rattle.sat_check.specs.Clauses.{opposite_of};

use crate::builder::{Builder, ONE, ZERO};
use crate::gate::Gate;
use sat_check::Lit;
use std::alloc::{AllocError, Global};
use word_terms::{Op1, Op2};

/// A quotient and a remainder.
#[derive(Drop)]
struct Divided {
    quotient: Vec<Lit>,
    remainder: Vec<Lit>,
}

/// A bit of a quotient, and the remainder after it.
#[derive(Drop)]
struct Quotient {
    bit: Lit,
    remainder: Vec<Lit>,
}

impl Builder {
    /// The group of an operator of one part.
    pub fn unary_group(&mut self, op: Op1, xs: &[Lit]) -> Result<Vec<Lit>, AllocError>
        ensures bits { IfOk result (λ bits. bits.items ≡ (unary_group op xs.now self.old).bits) }
        ensures circuit { OnOk result (self.new ≡ (unary_group op xs.now self.old).circuit) }
    {
        match op {
            Op1::Neg => self.negation_of(xs),
            Op1::Not | Op1::Flip => flips(self.allocator(), xs),
        }
    }

    /// The group of an operator of two parts.
    pub fn binary_group(&mut self, op: Op2, xs: &[Lit], ys: &[Lit]) -> Result<Vec<Lit>, AllocError>
        ensures bits { IfOk result (λ bits. bits.items ≡ (binary_group op xs.now ys.now self.old).bits) }
        ensures circuit { OnOk result (self.new ≡ (binary_group op xs.now ys.now self.old).circuit) }
    {
        match op {
            Op2::Add => self.sum_of(xs, ys),
            Op2::Sub => self.difference_of(xs, ys),
            Op2::Mul => self.product_of(xs, ys),
            Op2::Div => self.quotient_of(xs, ys),
            Op2::Rem => self.remainder_of(xs, ys),
            Op2::And | Op2::Both => self.and_of(xs, ys),
            Op2::Or | Op2::Either => self.or_of(xs, ys),
            Op2::Xor => self.xor_of(xs, ys),
            Op2::Shl => self.left_of(xs, ys),
            Op2::Shr => self.right_of(xs, ys),
            Op2::Less => self.less_of(xs, ys),
            Op2::Equal => self.equal_of(xs, ys),
        }
    }

    /// The first word where the bit is true, else the second.
    pub fn pick_of(&mut self, bit: Lit, xs: &[Lit], ys: &[Lit]) -> Result<Vec<Lit>, AllocError>
        ensures bits { IfOk result (λ bits. bits.items ≡ (pick_of bit xs.now ys.now self.old).bits) }
        ensures circuit { OnOk result (self.new ≡ (pick_of bit xs.now ys.now self.old).circuit) }
    {
        self.each(Gate::Pick, xs, ys, bit)
    }

    fn and_of(&mut self, xs: &[Lit], ys: &[Lit]) -> Result<Vec<Lit>, AllocError>
        ensures bits { IfOk result (λ bits. bits.items ≡ (and_of xs.now ys.now self.old).bits) }
        ensures circuit { OnOk result (self.new ≡ (and_of xs.now ys.now self.old).circuit) }
    {
        self.each(Gate::And, xs, ys, ZERO)
    }

    fn xor_of(&mut self, xs: &[Lit], ys: &[Lit]) -> Result<Vec<Lit>, AllocError>
        ensures bits { IfOk result (λ bits. bits.items ≡ (xor_of xs.now ys.now self.old).bits) }
        ensures circuit { OnOk result (self.new ≡ (xor_of xs.now ys.now self.old).circuit) }
    {
        self.each(Gate::Xor, xs, ys, ZERO)
    }

    fn or_of(&mut self, xs: &[Lit], ys: &[Lit]) -> Result<Vec<Lit>, AllocError>
        ensures bits { IfOk result (λ bits. bits.items ≡ (or_of xs.now ys.now self.old).bits) }
        ensures circuit { OnOk result (self.new ≡ (or_of xs.now ys.now self.old).circuit) }
    {
        let alloc = self.allocator();
        let not_xs = flips(alloc, xs)?;
        let not_ys = flips(alloc, ys)?;
        let both = self.and_of(&not_xs, &not_ys)?;
        let bits = flips(alloc, &both)?;
        Ok(bits)
    }

    fn equal_of(&mut self, xs: &[Lit], ys: &[Lit]) -> Result<Vec<Lit>, AllocError>
        ensures bits { IfOk result (λ bits. bits.items ≡ (equal_of xs.now ys.now self.old).bits) }
        ensures circuit { OnOk result (self.new ≡ (equal_of xs.now ys.now self.old).circuit) }
    {
        let alloc = self.allocator();
        let apart = self.xor_of(xs, ys)?;
        let alike = flips(alloc, &apart)?;
        let equal = self.all(ONE, &alike)?;
        single(alloc, equal)
    }

    fn sum_of(&mut self, xs: &[Lit], ys: &[Lit]) -> Result<Vec<Lit>, AllocError>
        ensures bits { IfOk result (λ bits. bits.items ≡ (sum_of xs.now ys.now self.old).bits) }
        ensures circuit { OnOk result (self.new ≡ (sum_of xs.now ys.now self.old).circuit) }
    {
        let sum = self.add(xs, ys, ZERO)?;
        Ok(sum.bits)
    }

    fn difference_of(&mut self, xs: &[Lit], ys: &[Lit]) -> Result<Vec<Lit>, AllocError>
        ensures bits { IfOk result (λ bits. bits.items ≡ (difference_of xs.now ys.now self.old).bits) }
        ensures circuit { OnOk result (self.new ≡ (difference_of xs.now ys.now self.old).circuit) }
    {
        let not_ys = flips(self.allocator(), ys)?;
        let sum = self.add(xs, &not_ys, ONE)?;
        Ok(sum.bits)
    }

    fn negation_of(&mut self, xs: &[Lit]) -> Result<Vec<Lit>, AllocError>
        ensures bits { IfOk result (λ bits. bits.items ≡ (negation_of xs.now self.old).bits) }
        ensures circuit { OnOk result (self.new ≡ (negation_of xs.now self.old).circuit) }
    {
        let alloc = self.allocator();
        let zeros = copies(alloc, ZERO, xs.len())?;
        let not_xs = flips(alloc, xs)?;
        let sum = self.add(&zeros, &not_xs, ONE)?;
        Ok(sum.bits)
    }

    fn less_of(&mut self, xs: &[Lit], ys: &[Lit]) -> Result<Vec<Lit>, AllocError>
        ensures bits { IfOk result (λ bits. bits.items ≡ (less_of xs.now ys.now self.old).bits) }
        ensures circuit { OnOk result (self.new ≡ (less_of xs.now ys.now self.old).circuit) }
    {
        let alloc = self.allocator();
        let left = top_flipped(alloc, xs)?;
        let right = top_flipped(alloc, ys)?;
        let not_right = flips(alloc, &right)?;
        let over = self.carry(&left, &not_right, ONE)?;
        single(alloc, over.opposite())
    }

    // The amount counts modulo 32.
    fn left_of(&mut self, xs: &[Lit], ys: &[Lit]) -> Result<Vec<Lit>, AllocError>
        ensures bits { IfOk result (λ bits. bits.items ≡ (left_of xs.now ys.now self.old).bits) }
        ensures circuit { OnOk result (self.new ≡ (left_of xs.now ys.now self.old).circuit) }
    {
        let alloc = self.allocator();
        let amount = front(ys, 5);
        let mut bits = Vec::from_slice(alloc, xs)?;
        for j in 0..amount.len() {
            let moved = moved_up(alloc, &bits, 1 << j)?;
            bits = self.pick_of(amount[j], &moved, &bits)?;
        }
        Ok(bits)
    }

    // The amount counts modulo 32, and copies of the sign come in.
    fn right_of(&mut self, xs: &[Lit], ys: &[Lit]) -> Result<Vec<Lit>, AllocError>
        ensures bits { IfOk result (λ bits. bits.items ≡ (right_of xs.now ys.now self.old).bits) }
        ensures circuit { OnOk result (self.new ≡ (right_of xs.now ys.now self.old).circuit) }
    {
        let alloc = self.allocator();
        let amount = front(ys, 5);
        let sign = greatest(xs);
        let mut bits = Vec::from_slice(alloc, xs)?;
        for j in 0..amount.len() {
            let moved = moved_down(alloc, sign, &bits, 1 << j)?;
            bits = self.pick_of(amount[j], &moved, &bits)?;
        }
        Ok(bits)
    }

    // From the last bit of the second word to its first.
    fn product_of(&mut self, xs: &[Lit], ys: &[Lit]) -> Result<Vec<Lit>, AllocError>
        ensures bits { IfOk result (λ bits. bits.items ≡ (product_of xs.now ys.now self.old).bits) }
        ensures circuit { OnOk result (self.new ≡ (product_of xs.now ys.now self.old).circuit) }
    {
        let mut bits = Vec::new(self.allocator());
        for i in (0..ys.len()).rev() {
            bits = self.product_row(xs, ys[i], ys.len() - i, &bits)?;
        }
        Ok(bits)
    }

    fn product_row(
        &mut self,
        xs: &[Lit],
        y: Lit,
        count: usize,
        high: &[Lit],
    ) -> Result<Vec<Lit>, AllocError>
        ensures bits { IfOk result (λ bits. bits.items ≡ (product_row xs.now y count high.now self.old).bits) }
        ensures circuit { OnOk result (self.new ≡ (product_row xs.now y count high.now self.old).circuit) }
    {
        let alloc = self.allocator();
        let ys = copies(alloc, y, count)?;
        let row = self.and_of(front(xs, count), &ys)?;
        let doubled = before(alloc, ZERO, high)?;
        let sum = self.add(&doubled, &row, ZERO)?;
        Ok(sum.bits)
    }

    // From the last bit of the dividend to its first.
    fn divide(&mut self, xs: &[Lit], ys: &[Lit]) -> Result<Divided, AllocError>
        ensures quotient { IfOk result (λ d. d.quotient.items ≡ (divide xs.now ys.now self.old).quotient) }
        ensures remainder { IfOk result (λ d. d.remainder.items ≡ (divide xs.now ys.now self.old).remainder) }
        ensures circuit { OnOk result (self.new ≡ (divide xs.now ys.now self.old).circuit) }
    {
        let alloc = self.allocator();
        let subtrahend = subtrahend(alloc, ys)?;
        let mut quotient = Vec::new(alloc);
        let mut remainder = copies(alloc, ZERO, ys.len())?;
        for i in (0..xs.len()).rev() {
            let row = self.divide_row(xs[i], &remainder, &subtrahend, ys.len())?;
            quotient = before(alloc, row.bit, &quotient)?;
            remainder = row.remainder;
        }
        Ok(Divided {
            quotient,
            remainder,
        })
    }

    fn divide_row(
        &mut self,
        x: Lit,
        remainder: &[Lit],
        subtrahend: &[Lit],
        count: usize,
    ) -> Result<Quotient, AllocError>
        ensures bit { IfOk result (λ q. q.bit ≡ (divide_row x remainder.now subtrahend.now count self.old).bit) }
        ensures remainder { IfOk result (λ q. q.remainder.items ≡ (divide_row x remainder.now subtrahend.now count self.old).remainder) }
        ensures circuit { OnOk result (self.new ≡ (divide_row x remainder.now subtrahend.now count self.old).circuit) }
    {
        let rest = before(self.allocator(), x, remainder)?;
        let less = self.add(&rest, subtrahend, ONE)?;
        let kept = self.pick_of(less.carry, front(&less.bits, count), front(&rest, count))?;
        Ok(Quotient {
            bit: less.carry,
            remainder: kept,
        })
    }

    fn signed_of(&mut self, sign: Lit, xs: &[Lit]) -> Result<Vec<Lit>, AllocError>
        ensures bits { IfOk result (λ bits. bits.items ≡ (signed_of sign xs.now self.old).bits) }
        ensures circuit { OnOk result (self.new ≡ (signed_of sign xs.now self.old).circuit) }
    {
        let alloc = self.allocator();
        let signs = copies(alloc, sign, xs.len())?;
        let flipped = self.xor_of(xs, &signs)?;
        let zeros = copies(alloc, ZERO, xs.len())?;
        let sum = self.add(&zeros, &flipped, sign)?;
        Ok(sum.bits)
    }

    fn masked(&mut self, bit: Lit, xs: &[Lit]) -> Result<Vec<Lit>, AllocError>
        ensures bits { IfOk result (λ bits. bits.items ≡ (masked bit xs.now self.old).bits) }
        ensures circuit { OnOk result (self.new ≡ (masked bit xs.now self.old).circuit) }
    {
        let mask = copies(self.allocator(), bit, xs.len())?;
        self.and_of(xs, &mask)
    }

    fn nonzero(&mut self, xs: &[Lit]) -> Result<Lit, AllocError>
        ensures lit { IfOk result (λ l. l ≡ (nonzero xs.now self.old).lit) }
        ensures circuit { OnOk result (self.new ≡ (nonzero xs.now self.old).circuit) }
    {
        let not_xs = flips(self.allocator(), xs)?;
        let none = self.all(ONE, &not_xs)?;
        Ok(none.opposite())
    }

    fn signed_unless_zero(
        &mut self,
        sign: Lit,
        zs: &[Lit],
        ys: &[Lit],
    ) -> Result<Vec<Lit>, AllocError>
        ensures bits { IfOk result (λ bits. bits.items ≡ (signed_unless_zero sign zs.now ys.now self.old).bits) }
        ensures circuit { OnOk result (self.new ≡ (signed_unless_zero sign zs.now ys.now self.old).circuit) }
    {
        let whole = self.signed_of(sign, zs)?;
        let some = self.nonzero(ys)?;
        self.masked(some, &whole)
    }

    fn magnitudes_divided(&mut self, xs: &[Lit], ys: &[Lit]) -> Result<Divided, AllocError>
        ensures quotient { IfOk result (λ d. d.quotient.items ≡ (magnitudes_divided xs.now ys.now self.old).quotient) }
        ensures remainder { IfOk result (λ d. d.remainder.items ≡ (magnitudes_divided xs.now ys.now self.old).remainder) }
        ensures circuit { OnOk result (self.new ≡ (magnitudes_divided xs.now ys.now self.old).circuit) }
    {
        let left = self.signed_of(greatest(xs), xs)?;
        let right = self.signed_of(greatest(ys), ys)?;
        self.divide(&left, &right)
    }

    fn quotient_of(&mut self, xs: &[Lit], ys: &[Lit]) -> Result<Vec<Lit>, AllocError>
        ensures bits { IfOk result (λ bits. bits.items ≡ (quotient_of xs.now ys.now self.old).bits) }
        ensures circuit { OnOk result (self.new ≡ (quotient_of xs.now ys.now self.old).circuit) }
    {
        let parts = self.magnitudes_divided(xs, ys)?;
        let sign = self.emit(Gate::Xor, greatest(xs), greatest(ys), ZERO)?;
        self.signed_unless_zero(sign, &parts.quotient, ys)
    }

    fn remainder_of(&mut self, xs: &[Lit], ys: &[Lit]) -> Result<Vec<Lit>, AllocError>
        ensures bits { IfOk result (λ bits. bits.items ≡ (remainder_of xs.now ys.now self.old).bits) }
        ensures circuit { OnOk result (self.new ≡ (remainder_of xs.now ys.now self.old).circuit) }
    {
        let parts = self.magnitudes_divided(xs, ys)?;
        self.signed_unless_zero(greatest(xs), &parts.remainder, ys)
    }
}

// The flips of bits.
fn flips(alloc: Global, xs: &[Lit]) -> Result<Vec<Lit>, AllocError>
    ensures { IfOk result (λ bits. bits.items ≡ flips xs.now) }
{
    xs.iter().map(|x| x.opposite()).collect(alloc)
}

// So many copies of a bit.
fn copies(alloc: Global, bit: Lit, count: usize) -> Result<Vec<Lit>, AllocError>
    ensures { IfOk result (λ bits. bits.items ≡ replicate count bit) }
{
    vec![in alloc; bit; count]
}

// The word of one bit.
fn single(alloc: Global, bit: Lit) -> Result<Vec<Lit>, AllocError>
    ensures { IfOk result (λ bits. bits.items ≡ bit ∷ []) }
{
    let mut bits = Vec::new(alloc);
    bits.push(bit)?;
    Ok(bits)
}

// A word with a bit before its least.
fn before(alloc: Global, bit: Lit, xs: &[Lit]) -> Result<Vec<Lit>, AllocError>
    ensures { IfOk result (λ bits. bits.items ≡ bit ∷ xs.now) }
{
    let mut bits = single(alloc, bit)?;
    bits.extend_from_slice(xs)?;
    Ok(bits)
}

// The complement of a divisor, with one place more.
fn subtrahend(alloc: Global, ys: &[Lit]) -> Result<Vec<Lit>, AllocError>
    ensures { IfOk result (λ bits. bits.items ≡ subtrahend_of ys.now) }
{
    let mut bits = Vec::from_slice(alloc, ys)?;
    bits.push(ZERO)?;
    flips(alloc, &bits)
}

// The first bits of a word, at most so many.
fn front(xs: &[Lit], count: usize) -> &[Lit]
    ensures { result.now ≡ take count xs.now }
{
    if count < xs.len() { &xs[..count] } else { xs }
}

// The bits of a word behind the first, so many.
fn back(xs: &[Lit], count: usize) -> &[Lit]
    ensures { result.now ≡ drop count xs.now }
{
    if count < xs.len() { &xs[count..] } else { &[] }
}

// The greatest bit, or a zero where there is none.
fn greatest(xs: &[Lit]) -> Lit
    ensures { result ≡ greatest zero_lit xs.now }
{
    match xs.last() {
        Some(bit) => *bit,
        None => ZERO,
    }
}

/// The least bit, or a zero where there is none.
pub(crate) fn least(xs: &[Lit]) -> Lit
    ensures { result ≡ least zero_lit xs.now }
{
    match xs.first() {
        Some(bit) => *bit,
        None => ZERO,
    }
}

// A word with its greatest bit flipped.
fn top_flipped(alloc: Global, xs: &[Lit]) -> Result<Vec<Lit>, AllocError>
    ensures { IfOk result (λ bits. bits.items ≡ top_changed opposite_of xs.now) }
{
    let mut bits = Vec::from_slice(alloc, xs)?;
    let count = bits.len();
    if count == 0 {
        return Ok(bits);
    }
    bits[count - 1] = bits[count - 1].opposite();
    Ok(bits)
}

// A word moved up, with zeros below.
fn moved_up(alloc: Global, xs: &[Lit], count: usize) -> Result<Vec<Lit>, AllocError>
    ensures { IfOk result (λ bits. bits.items ≡ moved_up zero_lit count xs.now) }
{
    let mut bits = copies(alloc, ZERO, count)?;
    bits.extend_from_slice(xs)?;
    bits.truncate(xs.len());
    Ok(bits)
}

// A word moved down, with copies of a bit above.
fn moved_down(alloc: Global, bit: Lit, xs: &[Lit], count: usize) -> Result<Vec<Lit>, AllocError>
    ensures { IfOk result (λ bits. bits.items ≡ moved_down bit count xs.now) }
{
    let mut bits = Vec::from_slice(alloc, back(xs, count))?;
    let above = copies(alloc, bit, count)?;
    bits.extend_from_slice(&above)?;
    bits.truncate(xs.len());
    Ok(bits)
}
