//! Words of 32 bits, and the operators on them.

ghost use Rattle.std.specs.Prelude.{◌≡◌, Bool, true, false, not, if◌then◌else◌, Some, None};
ghost use Rattle.gc0_base.specs.Words.{word_sum, word_difference, word_product, word_and, word_or, word_xor, word_negation, word_complement, signed, word_less, is_negative, word_magnitude, with_sign, differ, has_quotient, word_quotient, word_remainder, is_amount, word_left, word_right, quotient_of, remainder_of, left_of, right_of};

/// A word of 32 bits, read as a number in two's complement (C0 Reference, "int").
#[derive(Clone, Copy, Debug, PartialEq, Eq)]
pub struct Word(pub u32);

impl Word {
    /// The word of a number.
    pub fn from_i32(value: i32) -> Word
        ensures { signed result.0 ≡ value }
    {
        Word(value.cast_unsigned())
    }

    /// The number of a word, from -2^31 to 2^31 - 1.
    pub fn to_i32(self) -> i32
        ensures { result ≡ signed self.0 }
    {
        self.0.cast_signed()
    }

    /// The sum modulo 2^32.
    pub fn add(self, other: Word) -> Word
        ensures { result.0 ≡ word_sum self.0 other.0 }
    {
        Word(self.0.wrapping_add(other.0))
    }

    /// The difference modulo 2^32.
    pub fn sub(self, other: Word) -> Word
        ensures { result.0 ≡ word_difference self.0 other.0 }
    {
        Word(self.0.wrapping_sub(other.0))
    }

    /// The product modulo 2^32.
    pub fn mul(self, other: Word) -> Word
        ensures { result.0 ≡ word_product self.0 other.0 }
    {
        Word(self.0.wrapping_mul(other.0))
    }

    /// The bits that both words have.
    pub fn and(self, other: Word) -> Word
        ensures { result.0 ≡ word_and self.0 other.0 }
    {
        Word(self.0 & other.0)
    }

    /// The bits that one of the words has, or both.
    pub fn or(self, other: Word) -> Word
        ensures { result.0 ≡ word_or self.0 other.0 }
    {
        Word(self.0 | other.0)
    }

    /// The bits in which the words differ.
    pub fn xor(self, other: Word) -> Word
        ensures { result.0 ≡ word_xor self.0 other.0 }
    {
        Word(self.0 ^ other.0)
    }

    /// The negation modulo 2^32.
    pub fn neg(self) -> Word
        ensures { result.0 ≡ word_negation self.0 }
    {
        Word(0u32.wrapping_sub(self.0))
    }

    /// The bits that this word does not have.
    pub fn not(self) -> Word
        ensures { result.0 ≡ word_complement self.0 }
    {
        Word(!self.0)
    }

    /// Whether the number of this word is below the other's.
    pub fn less(self, other: Word) -> bool
        ensures { result ≡ word_less self.0 other.0 }
    {
        self.to_i32() < other.to_i32()
    }

    /// The quotient, cut off toward zero. None for the divisor 0, and for the least
    /// integer by -1: the fault `division`.
    pub fn div(self, other: Word) -> Option<Word>
        ensures { result ≡ quotient_of self other }
    {
        if !self.has_quotient(other) {
            return None;
        }
        let size = self.magnitude() / other.magnitude();
        Some(Word(signed_size(self.is_negative() != other.is_negative(), size)))
    }

    /// The remainder of `div`, which has the sign of this word. None as for `div`.
    pub fn rem(self, other: Word) -> Option<Word>
        ensures { result ≡ remainder_of self other }
    {
        if !self.has_quotient(other) {
            return None;
        }
        let size = self.magnitude() % other.magnitude();
        Some(Word(signed_size(self.is_negative(), size)))
    }

    /// The bits moved up by an amount from 0 to 31. None for another amount: the fault
    /// `shift`.
    pub fn shl(self, amount: Word) -> Option<Word>
        ensures { result ≡ left_of self amount }
    {
        if amount.0 >= 32 {
            return None;
        }
        Some(Word(self.0 << amount.0))
    }

    /// The bits moved down by an amount from 0 to 31, with copies of the sign above them.
    /// None for another amount: the fault `shift`.
    pub fn shr(self, amount: Word) -> Option<Word>
        ensures { result ≡ right_of self amount }
    {
        if amount.0 >= 32 {
            return None;
        }
        if self.is_negative() {
            return Some(Word(u32::MAX - (u32::MAX - self.0) / (1 << amount.0)));
        }
        Some(Word(self.0 / (1 << amount.0)))
    }

    // Whether the number of this word is below 0.
    fn is_negative(self) -> bool
        ensures { result ≡ is_negative self.0 }
    {
        self.0 >= 0x8000_0000
    }

    // How far the number of this word is from 0.
    fn magnitude(self) -> u32
        ensures { result ≡ word_magnitude self.0 }
    {
        if self.is_negative() {
            return u32::MAX - self.0 + 1;
        }
        self.0
    }

    // Whether this word has a quotient by the other.
    fn has_quotient(self, other: Word) -> bool
        ensures { result ≡ has_quotient self.0 other.0 }
    {
        let overflows = self.0 == 0x8000_0000 && other.0 == u32::MAX;
        other.0 != 0 && !overflows
    }
}

// The word that is so far from 0, on the side that is asked for.
fn signed_size(negative: bool, size: u32) -> u32
    ensures { result ≡ with_sign negative size }
{
    if negative {
        return 0u32.wrapping_sub(size);
    }
    size
}
