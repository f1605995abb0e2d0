//! Numbers and literals, as the words that write them.
ghost use Rattle.std.specs.Prelude.{◌≡◌};
ghost use Rattle.sat_text.specs.Reading.{number_in, token_in, plain_token, negated_token};

use sat_check::Lit;

/// What a word behind the header may be.
#[derive(Clone, Copy)]
pub(crate) enum Token {
    /// The 0 that ends a clause.
    End,
    /// A literal.
    Literal(Lit),
}

/// The number that a word writes, where it isn't more than `most`: `0`, or digits without a
/// leading zero.
pub(crate) fn number_in(most: u32, word: &[u8]) -> Option<u32>
    ensures { result ≡ number_in most word.now }
{
    if word.is_empty() || (word.len() > 1 && word[0] == b'0') {
        return None;
    }
    let mut value: u64 = 0;
    for digit in word {
        if !digit.is_ascii_digit() {
            return None;
        }
        value = value
            .saturating_mul(10)
            .saturating_add(u64::from(*digit - b'0'));
    }
    if value > u64::from(most) {
        return None;
    }
    Some(value as u32)
}

/// The 0 that ends a clause, or the literal over so many variables that a word writes.
pub(crate) fn token_in(variables: u32, word: &[u8]) -> Option<Token>
    ensures { result ≡ token_in variables word.now }
{
    match word {
        [] => None,
        [b'-', digits @ ..] => negated_token(number_in(variables, digits)?),
        [_, ..] => Some(plain_token(number_in(variables, word)?)),
    }
}

fn plain_token(number: u32) -> Token
    ensures { result ≡ plain_token number }
{
    if number == 0 {
        return Token::End;
    }
    Token::Literal(Lit {
        variable: number - 1,
        positive: true,
    })
}

fn negated_token(number: u32) -> Option<Token>
    ensures { result ≡ negated_token number }
{
    if number == 0 {
        return None;
    }
    Some(Token::Literal(Lit {
        variable: number - 1,
        positive: false,
    }))
}
