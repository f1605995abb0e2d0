//! What the words of the command ask for.
ghost use Rattle.std.specs.Prelude.{◌≡◌, ◌≤◌, IfSome, map, option_map, string_bytes};
ghost use Rattle.sat_top.specs.Requests.{asked_in, asked_of, is_option, conflicts_in, plain_in, proved_in, limited_in};

use crate::limits::Limits;

/// What the words of a command ask for.
#[derive(Clone, Copy, Debug)]
pub struct Request<'a> {
    /// How many clauses the search may learn: one at each conflict.
    pub conflicts: u64,
    /// The name of the file with the formula.
    pub formula: &'a str,
    /// The name of the file for the proof, where one is wanted.
    pub proof: Option<&'a str>,
}

/// The request that the words after the program's name make. None where they make none, which is
/// answered by the usage line. Takes no memory.
///
/// The number of conflicts is `0` or decimal digits without a leading zero, at most
/// 4,294,967,295, and 100,000 where the words name none.
pub fn request_of(words: &[String]) -> Option<Request<'_>>
    ensures asked { option_map asked_of result ≡ asked_in (map string_bytes words.now) }
    ensures few { IfSome result (λ r. r.conflicts ≤ Limits.CONFLICTS) }
{
    match words {
        [formula] => plain(Limits::DEFAULT_CONFLICTS, formula.as_str()),
        [formula, proof] => proved(Limits::DEFAULT_CONFLICTS, formula.as_str(), proof.as_str()),
        [option, number, formula] => {
            plain(limit(option.as_str(), number.as_str())?, formula.as_str())
        }
        [option, number, formula, proof] => {
            proved(
                limit(option.as_str(), number.as_str())?,
                formula.as_str(),
                proof.as_str(),
            )
        }
        [] => None,
        [_, _, _, _, _, ..] => None,
    }
}

// `CNF`
fn plain(conflicts: u64, formula: &str) -> Option<Request<'_>>
    ensures asked { option_map asked_of result ≡ plain_in conflicts formula.now }
    ensures few { IfSome result (λ r. r.conflicts ≡ conflicts) }
{
    if is_option(formula) {
        return None;
    }
    Some(Request {
        conflicts,
        formula,
        proof: None,
    })
}

// `CNF PROOF`
fn proved<'a>(conflicts: u64, formula: &'a str, proof: &'a str) -> Option<Request<'a>>
    ensures asked { option_map asked_of result ≡ proved_in conflicts formula.now proof.now }
    ensures few { IfSome result (λ r. r.conflicts ≡ conflicts) }
{
    if is_option(formula) || is_option(proof) {
        return None;
    }
    Some(Request {
        conflicts,
        formula,
        proof: Some(proof),
    })
}

// `--conflicts N`
fn limit(option: &str, number: &str) -> Option<u64>
    ensures number { result ≡ limited_in option.now number.now }
    ensures few { IfSome result (λ n. n ≤ Limits.CONFLICTS) }
{
    if option != "--conflicts" {
        return None;
    }
    conflicts_in(number)
}

fn is_option(word: &str) -> bool
    ensures { result ≡ is_option word.now }
{
    word.as_bytes().starts_with(b"--")
}

// The number of conflicts that a word writes.
fn conflicts_in(word: &str) -> Option<u64>
    ensures number { result ≡ conflicts_in word.now }
    ensures few { IfSome result (λ n. n ≤ Limits.CONFLICTS) }
{
    let digits = word.as_bytes();
    if digits.is_empty() || (digits.len() > 1 && digits[0] == b'0') {
        return None;
    }
    let mut value: u64 = 0;
    for digit in digits {
        if !digit.is_ascii_digit() {
            return None;
        }
        value = value
            .saturating_mul(10)
            .saturating_add(u64::from(*digit - b'0'));
    }
    if value > Limits::CONFLICTS {
        return None;
    }
    Some(value)
}
