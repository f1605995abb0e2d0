//! What the words of a command ask for.
ghost use Rattle.std.specs.Prelude.{◌≡◌, ◌≤◌, IfSome, map, option_map, string_bytes};
ghost use Rattle.gradual_top.specs.Requests.{asked_in, asked_of, file_of, steps_of, is_option, steps_in, plain_in, stepped_in};

use gc0_base::Limits;

/// What the words of a command ask for.
#[derive(Clone, Copy, Debug)]
pub enum Request<'a> {
    /// `run [--steps N] FILE`: compile the file with every check, and run it.
    Run {
        /// How many steps the run may take.
        steps: u64,
        /// The name of the source file.
        file: &'a str,
    },
}

/// The request that the words after the program's name make. None where they make none, which
/// is answered by the usage line. Takes no memory.
///
/// The number of steps is `0` or decimal digits without a leading zero, at most 10,000,000, and
/// 1,000,000 where the words name none.
pub fn request_of(words: &[String]) -> Option<Request<'_>>
    ensures asked { option_map asked_of result ≡ asked_in (map string_bytes words.now) }
    ensures few { IfSome result (λ r. steps_of r ≤ Limits.STEPS) }
{
    match words {
        [verb, file] => plain(verb.as_str(), file.as_str()),
        [verb, option, number, file] => {
            stepped(
                verb.as_str(),
                option.as_str(),
                number.as_str(),
                file.as_str(),
            )
        }
        [] => None,
        [_] => None,
        [_, _, _] => None,
        [_, _, _, _, _, ..] => None,
    }
}

// `run FILE`
fn plain<'a>(verb: &str, file: &'a str) -> Option<Request<'a>>
    ensures asked { option_map asked_of result ≡ plain_in verb.now file.now }
    ensures few { IfSome result (λ r. steps_of r ≤ Limits.STEPS) }
{
    if verb == "run" && !is_option(file) {
        return Some(Request::Run {
            steps: Limits::DEFAULT_STEPS,
            file,
        });
    }
    None
}

// `run --steps N FILE`
fn stepped<'a>(verb: &str, option: &str, number: &str, file: &'a str) -> Option<Request<'a>>
    ensures asked { option_map asked_of result ≡ stepped_in verb.now option.now number.now file.now }
    ensures few { IfSome result (λ r. steps_of r ≤ Limits.STEPS) }
{
    if verb == "run" && option == "--steps" && !is_option(file) {
        return match steps_in(number) {
            Some(steps) => Some(Request::Run { steps, file }),
            None => None,
        };
    }
    None
}

fn is_option(word: &str) -> bool
    ensures { result ≡ is_option word.now }
{
    word.as_bytes().starts_with(b"--")
}

// The number of steps that a word writes.
fn steps_in(word: &str) -> Option<u64>
    ensures is { result ≡ steps_in word.now }
    ensures few { IfSome result (λ n. n ≤ Limits.STEPS) }
{
    let digits = word.as_bytes();
    if digits.is_empty() || (digits.len() > 1 && digits[0] == b'0') {
        return None;
    }
    let mut value: u64 = 0;
    for digit in digits {
        if !digit.is_ascii_digit() {
            return None;
        }
        value = value
            .saturating_mul(10)
            .saturating_add(u64::from(*digit - b'0'));
    }
    if value > Limits::STEPS {
        return None;
    }
    Some(value)
}

impl<'a> Request<'a> {
    /// The name of the source file.
    pub fn file(self) -> &'a str
        ensures { result.now ≡ file_of self.entry }
    {
        match self {
            Request::Run { file, .. } => file,
        }
    }

    /// How many steps the run may take.
    pub fn steps(self) -> u64
        ensures { result ≡ steps_of self.entry }
    {
        match self {
            Request::Run { steps, .. } => steps,
        }
    }
}
