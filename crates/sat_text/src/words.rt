//! Lines of a text, and words of a line.
ghost use Rattle.std.specs.Prelude.{◌≡◌, ◌<◌, ◌≤◌, ℕ, List, [], ◌∷◌, false, IsTrue, length, take, drop, MatchOption, IfSome};
ghost use Rattle.sat_text.specs.Texts.{is_space, ended, words_of, lines_of, row_of};

/// The first word of a line, and what stands behind it.
pub(crate) fn next_word(line: &[u8]) -> Option<(&[u8], &[u8])>
    ensures word { MatchOption result (words_of line.now ≡ []) (λ x. words_of line.now ≡ x.0.now ∷ words_of x.1.now) }
    ensures shorter { IfSome result (λ x. length x.1.now < length line.now) }
{
    let rest = behind_spaces(line);
    if rest.is_empty() {
        return None;
    }
    let at = word_len(rest);
    Some((&rest[..at], &rest[at..]))
}

// What stands behind the spaces in front.
fn behind_spaces(line: &[u8]) -> &[u8]
    ensures words { words_of result.now ≡ words_of line.now }
    ensures front { (byte : ℕ) (behind : List ℕ) → result.now ≡ byte ∷ behind → is_space byte ≡ false }
    ensures shorter { length result.now ≤ length line.now }
{
    let mut rest = line;
    while let Some((byte, behind)) = rest.split_first() {
        if !is_space(*byte) {
            return rest;
        }
        rest = behind;
    }
    rest
}

// How many bytes in front are a word.
fn word_len(rest: &[u8]) -> usize
    ensures within { result ≤ length rest.now }
    ensures some { (byte : ℕ) (behind : List ℕ) → rest.now ≡ byte ∷ behind → is_space byte ≡ false → 0 < result }
    ensures word { words_of rest.now ≡ ended (take result rest.now) (words_of (drop result rest.now)) }
{
    let mut at = 0;
    while at < rest.len() && !is_space(rest[at]) {
        at += 1;
    }
    at
}

fn is_space(byte: u8) -> bool
    ensures { result ≡ is_space byte }
{
    byte == b' ' || (9 <= byte && byte <= 13)
}

/// The first line of a text, and what stands behind its end, if it has one.
pub(crate) fn first_line(text: &[u8]) -> (&[u8], Option<&[u8]>)
    ensures line { MatchOption result.1 (lines_of text.now ≡ result.0.now ∷ []) (λ behind. lines_of text.now ≡ result.0.now ∷ lines_of behind.now) }
    ensures shorter { IfSome result.1 (λ behind. length behind.now < length text.now) }
{
    let mut at = 0;
    while at < text.len() {
        if text[at] == b'\n' {
            return (&text[..at], Some(&text[at + 1..]));
        }
        at += 1;
    }
    (text, None)
}

/// Whether a line is a comment, which has no words.
pub(crate) fn is_comment(line: &[u8]) -> bool
    ensures comment { IsTrue result → row_of line.now ≡ [] }
    ensures words { result ≡ false → row_of line.now ≡ words_of line.now }
{
    match line {
        [first, ..] => *first == b'c',
        [] => false,
    }
}
