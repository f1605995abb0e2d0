//! Comments: how long one is.

ghost use Rattle.std.specs.Prelude.{◌≡◌, ◌≤◌, ◌<◌, ◌+◌, ◌^◌, length, IfSome};
ghost use Rattle.c0_lex.specs.Bytes.{is_newline};
ghost use Rattle.c0_lex.specs.Scan.{line_length, comment_length};

use crate::bytes::begins;

// How many bytes stand before the end of the line.
pub fn line_length(text: &[u8]) -> usize
    ensures exact { result ≡ line_length text.now }
    ensures within { result ≤ length text.now }
{
    for (i, b) in text.iter().enumerate() {
        if *b == 10 {
            return i;
        }
    }
    text.len()
}

// How many bytes lead out of a comment, behind its `/*`; comments in it are counted.
pub fn comment_length(text: &[u8]) -> Option<usize>
    ensures exact { result ≡ comment_length text.now 0 }
    ensures within { IfSome result (λ size. size ≤ length text.now) }
{
    let mut depth: usize = 0;
    let mut at: usize = 0;
    while at < text.len() {
        let rest = &text[at..];
        if begins(rest, b"/*".as_slice()) {
            depth += 1;
            at += 2;
        } else if begins(rest, b"*/".as_slice()) {
            at += 2;
            if depth == 0 {
                return Some(at);
            }
            depth -= 1;
        } else {
            at += 1;
        }
    }
    None
}
