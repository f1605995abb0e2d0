//! Tests of `c0_lex`: tokens, lexical faults, long texts and escapes.

use c0_lex::{
    Keyword, LexFault, Symbol, Token, TokenKind, each_text, first_shown, never_both, one_fault,
    one_list, quoted_means, slices, tokens, unescape,
};
use gc0_base::Limits;
use std::alloc::{AllocError, Global};
use std::test::Fail;

// What the lexer says of a text, in one line: its tokens, each at its place, or its fault.
fn told(alloc: Global, text: &str) -> Result<String, AllocError> {
    let mut line = String::new(alloc);
    let source = text.as_bytes();
    if source.len() > Limits::SOURCE {
        return Ok(line);
    }
    match tokens(alloc, source) {
        Ok(list) => {
            for token in &list {
                let word = one(alloc, token)?;
                line.push_str(word.as_str())?;
            }
        }
        Err(fault) => {
            let word = format!(in alloc; "{fault}")?;
            line.push_str(word.as_str())?;
        }
    }
    Ok(line)
}

fn one(alloc: Global, token: &Token<'_>) -> Result<String, AllocError> {
    let line = token.place.line;
    let column = token.place.column;
    match token.kind {
        TokenKind::Keyword(keyword) => format!(in alloc; "{line}:{column} {keyword:?} "),
        TokenKind::Symbol(symbol) => format!(in alloc; "{line}:{column} {symbol:?} "),
        TokenKind::Number(word) => {
            let value = word.0;
            format!(in alloc; "{line}:{column} {value} ")
        }
        kind => format!(in alloc; "{line}:{column} {kind:?} "),
    }
}

// Texts with a lexical fault, and what is wrong with them first.
const FAULTS: [(&str, &str); 45] = [
    (".", "bad byte at 1:1"),
    ("int a[3];", "bad byte at 1:6"),
    ("x = 'a';", "bad byte at 1:5"),
    ("# use", "bad byte at 1:1"),
    ("#us", "bad byte at 1:1"),
    ("\\result", "bad byte at 1:1"),
    ("//@\\resultx", "bad byte at 1:4"),
    ("//@ensures \\result\nx = \\result;", "bad byte at 2:5"),
    ("a\n @", "bad byte at 2:2"),
    ("int \u{e9};", "bad byte at 1:5"),
    ("x $ y", "bad byte at 1:3"),
    ("`", "bad byte at 1:1"),
    ("a \u{7f}", "bad byte at 1:3"),
    ("x\u{0}", "bad byte at 1:2"),
    ("08", "bad number at 1:1"),
    ("00", "bad number at 1:1"),
    ("int x = 2147483649;", "bad number at 1:9"),
    ("0x", "bad number at 1:1"),
    ("0x123456789", "bad number at 1:1"),
    ("(0xfg)", "bad number at 1:2"),
    ("1a", "bad number at 1:1"),
    ("99999999999999999999999", "bad number at 1:1"),
    (
        "/* a /* b */ c */ int main() { return 08; }",
        "bad number at 1:39",
    ),
    ("\"a\\q\"", "bad escape at 1:3"),
    ("print(\"\\0\");", "bad escape at 1:8"),
    ("\"\\\n\"", "bad escape at 1:2"),
    ("\"\\", "bad escape at 1:2"),
    ("/* open", "open comment at 1:1"),
    ("a /* b /* c */", "open comment at 1:3"),
    ("/*/", "open comment at 1:1"),
    ("/*@requires x;", "open comment at 1:1"),
    ("\n /*@ /* */", "open comment at 2:2"),
    ("/*@ /* @*/", "open comment at 1:1"),
    ("/*@ /* x", "open comment at 1:5"),
    ("//@ /*\n", "open comment at 1:5"),
    ("\"abc", "open string at 1:1"),
    ("x = \"ab\ncd\";", "open string at 1:5"),
    ("\"caf\u{e9}\"", "open string at 1:1"),
    ("/*@ \"ab", "open string at 1:5"),
    ("\"\t\"", "open string at 1:1"),
    ("//@ //@", "nested annotation at 1:5"),
    ("/*@ a /*@ b @*/ @*/", "nested annotation at 1:7"),
    ("//@ /*@ @*/", "nested annotation at 1:5"),
    ("/*@ \n//@ @*/", "nested annotation at 2:1"),
    ("08 .", "bad number at 1:1"),
];

// Texts and their tokens.
const TEXTS: [(&str, &str); 22] = [
    ("", "1:1 End "),
    ("int x;", "1:1 Int 1:5 Name 1:6 Semicolon 1:7 End "),
    (
        "a<<=b>>c",
        "1:1 Name 1:2 ShlAssign 1:5 Name 1:6 ShiftRight 1:8 Name 1:9 End ",
    ),
    (
        "p->v---1",
        "1:1 Name 1:2 Arrow 1:4 Name 1:5 Decrement 1:7 Minus 1:8 1 1:9 End ",
    ),
    (
        "2147483648 0x80000000 0XfF 0",
        "1:1 2147483648 1:12 2147483648 1:23 255 1:28 0 1:29 End ",
    ),
    (
        "//@requires ? && acc(p->v);\nf",
        "1:1 AnnotationBegin 1:4 Requires 1:13 Question 1:15 Both 1:18 Acc 1:21 OpenParen 1:22 Name 1:23 Arrow 1:25 Name 1:26 CloseParen 1:27 Semicolon 1:28 AnnotationEnd 2:1 Name 2:2 End ",
    ),
    (
        "/*@ @ensures \\result == 1; @*/",
        "1:1 AnnotationBegin 1:6 Ensures 1:14 Outcome 1:22 Equal 1:25 1 1:26 Semicolon 1:28 AnnotationEnd 1:31 End ",
    ),
    (
        "//@ a /* \n */ b\nc",
        "1:1 AnnotationBegin 1:5 Name 2:5 Name 2:6 AnnotationEnd 3:1 Name 3:2 End ",
    ),
    ("requires acc", "1:1 Name 1:10 Name 1:13 End "),
    (
        "#use <conio>#usex",
        "1:1 Use 1:6 Less 1:7 Name 1:12 Greater 1:13 Use 1:17 Name 1:18 End ",
    ),
    (
        "print(\"a\\n\\\"\");",
        "1:1 Name 1:6 OpenParen 1:7 Quoted 1:14 CloseParen 1:15 Semicolon 1:16 End ",
    ),
    ("//@", "1:1 AnnotationBegin 1:4 AnnotationEnd 1:4 End "),
    ("// c\nx", "2:1 Name 2:2 End "),
    ("/**/x/*/**/*/y", "1:5 Name 1:14 Name 1:15 End "),
    (
        "//@ x // y @\nz",
        "1:1 AnnotationBegin 1:5 Name 1:13 AnnotationEnd 2:1 Name 2:2 End ",
    ),
    (
        "/*@ // @*/\n@*/",
        "1:1 AnnotationBegin 2:1 AnnotationEnd 2:4 End ",
    ),
    (
        "//@ @*/\n",
        "1:1 AnnotationBegin 1:6 Star 1:7 Slash 1:8 AnnotationEnd 2:1 End ",
    ),
    (
        "string char break continue alloc_array",
        "1:1 String 1:8 Char 1:13 Break 1:19 Continue 1:28 AllocArray 1:39 End ",
    ),
    (
        "/*@fold unfold predicate loop_invariant@*/",
        "1:1 AnnotationBegin 1:4 Fold 1:9 Unfold 1:16 Predicate 1:26 LoopInvariant 1:40 AnnotationEnd 1:43 End ",
    ),
    ("int_x _9", "1:1 Name 1:7 Name 1:9 End "),
    (
        "a||b&&c|d&e^~f!=!g?h:i",
        "1:1 Name 1:2 Either 1:4 Name 1:5 Both 1:7 Name 1:8 Or 1:9 Name 1:10 And 1:11 Name 1:12 Xor 1:13 Tilde 1:14 Name 1:15 NotEqual 1:17 Not 1:18 Name 1:19 Question 1:20 Name 1:21 Colon 1:22 Name 1:23 End ",
    ),
    ("\tx\r\n\u{b}\u{c}y", "1:2 Name 2:3 Name 2:4 End "),
];

#[test]
fn names_the_first_fault(rt: HostRuntime) -> Result<(), Fail> {
    for (text, want) in FAULTS.iter() {
        let got = told(rt.alloc(), text)?;
        assert_eq!(rt; got.as_str(), *want, "at {text}");
    }
    Ok(())
}

#[test]
fn cuts_into_tokens(rt: HostRuntime) -> Result<(), Fail> {
    for (text, want) in TEXTS.iter() {
        let got = told(rt.alloc(), text)?;
        assert_eq!(rt; got.as_str(), *want, "at {text}");
    }
    Ok(())
}

// A text of one byte over and over, as long as a source may be: how many tokens it has.
fn count_repeated(alloc: Global, b: u8) -> Result<usize, LexFault> {
    let text = vec![in alloc; b; 262144]?;
    if text.len() > Limits::SOURCE {
        return Ok(0);
    }
    let list = tokens(alloc, &text)?;
    Ok(list.len())
}

#[test]
fn answers_long_texts(rt: HostRuntime) {
    // One byte of each kind: a letter, digits, white space, symbols, and what begins no token.
    for b in b"a09 \n\"\\/*@#&<=>-;.$\x00\xff" {
        let count = count_repeated(rt.alloc(), *b);
        assert_ne!(rt; count, Err(LexFault::Memory), "at {b}");
    }
    assert_eq!(rt; count_repeated(rt.alloc(), b'('), Ok(262145));
    assert_eq!(rt; count_repeated(rt.alloc(), b'<'), Ok(131073));
    assert_eq!(rt; count_repeated(rt.alloc(), b'a'), Ok(2));
    assert_eq!(rt; count_repeated(rt.alloc(), b'/'), Ok(1));
    assert_eq!(rt; count_repeated(rt.alloc(), b' '), Ok(1));
}

#[test]
fn reads_escapes(rt: HostRuntime) -> Result<(), Fail> {
    let bytes = unescape(
        rt.alloc(),
        b"\"a\\n\\t\\v\\b\\r\\f\\a\\\\\\'\\\" z\"".as_slice(),
    )?;
    assert_eq!(rt;
        bytes.as_slice(),
        b"a\n\t\x0b\x08\r\x0c\x07\\'\" z".as_slice()
    );
    one_list();
    one_fault();
    never_both();
    each_text();
    quoted_means();
    first_shown();
    slices();
    assert!(rt; Keyword::Int.is(Keyword::Int) && !Keyword::Int.is(Keyword::Bool));
    assert!(rt; Symbol::Plus.is(Symbol::Plus) && !Symbol::Plus.is(Symbol::Minus));
    Ok(())
}
