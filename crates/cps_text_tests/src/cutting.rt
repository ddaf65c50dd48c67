//! Bytes, cut into tokens, and the bytes that strings denote.
//!
//! Tables stand as text, a row on each line, so that many cases cost one function: a text with its tokens, a byte with
//! a text that is refused there, a string with what it denotes in hexadecimal digits.
ghost use Rattle.std.specs.Prelude.{◌<◌, length};

use crate::rows::assert_text;
use cps_lex::{LexError, Token, TokenKind, push_text, tokens};
use std::alloc::Global;
use std::fmt::Write;
use std::process::Abort;
use std::test::Fail;

/// Each token with its kind, its first byte and the byte behind its last.
fn shown(alloc: Global, tokens: &[Token]) -> Result<String, Fail> {
    let mut text = String::new(alloc);
    for token in tokens {
        write!(text, "{:?} {}..{};", token.kind, token.start, token.end)?;
    }
    Ok(text)
}

/// Asserts that a text has these tokens.
fn assert_tokens(rt: &impl Abort, alloc: Global, text: &str, wanted: &str) -> Result<(), Fail> {
    let bytes = text.as_bytes();
    assert!(rt; bytes.len() < 1000);
    let tokens = tokens(alloc, bytes)?;
    let shown = shown(alloc, &tokens)?;
    assert_text(rt, text, &shown, wanted);
    Ok(())
}

/// Texts, each with its tokens.
static CUT: [(&str, &str); 6] = [
    ("", ""),
    (" \t\n\u{b}\u{c}\r# all of it", ""),
    (
        "variables { domain: 0",
        "Identifier 0..9;Sign 10..11;Identifier 12..18;Sign 18..19;Decimal 20..21;",
    ),
    (
        "_a1<-90#;\n c2",
        "Identifier 0..3;Sign 3..4;Sign 4..5;Decimal 5..7;Identifier 11..13;",
    ),
    (
        "1e-2-0xe-1",
        "Float 0..4;Sign 4..5;Hexadecimal 5..8;Sign 8..9;Decimal 9..10;",
    ),
    (
        "'a'\"\\142\"c''",
        "Text 0..3;Text 3..9;Identifier 9..10;Text 10..12;",
    ),
];

fn assert_cut(rt: &impl Abort, alloc: Global, rows: &[(&str, &str)]) -> Result<(), Fail> {
    for (text, wanted) in rows {
        assert_tokens(rt, alloc, text, wanted)?;
    }
    Ok(())
}

#[test]
fn cuts_texts(rt: HostRuntime) -> Result<(), Fail> {
    assert_cut(&rt, rt.alloc(), &CUT)
}

/// Asserts that the whole text is one token of this kind.
fn assert_one(rt: &impl Abort, alloc: Global, text: &[u8], kind: TokenKind) -> Result<(), Fail> {
    assert!(rt; text.len() < 1000);
    let whole = Token {
        kind,
        start: 0,
        end: text.len() as u32,
    };
    let tokens = tokens(alloc, text)?;
    assert!(rt; tokens.as_slice() == [whole].as_slice());
    Ok(())
}

/// Words that are one token each, with its kind.
static NUMBERS: [(&str, TokenKind); 4] = [
    ("0 90", TokenKind::Decimal),
    ("00 0777", TokenKind::Octal),
    ("0x0 0XaF9 0x1f 0x1e5", TokenKind::Hexadecimal),
    (
        "1.5 10.25 0. 7. .5 .05e1 1e5 0E+5 12e-07 1.5e10 1.e5f .5e3F 1f 0F 9.F 1e5f",
        TokenKind::Float,
    ),
];

fn assert_words(rt: &impl Abort, alloc: Global, words: &str, kind: TokenKind) -> Result<(), Fail> {
    for word in words.split(' ') {
        assert_one(rt, alloc, word.as_bytes(), kind)?;
    }
    Ok(())
}

fn assert_kinds(rt: &impl Abort, alloc: Global, rows: &[(&str, TokenKind)]) -> Result<(), Fail> {
    for (words, kind) in rows {
        assert_words(rt, alloc, words, *kind)?;
    }
    Ok(())
}

#[test]
fn cuts_numbers(rt: HostRuntime) -> Result<(), Fail> {
    assert_kinds(&rt, rt.alloc(), &NUMBERS)
}

/// The byte at which no token can stand, where one can at each earlier place.
fn refused_at(alloc: Global, text: &[u8]) -> Option<usize>
    requires { length text.now < 1000 }
{
    match tokens(alloc, text) {
        Err(LexError::NoToken { at }) => Some(at),
        _ => None,
    }
}

/// Asserts that no token can stand at this byte, and that one can at each earlier place.
fn assert_refused(rt: &impl Abort, alloc: Global, text: &[u8], byte: usize) {
    assert!(rt; text.len() < 1000);
    assert!(rt;
        refused_at(alloc, text) == Some(byte),
        "no token was to stand at {byte}"
    );
}

/// Each line is a byte and a text that is refused there.
static REFUSED: &str = "\
    21 variables { domain: [089, 90] }\n\
    3 a: 1b\n\
    3 a: 1_\n\
    3 a: 08\n\
    3 a: 07a\n\
    3 a: 01f\n\
    3 a: 00.5\n\
    3 a: 0x\n\
    3 a: 0xg\n\
    3 a: 0x1g\n\
    3 a: 0x1.5\n\
    3 a: 1..2\n\
    3 a: 1.5.2\n\
    3 a: 1.5x\n\
    3 a: 1e\n\
    3 a: 1e+\n\
    3 a: 1e5e5\n\
    3 a: 1e5.\n\
    3 a: 1ff\n\
    3 a: 0f1\n\
    3 a: .\n\
    3 a: .e5\n\
    3 a: .f\n\
    6 a: 1-2+3\n\
    6 a: 0xe+1\n\
    1 a/b\n\
    3 a: '\n\
    3 a: 'b\n\
    3 a: \"b'\n\
    3 a: 'b\"\n\
    3 a: '\\\n\
    3 a: '\\'\n\
    7 a: 'b' 'c\n\
    3 a: '\\q'\n\
    3 a: '\\8'\n\
    3 a: '\\400'\n\
    3 a: '\\777'\n\
    3 a: '\\x'\n\
    3 a: '\\xg'\n\
    3 a: '\\u004'\n\
    3 a: '\\u004g'\n\
    3 a: '\\U0001F60'\n\
    3 a: '\\uD800'\n\
    3 a: '\\uDFFF'\n\
    3 a: '\\U0000D800'\n\
    3 a: '\\U00110000'\n\
    3 a: '\\U00200041'\n\
    3 a: '\\UFFFFFFFF'\n\
";

fn assert_lines_refused(rt: &impl Abort, alloc: Global, lines: &str) -> Result<(), Fail> {
    for line in lines.lines() {
        let (byte, text) = line.split_once(' ').ok_or("no text")?;
        assert_refused(rt, alloc, text.as_bytes(), byte.parse::<usize>()?);
    }
    Ok(())
}

#[test]
fn refuses_texts(rt: HostRuntime) -> Result<(), Fail> {
    assert_lines_refused(&rt, rt.alloc(), REFUSED)
}

/// Texts with bytes that no line of a table can have, each with the byte at which it is refused.
static UNREADABLE: [(&[u8], usize); 4] = [
    (b"a \x80", 2),
    (b"a \x00", 2),
    (b"a: 'b\x0ac'", 3),
    (b"a: '\\\x0a'", 3),
];

fn assert_all_refused(rt: &impl Abort, alloc: Global, rows: &[(&[u8], usize)]) {
    for (text, byte) in rows {
        assert_refused(rt, alloc, text, *byte);
    }
}

#[test]
fn refuses_bytes(rt: HostRuntime) {
    assert_all_refused(&rt, rt.alloc(), &UNREADABLE)
}

/// The bytes that strings behind one another denote together, as hexadecimal digits.
fn denoted(alloc: Global, strings: &[&[u8]]) -> Result<String, Fail> {
    let mut bytes = Vec::new(alloc);
    for string in strings {
        push_text(string, &mut bytes)?;
    }
    let mut digits = String::new(alloc);
    for byte in bytes.as_slice() {
        write!(digits, "{byte:02x}")?;
    }
    Ok(digits)
}

/// Asserts that the whole text is one string, which denotes these bytes.
fn assert_string(rt: &impl Abort, alloc: Global, text: &[u8], wanted: &str) -> Result<(), Fail> {
    assert_one(rt, alloc, text, TokenKind::Text)?;
    let digits = denoted(alloc, &[text])?;
    assert_text(rt, wanted, &digits, wanted);
    Ok(())
}

/// Each line is a string and the bytes that it denotes.
static STRINGS: &str = "\
    '' \n\
    \"x_1\" 785f31\n\
    \"it's\" 69742773\n\
    '\"#' 2223\n\
    '\\a\\b\\f\\n' 07080c0a\n\
    '\\r\\t\\v\\?' 0d090b3f\n\
    '\\\\\\'\\\"' 5c2722\n\
    '\\0' 00\n\
    '\\7' 07\n\
    '\\78' 0738\n\
    '\\12' 0a\n\
    '\\128' 0a38\n\
    '\\101' 41\n\
    '\\1013' 4133\n\
    '\\377' ff\n\
    '\\1\\22\\3' 011203\n\
    '\\x4' 04\n\
    '\\xfg' 0f67\n\
    '\\x41' 41\n\
    '\\X4a1' 4a31\n\
    '\\xFF\\x0' ff00\n\
    '\\u0041' 41\n\
    '\\u00411' 4131\n\
    '\\u007f\\u0080' 7fc280\n\
    '\\u00e9' c3a9\n\
    '\\u07ff\\u0800' dfbfe0a080\n\
    '\\u20AC' e282ac\n\
    '\\uD7FF\\uE000' ed9fbfee8080\n\
    '\\uffff' efbfbf\n\
    '\\U00000041' 41\n\
    '\\U00010000' f0908080\n\
    '\\U0001F600' f09f9880\n\
    '\\U0010FFFF' f48fbfbf\n\
";

fn assert_strings(rt: &impl Abort, alloc: Global, lines: &str) -> Result<(), Fail> {
    for line in lines.lines() {
        let (text, wanted) = line.split_once(' ').ok_or("no bytes")?;
        assert_string(rt, alloc, text.as_bytes(), wanted)?;
    }
    Ok(())
}

#[test]
fn reads_strings(rt: HostRuntime) -> Result<(), Fail> {
    assert_strings(&rt, rt.alloc(), STRINGS)?;
    assert_string(&rt, rt.alloc(), b"'\x00\t\x80\xff'", "000980ff")
}

#[test]
fn joins_strings(rt: HostRuntime) -> Result<(), Fail> {
    let digits = denoted(rt.alloc(), &[b"'a'", b"\"\\142\""])?;
    assert_text(&rt, "a and b", &digits, "6162");
    Ok(())
}
