//! Tokens, read as the tree of a document.
//!
//! In most rows each byte of a text is taken as one token, whose kind the byte tells, so that a token's number is a
//! byte's place. A few rows are cut by the lexer first.
use crate::rows::{assert_so, assert_text};
use cps_lex::{Token, TokenKind, tokens};
use cps_textproto::{TextError, document};
use std::alloc::Global;
use std::process::Abort;
use std::test::Fail;

/// The kind of a token of one byte: numbers of each kind are told apart by their digit.
fn kind_of(byte: u8) -> TokenKind {
    match byte {
        b'a'..=b'z' => TokenKind::Identifier,
        b'0' => TokenKind::Decimal,
        b'1' => TokenKind::Octal,
        b'2' => TokenKind::Hexadecimal,
        b'3' => TokenKind::Float,
        b'"' => TokenKind::Text,
        _ => TokenKind::Sign,
    }
}

/// A token for each byte, so that a token's number is that of its byte.
fn bytes_as_tokens(rt: &impl Abort, alloc: Global, text: &[u8]) -> Result<Vec<Token>, Fail> {
    let mut tokens = Vec::new(alloc);
    let mut start = 0u8;
    for byte in text {
        assert!(rt; start < 255);
        tokens.push(Token {
            kind: kind_of(*byte),
            start: start as u32,
            end: start as u32 + 1,
        })?;
        start += 1;
    }
    Ok(tokens)
}

/// The first token behind which no document goes on; `None` if the tokens are a document.
fn fault(
    rt: &impl Abort,
    alloc: Global,
    text: &[u8],
    tokens: &[Token],
) -> Result<Option<usize>, Fail> {
    assert!(rt; tokens.len() < 1000);
    match document(alloc, text, tokens) {
        Ok(_) => Ok(None),
        Err(TextError::NotADocument { token }) => Ok(Some(token)),
        Err(error) => Err(Fail::from(error)),
    }
}

/// Asserts that the bytes of a text, as tokens, are refused at this token, or are a document where it is `-`.
fn assert_fault(rt: &impl Abort, alloc: Global, text: &str, wanted: &str) -> Result<(), Fail> {
    let tokens = bytes_as_tokens(rt, alloc, text.as_bytes())?;
    let fault = fault(rt, alloc, text.as_bytes(), &tokens)?;
    assert_so(rt, text, fault == wanted.parse::<usize>().ok());
    Ok(())
}

/// Each line is the token behind which no document goes on, or `-`, and a text whose bytes are its tokens.
static TEXTS: &str = "\
    - a<>\n\
    - a:<>\n\
    - a{b<>}c<d{}>\n\
    - a[{b:0},<>]\n\
    - a:[{},{}];b[]\n\
    - a:\"\"\n\
    - a:\"\"b:\"c{d:\"}\n\
    - a:[\"\",\",0,-3,x]\n\
    - a:0a:1,a:2;a:-3\n\
    - a[]a:[]\n\
    2 a{>\n\
    2 a<}\n\
    3 a[{>\n\
    4 a:<b>\n\
    6 a:[{},0]\n\
    5 a:[0,{}]\n\
    4 a:[\"{}]\n\
    3 a:[,]\n\
    2 a[,]\n\
    5 a[{},]\n\
    5 a:[\",]\n\
    5 a:[0,]\n\
    4 a[{}{}]\n\
    4 a[{};{}]\n\
    4 a[{}}\n\
    2 a[0]\n\
    2 a[\"]\n\
    1 a\"\n\
    1 a0\n\
    3 a:-\"\n\
    4 a:[-\"]\n\
    3 a:--0\n\
    3 a:\"0\n\
    3 a:0\"\n\
    3 a:\"-\n\
    5 a:[\"\"-]\n\
    0 [a]:0\n\
    0 ,a:0\n\
    4 a:0,;\n\
    2 a{,}\n\
    2 a::0\n\
    4 a:{}{}\n\
    1 a\n\
    2 a:\n\
    3 a:-\n\
    2 a[\n\
    4 a[{}\n\
    4 a:[\"\n\
    5 a:[0,\n\
    5 a<b:\"\n\
";

fn assert_line_faults(rt: &impl Abort, alloc: Global, lines: &str) -> Result<(), Fail> {
    for line in lines.lines() {
        let (wanted, text) = line.split_once(' ').ok_or("no text")?;
        assert_fault(rt, alloc, text, wanted)?;
    }
    Ok(())
}

#[test]
fn refuses_tokens(rt: HostRuntime) -> Result<(), Fail> {
    assert_line_faults(&rt, rt.alloc(), TEXTS)
}

/// Messages in each other, 32 and 33, in lists too.
static NESTED: [(&str, &str); 4] = [
    (
        "-",
        "a{a<a{a<a{a<a{a<a{a<a{a<a{a<a{a<a{a<a{a<a{a<a{a<a{a<a{a<a{a<a{a<a[]>}>}>}>}>}>}>}>}>}>}>}>}>}>}>}>}",
    ),
    (
        "65",
        "a{a<a{a<a{a<a{a<a{a<a{a<a{a<a{a<a{a<a{a<a{a<a{a<a{a<a{a<a{a<a{a<a{",
    ),
    (
        "-",
        "a[{a:<a[{a:<a[{a:<a[{a:<a[{a:<a[{a:<a[{a:<a[{a:<a[{a:<a[{a:<a[{a:<a[{a:<a[{a:<a[{a:<a[{a:<a[{a:<a:0>}]>}]>}]>}]>}]>}]>}]>}]>}]>}]>}]>}]>}]>}]>}]>}]",
    ),
    (
        "98",
        "a[{a:<a[{a:<a[{a:<a[{a:<a[{a:<a[{a:<a[{a:<a[{a:<a[{a:<a[{a:<a[{a:<a[{a:<a[{a:<a[{a:<a[{a:<a[{a:<a[{",
    ),
];

fn assert_faults(rt: &impl Abort, alloc: Global, rows: &[(&str, &str)]) -> Result<(), Fail> {
    for (wanted, text) in rows {
        assert_fault(rt, alloc, text, wanted)?;
    }
    Ok(())
}

#[test]
fn refuses_deep_messages(rt: HostRuntime) -> Result<(), Fail> {
    assert_faults(&rt, rt.alloc(), &NESTED)
}

/// Asserts that a text, cut into its tokens, is refused at this token, or is a document where it is `None`.
fn assert_cut_fault(
    rt: &impl Abort,
    alloc: Global,
    text: &str,
    wanted: Option<usize>,
) -> Result<(), Fail> {
    let bytes = text.as_bytes();
    assert!(rt; bytes.len() < 1000);
    let tokens = tokens(alloc, bytes)?;
    assert_so(rt, text, fault(rt, alloc, bytes, &tokens)? == wanted);
    Ok(())
}

/// Texts, each with the token at which it is refused; `None` if it is a document.
static CUT: [(&str, Option<usize>); 11] = [
    ("", None),
    ("variables { domain: [0, -1] } # a", None),
    ("variables { domian: 0 }", None),
    ("a: < b: - 2 >", None),
    ("a: \"x\" 'y' # z\n b: [\"x\" \"y\", 'z']", None),
    ("a: 017 b: 0x1F c: - .5e3f", None),
    ("a: - \"x\"", Some(3)),
    ("a: [\"x\" \"y\", 'z',]", Some(8)),
    ("variables { domain: 0", Some(5)),
    ("a: [1 2]", Some(4)),
    ("a < b: 1 }", Some(5)),
];

fn assert_cut_faults(
    rt: &impl Abort,
    alloc: Global,
    rows: &[(&str, Option<usize>)],
) -> Result<(), Fail> {
    for (text, wanted) in rows {
        assert_cut_fault(rt, alloc, text, *wanted)?;
    }
    Ok(())
}

#[test]
fn refuses_cut_texts(rt: HostRuntime) -> Result<(), Fail> {
    assert_cut_faults(&rt, rt.alloc(), &CUT)
}

/// The tree of a text on these tokens, as `Debug` shows it.
fn tree(rt: &impl Abort, alloc: Global, text: &str, tokens: &[Token]) -> Result<String, Fail> {
    assert!(rt; tokens.len() < 1000);
    let node = document(alloc, text.as_bytes(), tokens)?;
    Ok(format!(in alloc; "{node:?}")?)
}

/// Asserts that this is the tree of a text whose bytes are its tokens.
fn assert_tree(rt: &impl Abort, alloc: Global, text: &str, wanted: &str) -> Result<(), Fail> {
    let tokens = bytes_as_tokens(rt, alloc, text.as_bytes())?;
    let tree = tree(rt, alloc, text, &tokens)?;
    assert_text(rt, text, &tree, wanted);
    Ok(())
}

/// Texts whose bytes are their tokens, each with its tree.
static TREES: [(&str, &str); 8] = [
    ("", "Node { fields: [] }"),
    (
        "a:-0",
        "Node { fields: [Field { name: 0, list: false, items: One(Scalar { first: 2, end: 4 }) }] }",
    ),
    (
        "a:\"\"\",b<>",
        "Node { fields: [Field { name: 0, list: false, items: One(Scalar { first: 2, end: 5 }) }, \
         Field { name: 6, list: false, items: One(Message { first: 7, node: Node { fields: [] } }) }] }",
    ),
    (
        "a:[\"\",\",-0]",
        "Node { fields: [Field { name: 0, list: true, items: Scalars([\
         TokenRange { first: 3, end: 5 }, TokenRange { first: 6, end: 7 }, TokenRange { first: 8, end: 10 }]) }] }",
    ),
    (
        "a:[\"\"]",
        "Node { fields: [Field { name: 0, list: true, items: One(Scalar { first: 3, end: 5 }) }] }",
    ),
    (
        "a[{b[<>]},<>]",
        "Node { fields: [Field { name: 0, list: true, items: Messages([\
         Nested { first: 2, node: Node { fields: [Field { name: 3, list: true, \
         items: One(Message { first: 5, node: Node { fields: [] } }) }] } }, \
         Nested { first: 10, node: Node { fields: [] } }]) }] }",
    ),
    (
        "a[{}]",
        "Node { fields: [Field { name: 0, list: true, items: One(Message { first: 2, node: Node { fields: [] } }) }] }",
    ),
    (
        "a:[]",
        "Node { fields: [Field { name: 0, list: true, items: Messages([]) }] }",
    ),
];

fn assert_trees(rt: &impl Abort, alloc: Global, rows: &[(&str, &str)]) -> Result<(), Fail> {
    for (text, wanted) in rows {
        assert_tree(rt, alloc, text, wanted)?;
    }
    Ok(())
}

#[test]
fn reads_trees(rt: HostRuntime) -> Result<(), Fail> {
    assert_trees(&rt, rt.alloc(), &TREES)
}
