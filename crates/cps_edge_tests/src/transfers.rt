//! Transfers over sources and sinks in memory, in pieces and with failures.
use cps_outer::{
    CleanSink, CleanSource, Gate, MemorySink, MemorySource, OpenGate, ReadError, WriteFault,
    read_all, write_all,
};
use std::alloc::{AllocError, Global};
use std::process::Abort;
use std::test::Fail;

/// The lengths of the pieces, the numbers of the calls that fail, the limit, and the answer to "abcdef".
static READS: [(&[usize], &[usize], usize, Result<&[u8], ReadError>); 7] = [
    (&[], &[], 6, Ok(b"abcdef")),
    (&[], &[], 5, Err(ReadError::TooLong)),
    (&[1, 2], &[], 6, Ok(b"abcdef")),
    (&[1, 2], &[0], 6, Err(ReadError::ReadFault)),
    (&[1, 2], &[2], 6, Err(ReadError::ReadFault)),
    (&[], &[1], 6, Err(ReadError::ReadFault)),
    (&[], &[1], 5, Err(ReadError::TooLong)),
];

/// How many bytes are taken at once, the numbers of the calls that fail, the answer to "abcdef" and what is held then.
static WRITES: [(usize, &[usize], (Result<(), WriteFault>, &[u8])); 5] = [
    (6, &[], (Ok(()), b"abcdef")),
    (4, &[], (Ok(()), b"abcdef")),
    (0, &[6], (Ok(()), b"abcdef")),
    (2, &[0], (Err(WriteFault), b"")),
    (2, &[1], (Err(WriteFault), b"ab")),
];

/// Whether bytes were read, or the cause was given, as expected.
pub fn is_answer(read: &Result<Vec<u8>, ReadError>, expected: &Result<&[u8], ReadError>) -> bool {
    match (read, expected) {
        (Ok(bytes), Ok(text)) => bytes.as_slice() == *text,
        (Err(error), Err(cause)) => error == cause,
        _ => false,
    }
}

/// A source of "abcdef" with these pieces and failing calls.
fn source_of(
    alloc: Global,
    pieces: &[usize],
    failing: &[usize],
) -> Result<MemorySource, AllocError> {
    Ok(MemorySource::new(
        Vec::from_slice(alloc, b"abcdef")?,
        Vec::from_slice(alloc, pieces)?,
        Vec::from_slice(alloc, failing)?,
    ))
}

/// Whether "abcdef", in these pieces and with these failing calls, is read as expected.
fn reads_as(
    alloc: Global,
    pieces: &[usize],
    failing: &[usize],
    limit: usize,
    expected: &Result<&[u8], ReadError>,
) -> Result<bool, AllocError> {
    let mut source = source_of(alloc, pieces, failing)?;
    let read = read_all(alloc, &mut source, limit.min(100));
    Ok(is_answer(&read, expected))
}

fn assert_reads(
    rt: &impl Abort,
    alloc: Global,
    rows: &[(&[usize], &[usize], usize, Result<&[u8], ReadError>)],
) -> Result<(), Fail> {
    for (pieces, failing, limit, expected) in rows {
        assert!(rt;
            reads_as(alloc, pieces, failing, *limit, expected)?,
            "{pieces:?} {failing:?} {limit}"
        );
    }
    Ok(())
}

#[test]
fn reads_to_the_end(rt: HostRuntime) -> Result<(), Fail> {
    assert_reads(&rt, rt.alloc(), &READS)
}

#[test]
fn reads_a_clean_source(rt: HostRuntime) -> Result<(), Fail> {
    let mut source = CleanSource::new(Vec::from_slice(rt.alloc(), b"abc")?);
    let read = read_all(rt.alloc(), &mut source, 3);
    assert!(rt; is_answer(&read, &Ok(b"abc".as_slice())));
    Ok(())
}

/// A sink that takes so many bytes at once, with these failing calls.
fn sink_of(alloc: Global, at_once: usize, failing: &[usize]) -> Result<MemorySink, AllocError> {
    let failing = Vec::from_slice(alloc, failing)?;
    Ok(MemorySink::new(alloc, at_once, failing))
}

/// Whether "abcdef" has this answer from a sink with these failing calls, which holds so much then.
fn writes_as(
    alloc: Global,
    at_once: usize,
    failing: &[usize],
    expected: &(Result<(), WriteFault>, &[u8]),
) -> Result<bool, AllocError> {
    let mut sink = sink_of(alloc, at_once, failing)?;
    let answer = write_all(&mut sink, b"abcdef");
    Ok(answer == expected.0 && sink.bytes() == expected.1)
}

fn assert_writes(
    rt: &impl Abort,
    alloc: Global,
    rows: &[(usize, &[usize], (Result<(), WriteFault>, &[u8]))],
) -> Result<(), Fail> {
    for (at_once, failing, expected) in rows {
        assert!(rt;
            writes_as(alloc, *at_once, failing, expected)?,
            "{at_once} {failing:?}"
        );
    }
    Ok(())
}

#[test]
fn writes_all(rt: HostRuntime) -> Result<(), Fail> {
    assert_writes(&rt, rt.alloc(), &WRITES)
}

#[test]
fn writes_to_a_clean_sink(rt: HostRuntime) {
    assert_eq!(rt; write_all(&mut CleanSink, b"abc"), Ok(()));
}

#[test]
fn an_open_gate_holds_nobody() {
    OpenGate.arrive(0);
}
