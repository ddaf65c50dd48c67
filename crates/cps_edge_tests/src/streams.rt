//! Readers and writers of std that fail in mid-stream: the answer is a fault, and never what came before it.
use crate::transfers::is_answer;
use cps_outer::{ReadError, ReaderSource, WriteFault, WriterSink, read_all, write_all};
use std::alloc::Global;
use std::io::{self, ErrorKind, Read, Write};
use std::process::Abort;
use std::test::Fail;

/// Gives two bytes at a time. The call `failing`, from 0 on, fails, and the next one goes on as if nothing had been.
#[derive(Drop)]
struct Stumbling {
    left: &'static [u8],
    failing: Option<u32>,
    calls: u32,
}

impl Read for Stumbling {
    fn read(&mut self, buf: &mut [u8]) -> io::Result<usize> {
        let call = self.calls;
        self.calls = self.calls.saturating_add(1);
        if self.failing == Some(call) {
            return Err(ErrorKind::Other.into());
        }
        let count = self.left.len().min(buf.len()).min(2);
        buf[..count].copy_from_slice(&self.left[..count]);
        self.left = &self.left[count..];
        Ok(count)
    }
}

/// The call that fails, and what comes of "abcdef".
static READS: [(Option<u32>, Result<&[u8], ReadError>); 5] = [
    (None, Ok(b"abcdef")),
    (Some(0), Err(ReadError::ReadFault)),
    (Some(1), Err(ReadError::ReadFault)),
    (Some(3), Err(ReadError::ReadFault)),
    (Some(4), Ok(b"abcdef")),
];

/// What is read of "abcdef" where this call fails.
fn read_of(alloc: Global, failing: Option<u32>) -> Result<Vec<u8>, ReadError> {
    let mut source = ReaderSource::new(Stumbling {
        left: b"abcdef",
        failing,
        calls: 0,
    });
    read_all(alloc, &mut source, 6)
}

fn assert_reads(rt: &impl Abort, alloc: Global, rows: &[(Option<u32>, Result<&[u8], ReadError>)]) {
    for (failing, expected) in rows {
        let read = read_of(alloc, *failing);
        assert!(rt; is_answer(&read, expected), "{failing:?}");
    }
}

#[test]
fn a_failed_read_is_not_the_end(rt: HostRuntime) {
    assert_reads(&rt, rt.alloc(), &READS)
}

/// Takes two bytes at a time. The call `failing`, from 0 on, fails, and the call `idle` takes nothing.
#[derive(Drop)]
struct Choosy {
    taken: Vec<u8>,
    failing: Option<u32>,
    idle: Option<u32>,
    calls: u32,
}

impl Write for Choosy {
    fn write(&mut self, buf: &[u8]) -> io::Result<usize> {
        let call = self.calls;
        self.calls = self.calls.saturating_add(1);
        if self.failing == Some(call) {
            return Err(ErrorKind::Other.into());
        }
        if self.idle == Some(call) {
            return Ok(0);
        }
        let count = buf.len().min(2);
        self.taken.extend_from_slice(&buf[..count])?;
        Ok(count)
    }

    fn flush(&mut self) -> io::Result<()> {
        Ok(())
    }
}

/// The call that fails and the one that takes nothing, the answer to "abcdef", and what was taken of it.
static WRITES: [(Option<u32>, Option<u32>, (Result<(), WriteFault>, &[u8])); 5] = [
    (None, None, (Ok(()), b"abcdef")),
    (Some(0), None, (Err(WriteFault), b"")),
    (Some(1), None, (Err(WriteFault), b"ab")),
    (None, Some(2), (Err(WriteFault), b"abcd")),
    (Some(3), Some(4), (Ok(()), b"abcdef")),
];

/// Whether this is answered to "abcdef" and so much is taken of it, where one call fails and one takes nothing.
fn is_written(
    alloc: Global,
    failing: Option<u32>,
    idle: Option<u32>,
    expected: &(Result<(), WriteFault>, &[u8]),
) -> bool {
    let mut writer = Choosy {
        taken: Vec::new(alloc),
        failing,
        idle,
        calls: 0,
    };
    let answer = write_all(&mut WriterSink::new(&mut writer), b"abcdef");
    answer == expected.0 && writer.taken.as_slice() == expected.1
}

fn assert_writes(
    rt: &impl Abort,
    alloc: Global,
    rows: &[(Option<u32>, Option<u32>, (Result<(), WriteFault>, &[u8]))],
) {
    for (failing, idle, expected) in rows {
        assert!(rt;
            is_written(alloc, *failing, *idle, expected),
            "{failing:?} {idle:?}"
        );
    }
}

#[test]
fn a_write_that_takes_nothing_has_failed(rt: HostRuntime) {
    assert_writes(&rt, rt.alloc(), &WRITES)
}

/// The bytes that reading these of memory gives.
fn read_back(alloc: Global, bytes: &[u8]) -> Result<Vec<u8>, ReadError> {
    let mut source = ReaderSource::new(bytes);
    read_all(alloc, &mut source, 6)
}

#[test]
fn bytes_in_memory_go_through_std(rt: HostRuntime) -> Result<(), Fail> {
    let read = read_back(rt.alloc(), b"abcdef")?;
    let mut written = Vec::new(rt.alloc());
    write_all(&mut WriterSink::new(&mut written), &read)?;
    assert!(rt; written.as_slice() == b"abcdef".as_slice());
    Ok(())
}
