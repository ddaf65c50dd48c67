//! Reading to the end, and writing all.
ghost use Rattle.std.specs.Prelude.{◌≡◌, ◌+◌, ◌-◌, ◌^◌, ◌<◌, ◌≤◌, length, vec_len, IfOk, IfSome, IsErrOf};
ghost use Rattle.std.specs.Io.KnownBytes.{ReadConsumes};
ghost use Rattle.cps_outer.specs.Faults.{Rose, HasCause};
ghost use Rattle.cps_outer.specs.Transfers.{ReadsAll, WritesAll};

use crate::traits::{Failed, Sink, Source};
use std::alloc::Global;
use thiserror::Error;

/// How many bytes are asked for at once.
const PIECE: usize = 65_536;

/// Why the bytes of a source are not there.
#[derive(Debug, Drop, PartialEq, Eq, Error)]
pub enum ReadError {
    /// A read failed.
    #[error("a read failed")]
    ReadFault,
    /// One byte more than the limit was read.
    #[error("there are more bytes than the limit")]
    TooLong,
    /// There was no memory for the bytes.
    #[error("out of memory")]
    OutOfMemory,
}

/// A write failed.
#[derive(Debug, Drop, PartialEq, Eq, Error)]
#[error("a write failed")]
pub struct WriteFault;

/// Reads once, at most `most` bytes.
fn read_piece<S: Source>(source: &mut S, buf: &mut [u8], most: usize) -> Result<usize, Failed>
    requires most { 0 < most }
    requires room { 0 < length buf.old }
    ensures count { IfOk result (λ n. (n ≤ most) × (n ≤ length buf.new)) }
    ensures bytes { ReadConsumes (S.left source.old) (S.left source.new) result buf.new }
    ensures cause { HasCause (S.faults source.old) (S.faults source.new) result }
{
    if most < buf.len() {
        source.read(&mut buf[..most])
    } else {
        source.read(buf)
    }
}

/// Reads a source to its end, or to the byte after the limit. After an `Err` the source has lost the bytes that were
/// read.
pub fn read_all<S: Source>(
    alloc: Global,
    source: &mut S,
    limit: usize,
) -> Result<Vec<u8>, ReadError>
    requires { limit < usize.MAX }
    ensures bytes { IfSome (S.left source.old) (λ bytes. ReadsAll limit bytes (S.left source.new) result) }
    ensures short { IfOk result (λ read. vec_len read ≤ limit) }
    ensures later { S.faults source.old ≤ S.faults source.new }
    ensures fault { IsErrOf result ReadError.ReadFault → Rose (S.faults source.old) (S.faults source.new) }
    ensures kept { ¬ IsErrOf result ReadError.ReadFault → S.faults source.new ≡ S.faults source.old }
{
    let mut bytes = Vec::new(alloc);
    let mut buf = [0; PIECE];
    while bytes.len() <= limit {
        match read_piece(source, &mut buf, limit + 1 - bytes.len()) {
            Ok(0) => return Ok(bytes),
            Ok(count) => {
                if bytes.extend_from_slice(&buf[..count]).is_err() {
                    return Err(ReadError::OutOfMemory);
                }
            }
            Err(Failed) => return Err(ReadError::ReadFault),
        }
    }
    Err(ReadError::TooLong)
}

/// Writes all the bytes, and takes no memory. After an `Err` the sink holds a first part of them.
pub fn write_all<K: Sink>(sink: &mut K, bytes: &[u8]) -> Result<(), WriteFault>
    ensures bytes { WritesAll (K.held sink.old) (K.held sink.new) bytes.now result }
    ensures cause { HasCause (K.faults sink.old) (K.faults sink.new) result }
{
    let mut at = 0;
    while at < bytes.len() {
        match sink.write(&bytes[at..]) {
            Ok(count) => at += count,
            Err(Failed) => return Err(WriteFault),
        }
    }
    Ok(())
}
