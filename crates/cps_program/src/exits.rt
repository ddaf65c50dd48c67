//! The exit statuses of the program.

/// The command did its work.
pub const DONE: u8 = 0;

/// The input is no valid model.
pub const BAD_INPUT: u8 = 1;

/// The words are no command line.
pub const BAD_WORDS: u8 = 2;

/// A read failed.
pub const READ_FAILED: u8 = 3;

/// A write failed.
pub const WRITE_FAILED: u8 = 4;

/// Memory ran out.
pub const OUT_OF_MEMORY: u8 = 5;

/// The response is not verified.
pub const NOT_VERIFIED: u8 = 6;
