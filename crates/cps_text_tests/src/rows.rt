//! What a row of a table comes to. A comparison that shows both sides where they differ is costly to prove, so it stands
//! here once.
use std::process::Abort;

/// Asserts that a row comes to this text.
pub fn assert_text(rt: &impl Abort, row: &str, found: &str, wanted: &str) {
    assert_eq!(rt; found, wanted, "{row}");
}

/// Asserts that a row is as it is to be.
pub fn assert_so(rt: &impl Abort, row: &str, is_so: bool) {
    assert!(rt; is_so, "{row}");
}
