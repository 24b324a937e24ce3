//! What tests compare.
use std::process::Abort;

/// Checks the bytes that a call wrote.
pub fn check_bytes(rt: &impl Abort, written: &[u8], wanted: &[u8]) {
    assert_eq!(rt; written, wanted);
}
