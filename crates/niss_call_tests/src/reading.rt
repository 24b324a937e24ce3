//! Lines that are read: which bytes are one, and the fault of those that are none.
use niss_moves::{LineReader, ReadFault, read};
use std::process::Abort;

/// Checks what fault was found, if any, of so many bytes or of this byte.
fn check_found(rt: &impl Abort, at: usize, found: Option<ReadFault>, wanted: Option<ReadFault>) {
    assert_eq!(rt; found, wanted, "at {at}");
}

/// A byte that is fed after a fault, and the end of the line, have that fault too.
#[test]
fn a_reader_keeps_its_fault(rt: HostRuntime) {
    let unopened = ReadFault::Unopened { column: 2 };
    let mut reader = LineReader::new();
    check_found(&rt, 1, reader.feed(b'R').err(), None);
    check_found(&rt, 2, reader.feed(b')').err(), Some(unopened));
    check_found(&rt, 3, reader.feed(b'U').err(), Some(unopened));
    assert!(rt; reader.fed() == 3);
    check_found(&rt, 4, reader.finish().err(), Some(unopened));
}

const FAULTS: &[(&[u8], ReadFault)] = &[
    (b"R Q", ReadFault::NotAMove { column: 3 }),
    (b"R (U (", ReadFault::Nested { column: 6 }),
    (b"R)", ReadFault::Unopened { column: 2 }),
    (b"(R) (U", ReadFault::Unclosed { column: 5 }),
    (&[b'R'; 257], ReadFault::TooLong { column: 257 }),
];

#[test]
fn each_fault_has_its_column(rt: HostRuntime) {
    for (line, fault) in FAULTS {
        assert!(rt; line.len() <= 257);
        check_found(&rt, line.len(), read(line).err(), Some(*fault));
    }
}

/// The bytes that are a line by themselves: a face, a wide turn, a slice turn, a rotation, a blank.
const LINES: &[u8; 21] = b"UDRLFBudrlfbMESxyz \t\r";

/// The fault of a line of this byte alone, if it is no line: of 233 bytes it is that they are no move.
fn fault_of_byte(byte: u8) -> Option<ReadFault> {
    match byte {
        b'(' => Some(ReadFault::Unclosed { column: 1 }),
        b')' => Some(ReadFault::Unopened { column: 1 }),
        _ if LINES.contains(&byte) => None,
        _ => Some(ReadFault::NotAMove { column: 1 }),
    }
}

#[test]
fn single_bytes_are_read(rt: HostRuntime) {
    for byte in 0..=255u8 {
        let found = read(&[byte]).err();
        check_found(&rt, usize::from(byte), found, fault_of_byte(byte));
    }
}

/// The fault of so many first bytes of a line, in which a suffix of three bytes and a bracket are open.
fn fault_of_prefix(length: usize) -> Option<ReadFault> {
    match length {
        3 | 4 => Some(ReadFault::NotAMove { column: 3 }),
        7..=9 => Some(ReadFault::Unclosed { column: 7 }),
        _ => None,
    }
}

#[test]
fn each_beginning_of_a_line_is_read(rt: HostRuntime) {
    let line = b"R2\xe2\x80\x99 (Uw) x'";
    for length in 0..14usize {
        let found = read(&line[..length]).err();
        check_found(&rt, length, found, fault_of_prefix(length));
    }
}
