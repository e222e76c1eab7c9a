//! Names that are found in their tables, and names that aren't there.

use crate::{Table, functions, main_flags, separators, verbs};
use std::alloc::AllocError;

/// The first row whose name isn't found there.
fn first_lost<const N: usize>(table: &Table<N>) -> Option<usize> {
    for row in 0..table.len() {
        if table.find(table.name(row)) != Some(row) {
            return Some(row);
        }
    }
    None
}

/// Names of no table.
const MISSING: [&[u8]; 8] = [b"", b"\0", b"-", b"ca", b"catt", b"Cat", b"zz", b"\xff"];

/// The first of these names that is found.
fn first_found<const N: usize>(table: &Table<N>) -> Option<usize> {
    for (i, name) in MISSING.iter().enumerate() {
        if table.find(*name).is_some() {
            return Some(i);
        }
    }
    None
}

#[test]
fn names_are_found_at_their_rows(rt: HostRuntime) -> Result<(), AllocError> {
    assert_eq!(rt; first_lost(&verbs()), None);
    assert_eq!(rt; first_lost(&functions()), None);
    assert_eq!(rt; first_lost(&separators()), None);
    assert_eq!(rt; first_lost(&main_flags()), None);
    assert_eq!(rt; first_found(&verbs()), None);
    assert_eq!(rt; first_found(&main_flags()), None);
    assert_eq!(rt; verbs().find(b"altkv"), Some(0));
    assert_eq!(rt; verbs().find(b"cat"), Some(1));
    assert_eq!(rt; verbs().find(b"unsparsify"), Some(52));
    assert_eq!(rt; separators().find(b"tab"), Some(7));
    Ok(())
}
