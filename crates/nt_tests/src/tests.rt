//! A module for each part of the format that has its tests here.
mod blocks;
mod checks;
mod fields;
mod heads;
mod meta;
mod object;
mod reads;
mod stacks;
mod writes;

use std::fmt::Debug;
use std::process::Abort;

// Ends the test where two values differ. It has no clause, so that the proof of a test carries this call and no printing.
fn same<T: PartialEq + Debug + Drop>(rt: &impl Abort, found: T, wanted: T) {
    assert_eq!(rt; found, wanted);
}

// The same for bytes that came of calls, which are to have made them.
fn same_bytes<E: Debug + Drop>(rt: &impl Abort, found: Result<Vec<u8>, E>, wanted: &[u8]) {
    match found {
        Ok(found) => same(rt, found.as_slice(), wanted),
        Err(error) => panic!(rt; "{error:?}"),
    }
}
