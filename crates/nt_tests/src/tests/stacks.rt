//! Ids of stacks, for who writes and who reads.
ghost use Rattle.std.specs.Prelude.{◌+◌, ◌<◌, ◌≤◌, length};

use crate::tests::same;
use nt_stacks::{Interner, StackTable};
use std::alloc::{AllocError, Global};

// The id of a stack, and whether it is new, if memory sufficed.
fn id_of(alloc: Global, interner: &mut Interner, stack: &[u8]) -> Option<(u32, bool)>
    requires { length interner.old < 10 }
    ensures { length interner.new ≤ length interner.old + 1 }
{
    match interner.id_of(alloc, stack) {
        Ok(interned) => Some((interned.id, interned.is_new)),
        Err(_) => None,
    }
}

// The ids of five stacks, the first and fourth of which are the same, and that of the third once all were forgotten.
fn ids(alloc: Global) -> [Option<(u32, bool)>; 6] {
    let mut interner = Interner::new(alloc);
    let first = id_of(alloc, &mut interner, b"ab");
    let empty = id_of(alloc, &mut interner, b"");
    let second = id_of(alloc, &mut interner, b"abc");
    let again = id_of(alloc, &mut interner, b"ab");
    let third = id_of(alloc, &mut interner, b"a");
    interner.clear();
    let new = id_of(alloc, &mut interner, b"abc");
    [first, empty, second, again, third, new]
}

#[test]
fn equal_stacks_have_one_id_up_to_a_clear(rt: HostRuntime) {
    let wanted = [
        (1, true),
        (0, false),
        (2, true),
        (1, false),
        (3, true),
        (1, true),
    ];
    same(&rt, ids(rt.alloc()), wanted.map(Some));
}

fn size_of(table: &StackTable, id: u32) -> Option<usize> {
    Some(table.find(id)?.len())
}

// Whether three definitions of the ids 7, 7 and the last one were taken, the sizes of 7, the last one and 8, and that of 7 once
// all were forgotten.
fn defined(alloc: Global) -> Result<([bool; 3], [Option<usize>; 4]), AllocError> {
    let mut table = StackTable::new(alloc);
    let first = table.define(alloc, 7, b"ab")?;
    let twice = table.define(alloc, 7, b"c")?;
    let last = table.define(alloc, u32::MAX, b"")?;
    let (seven, most, eight) = (
        size_of(&table, 7),
        size_of(&table, u32::MAX),
        size_of(&table, 8),
    );
    table.clear();
    Ok((
        [first, twice, last],
        [seven, most, eight, size_of(&table, 7)],
    ))
}

#[test]
fn an_id_is_defined_once_up_to_a_clear(rt: HostRuntime) {
    let wanted = ([true, false, true], [Some(2), Some(0), None, None]);
    same(&rt, defined(rt.alloc()), Ok(wanted));
}
