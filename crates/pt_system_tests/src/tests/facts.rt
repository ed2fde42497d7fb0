//! What this process says of itself.
use pt_system::{facts_of, units_of};
use std::alloc::AllocError;

// The process's number, its cookie, whether it has a command line, and how its system begins.
type Told = (u64, [u8; 16], bool, [u16; 5]);

fn told(rt: HostRuntime) -> Result<Told, AllocError> {
    let said = facts_of(&rt, 7, 2)?;
    let mut system = [0; 5];
    for (place, unit) in system.iter_mut().zip(said.system.as_slice().iter()) {
        *place = *unit;
    }
    let has_line = !said.command_line.as_slice().is_empty();
    Ok((said.process_id, said.cookie, has_line, system))
}

#[test]
fn a_process_says_what_it_is_with_another_cookie_each_time(
    rt: HostRuntime,
) -> Result<(), AllocError> {
    let (process_id, cookie, has_line, system) = told(rt)?;
    let (_process_id, other, _has_line, _system) = told(rt)?;
    assert_eq!(rt;
        (process_id, has_line, system, cookie == other),
        (7, true, [76, 105, 110, 117, 120], false)
    );
    Ok(())
}

#[test]
fn a_long_text_is_cut(rt: HostRuntime) -> Result<(), AllocError> {
    let long = "a".repeat(rt.alloc(), 40)?;
    assert_eq!(rt; units_of(rt.alloc(), &long, 16)?.len(), 16);
    Ok(())
}
