//! What this process says of itself.
ghost use Rattle.std.specs.Prelude.{◌≤◌, length, IfOk, IsTrue, OnOk};
ghost use Rattle.ep_defs.specs.Session.{is_valid_facts};
ghost use Rattle.pt_system.specs.declared.facts.TheConstants.{LINE_UNITS, WORD_UNITS};

use ep_defs::limits::FACTS_UNITS;
use ep_defs::{Facts, Items, standard_info};
use std::alloc::{AllocError, Global};
use std::env;
use std::io::ErrorKind;
use std::random::RandomSource;
use std::rt::Env;
use uuid::Uuid;

/// The operating system, in the word of .NET's runtime.
const SYSTEM: &str = "Linux";

/// The processor's architecture, in the word of .NET's runtime.
const ARCHITECTURE: &str = "x64";

/// How many units such a word has at most.
const WORD_UNITS: usize = 16;

/// How many units of the command line are told: what both words leave.
const LINE_UNITS: usize = FACTS_UNITS - 2 * WORD_UNITS;

/// What the process with this number says of itself: its command line, cut where it is too long, and a cookie that tells
/// it from others, drawn at random, or zeros where the system draws none. It fails only where it is out of memory.
pub fn facts_of<R: Env + AllocGlobal + RandomSource>(
    rt: &R,
    process: u32,
    processors: u32,
) -> Result<Facts, AllocError>
    ensures { IfOk result (λ facts. IsTrue (is_valid_facts facts)) }
{
    let alloc = rt.alloc();
    let cookie = match Uuid::try_new_v4(rt) {
        Ok(cookie) => cookie.into_bytes(),
        Err(_) => [0; 16],
    };
    Ok(Facts {
        process_id: u64::from(process),
        cookie,
        command_line: Items::new(command_line(rt)?),
        system: Items::new(units_of(alloc, SYSTEM, WORD_UNITS)?),
        arch: Items::new(units_of(alloc, ARCHITECTURE, WORD_UNITS)?),
        info: standard_info(process, processors),
    })
}

// The words of the command line with the program's name, a blank between two. There are none where one is no UTF-8.
fn command_line<R: Env + AllocGlobal>(rt: &R) -> Result<Vec<u16>, AllocError>
    ensures { IfOk result (λ line. length line.items ≤ LINE_UNITS) }
{
    let mut line = Vec::new(rt.alloc());
    match env::args(rt) {
        Ok(all) => {
            for word in all {
                if !line.is_empty() {
                    put(&mut line, " ", LINE_UNITS)?;
                }
                put(&mut line, &word, LINE_UNITS)?;
            }
        }
        Err(error) if error.kind() == ErrorKind::OutOfMemory => return Err(AllocError),
        Err(_) => {}
    }
    Ok(line)
}

/// The text in UTF-16, cut at so many units. It fails only where it is out of memory.
pub fn units_of(alloc: Global, text: &str, most: usize) -> Result<Vec<u16>, AllocError>
    ensures { IfOk result (λ units. length units.items ≤ most) }
{
    let mut units = Vec::new(alloc);
    put(&mut units, text, most)?;
    Ok(units)
}

// Appends the text in UTF-16, as far as there is room for its units.
fn put(line: &mut Vec<u16>, text: &str, most: usize) -> Result<(), AllocError>
    requires { length line.old.items ≤ most }
    ensures { OnOk result (length line.new.items ≤ most) }
{
    for unit in text.encode_utf16() {
        if line.len() < most {
            line.push(unit)?;
        }
    }
    Ok(())
}
