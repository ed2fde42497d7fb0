//! What the program says of itself.
ghost use Rattle.std.specs.Prelude.{IsTrue};
ghost use Rattle.ep_defs.specs.Session.{is_valid_facts};

use ep_defs::{Facts, Items, standard_info};
use std::alloc::Global;

/// What a program says of itself that has process id 7, and no texts.
pub fn facts_of(alloc: Global) -> Facts
    ensures { IsTrue (is_valid_facts result) }
{
    Facts {
        process_id: 7,
        cookie: [1; 16],
        command_line: Items::new(Vec::new(alloc)),
        system: Items::new(Vec::new(alloc)),
        arch: Items::new(Vec::new(alloc)),
        info: standard_info(1, 1),
    }
}
