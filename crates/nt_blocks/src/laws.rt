//! Laws: what holds of the definitions alone.
ghost use Rattle.std.specs.Prelude.{◌≡◌, ℕ, List, Ok};
ghost use Rattle.ep_defs.specs.declared.item.Item.{Item};
ghost use Rattle.ep_defs.specs.Entry.{Entry};
ghost use Rattle.ep_defs.specs.Ranges.{AreBytes};
ghost use Rattle.ep_defs.specs.Gaps.{gaps, last_of};
ghost use Rattle.nt_object.specs.declared.object.BlockKind.{BlockKind};
ghost use Rattle.nt_blocks.specs.Bodies.{IsBody};
ghost use Rattle.nt_blocks.specs.Ordered.{Tell};
ghost use Rattle.nt_blocks.specs.Refusals.{body_at};
ghost use Rattle.nt_blocks.specs.Seen.{item_gaps, last_item_number};

use nt_head::{
    what_is_put_is_taken as heads_are_taken, what_is_taken_is_a_form as heads_have_forms,
};
use nt_meta::{a_payload_is_read_back, what_is_read_is_a_payload};
use pt_num::what_is_put_is_taken as numbers_are_taken;

/// What is read in a body is what it holds.
pub fn what_a_body_holds_is_read()
    ensures { (kind : BlockKind) (at : ℕ) (items : List Item) (bytes : List ℕ) → IsBody kind at items bytes
        → body_at kind at bytes ≡ Ok items }
{
    numbers_are_taken();
    heads_are_taken();
    a_payload_is_read_back();
}

/// A body holds what is read in it.
pub fn what_is_read_is_held()
    ensures { (kind : BlockKind) (at : ℕ) (items : List Item) (bytes : List ℕ) → AreBytes bytes
        → body_at kind at bytes ≡ Ok items
        → IsBody kind at items bytes }
{
    heads_have_forms();
    what_is_read_is_a_payload();
}

/// In ordered items a thread's gaps and its last number are those of the entries that the items tell.
pub fn items_have_the_gaps_of_their_entries()
    ensures gaps { (thread : ℕ) (items : List Item) (entries : List Entry) → Tell items entries
        → item_gaps thread items ≡ gaps thread entries }
    ensures last { (thread : ℕ) (items : List Item) (entries : List Entry) → Tell items entries
        → last_item_number thread items ≡ last_of thread entries }
{}
