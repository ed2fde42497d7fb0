//! Where a record goes.
ghost use Rattle.std.specs.Prelude.{◌≡◌, ◌+◌, ◌^◌, ◌<◌, ◌≤◌, ◌++◌, [], ◌∷◌, false, length, not, All, IsTrue, ◌↔◌, if◌then◌else◌};
ghost use Rattle.ep_chunk.specs.Record.{record_of, size_of};
ghost use Rattle.ep_model.specs.Budget.{needs_chunk, pending_with};
ghost use Rattle.ep_slot.specs.Chain.{records_of, pending_of, with_last, HasRecords};
ghost use Rattle.ep_slot.specs.Asked.{IsAsked};

use ep_chunk::{CHUNK_LEN, Chain, RecIn};
use ep_pool::Purse;

// Appends a record to the last chunk, where it has the room.
fn append_last(chain: &mut Chain, rec: &RecIn) -> bool
    ensures room { result ≡ not (needs_chunk (pending_of chain.old) (size_of (record_of rec.now))) }
    ensures kept { chain.new ≡ (if result then with_last chain.old (record_of rec.now) else chain.old) }
{
    match chain.last_mut() {
        Some(chunk) => chunk.append(rec),
        None => false,
    }
}

// Begins the chunk of a chain of one empty chunk.
fn begin(mut one: Chain, rec: &RecIn) -> Chain
    requires empty { one ≡ [] ∷ [] }
    requires fits { size_of (record_of rec.now) ≤ CHUNK_LEN }
    ensures { result ≡ (record_of rec.now ∷ []) ∷ [] }
{
    if let Some(chunk) = one.last_mut() {
        chunk.append(rec);
    }
    one
}

// Keeps a record in the last chunk, or in one more.
pub(crate) fn keep<P: Purse>(chain: &mut Chain, pool: &mut P, rec: &RecIn) -> bool
    requires few { length chain.old + 1 < 2 ^ 32 }
    requires fits { size_of (record_of rec.now) ≤ CHUNK_LEN }
    requires can_take { P.can_take pool.old }
    ensures records { records_of chain.new
        ≡ (if result then records_of chain.old ++ record_of rec.now ∷ [] else records_of chain.old) }
    ensures pending { pending_of chain.new
        ≡ (if result then pending_with (pending_of chain.old) (size_of (record_of rec.now)) else pending_of chain.old) }
    ensures filled { All HasRecords chain.old → All HasRecords chain.new }
    ensures needs { result ≡ false
        → IsTrue (needs_chunk (pending_of chain.old) (size_of (record_of rec.now))) }
    ensures purse { IsAsked P.got P.dry (needs_chunk (pending_of chain.old) (size_of (record_of rec.now))) (not result) pool.old pool.new }
{
    if append_last(chain, rec) {
        return true;
    }
    match pool.take() {
        Some(one) => {
            chain.join(begin(one, rec));
            true
        }
        None => false,
    }
}
