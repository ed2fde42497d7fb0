//! What a run of a program begins with.
ghost use Rattle.std.specs.Prelude.{◌≡◌, ◌+◌, ◌*◌, ◌^◌, ◌<◌, ◌≤◌, ℕ, length, vec_len, slice_get, Some, IfOk, OnOk};
ghost use Rattle.ep_tie.specs.Tied.{Tied};
ghost use Rattle.ep_guarded.specs.declared.agreed.Agreed.{Agreed as AgreedValue};
ghost use Rattle.ep_guarded.specs.declared.agreed.Agreed.TheVariants as agreed;
ghost use Rattle.ep_guarded.specs.Tied.{buffer_number, buffer_place};
ghost use Rattle.ep_live.specs.Made.{AreStands, AreRowTies, AreHandTies, AreBuffers, AreRows};

use crate::limits::ROW_TIES;
use ep_defs::limits::SESSIONS;
use ep_guarded::{Agreed, Program, Stand, TiedBuffer, TiedRow};
use ep_tie::{Left, Maker, Right, Ties};
use std::alloc::{AllocError, Global};

/// The ties between rows and their threads, which have made no write: the rows' halves and the threads'.
pub(crate) fn make_stands<'a, P: Program>(
    alloc: Global,
    ties: &Ties<P, Agreed<'a>>,
    maker: &mut Maker<P, Agreed<'a>>,
    rows: u32,
) -> Result<(Vec<Left<P, Agreed<'a>>>, Vec<Right<P, Agreed<'a>>>), AllocError>
    requires first { maker.old.made ≡ 0 }
    requires room { rows ≤ maker.old.places }
    ensures count { IfOk result (λ halves. (vec_len halves.0 ≡ rows) × (vec_len halves.1 ≡ rows)) }
    ensures rows { IfOk result (λ halves. AreStands 0 halves.0.items) }
    ensures threads { IfOk result (λ halves. AreStands 0 halves.1.items) }
    ensures made { OnOk result (maker.new.made ≡ rows) }
    ensures places { maker.new.places ≡ maker.old.places }
{
    let mut lefts = Vec::new(alloc);
    let mut rights = Vec::new(alloc);
    for number in 0..rows {
        let stand = Agreed::Stand(Stand {
            thread: u64::from(number) + 1,
            index: 0,
        });
        let (left, right) = maker.next(ties, &stand);
        lefts.push(left)?;
        rights.push(right)?;
    }
    Ok((lefts, rights))
}

// A buffer in which nothing is open, with the other halves of its ties: its row's and its hand's.
fn make_buffer<'a, P: Program>(
    alloc: Global,
    ties: &Ties<P, Agreed<'a>>,
    maker: &mut Maker<P, Agreed<'a>>,
) -> Result<
    (
        Left<P, Agreed<'a>>,
        Box<TiedBuffer<'a, P>>,
        Right<P, Agreed<'a>>,
    ),
    AllocError,
>
    requires room { maker.old.made + 2 ≤ maker.old.places }
    ensures row { IfOk result (λ m. (m.0.place ≡ maker.old.made) × (m.0.value ≡ Some agreed.Nothing)) }
    ensures buffer { IfOk result (λ m. m.1.value.place ≡ maker.old.made) }
    ensures hand { IfOk result (λ m. (m.2.place ≡ maker.old.made + 1) × (m.2.value ≡ Some agreed.Nothing)) }
    ensures made { OnOk result (maker.new.made ≡ maker.old.made + 2) }
    ensures places { maker.new.places ≡ maker.old.places }
{
    let (left, row) = maker.next(ties, &Agreed::Nothing);
    let (hand, right) = maker.next(ties, &Agreed::Nothing);
    let buffer = Box::new(alloc, TiedBuffer::new(row, hand))?;
    Ok((left, buffer, right))
}

/// The buffers of the row with this number, behind those of the rows before it, and the halves of their hands behind
/// theirs. Gives the row's halves, by slot.
pub(crate) fn make_buffers<'a, P: Program>(
    alloc: Global,
    ties: &Ties<P, Agreed<'a>>,
    maker: &mut Maker<P, Agreed<'a>>,
    number: u32,
    buffers: &mut Vec<Box<TiedBuffer<'a, P>>>,
    hands: &mut Vec<Right<P, Agreed<'a>>>,
) -> Result<Vec<Left<P, Agreed<'a>>>, AllocError>
    requires made { maker.old.made ≡ buffer_place P.rows (buffer_number number 0) }
    requires room { maker.old.made + ROW_TIES ≤ maker.old.places }
    requires count { vec_len buffers.old ≡ buffer_number number 0 }
    requires hand_count { vec_len hands.old ≡ buffer_number number 0 }
    requires buffers { AreBuffers P.rows buffers.old.items }
    requires hands { AreHandTies P.rows hands.old.items }
    ensures lefts { IfOk result (λ lefts. (vec_len lefts ≡ SESSIONS) × AreRowTies P.rows number lefts.items) }
    ensures made { OnOk result (maker.new.made ≡ buffer_place P.rows (buffer_number (number + 1) 0)) }
    ensures places { maker.new.places ≡ maker.old.places }
    ensures count { OnOk result (vec_len buffers.new ≡ buffer_number (number + 1) 0) }
    ensures hand_count { OnOk result (vec_len hands.new ≡ buffer_number (number + 1) 0) }
    ensures buffers { OnOk result (AreBuffers P.rows buffers.new.items) }
    ensures hands { OnOk result (AreHandTies P.rows hands.new.items) }
{
    let mut lefts = Vec::new(alloc);
    for slot in 0..SESSIONS {
        let (left, buffer, hand) = make_buffer(alloc, ties, maker)?;
        lefts.push(left)?;
        buffers.push(buffer)?;
        hands.push(hand)?;
    }
    Ok(lefts)
}

/// The rows with these halves of the ties to their threads, their buffers, and the halves of the buffers' hands, by the
/// buffers' numbers.
pub(crate) fn make_rows<'a, P: Program>(
    alloc: Global,
    ties: &Ties<P, Agreed<'a>>,
    maker: &mut Maker<P, Agreed<'a>>,
    stands: Vec<Left<P, Agreed<'a>>>,
    events: u32,
) -> Result<
    (
        Vec<Box<TiedRow<'a, P>>>,
        Vec<Box<TiedBuffer<'a, P>>>,
        Vec<Right<P, Agreed<'a>>>,
    ),
    AllocError,
>
    requires made { maker.old.made ≡ P.rows }
    requires room { P.rows + ROW_TIES * P.rows ≤ maker.old.places }
    requires count { vec_len stands ≡ P.rows }
    requires few { P.rows < 2 ^ 32 }
    requires stands { AreStands 0 stands.items }
    requires events { events ≡ length P.events }
    ensures count { IfOk result (λ made. vec_len made.0 ≡ P.rows) }
    ensures buffer_count { IfOk result (λ made. vec_len made.1 ≡ P.rows * SESSIONS) }
    ensures hand_count { IfOk result (λ made. vec_len made.2 ≡ P.rows * SESSIONS) }
    ensures rows { IfOk result (λ made. AreRows made.0.items) }
    ensures buffers { IfOk result (λ made. AreBuffers P.rows made.1.items) }
    ensures hands { IfOk result (λ made. AreHandTies P.rows made.2.items) }
{
    let mut rows = Vec::new(alloc);
    let mut buffers = Vec::new(alloc);
    let mut hands = Vec::new(alloc);
    let mut number = 0;
    for stand in stands {
        let lefts = make_buffers(alloc, ties, maker, number, &mut buffers, &mut hands)?;
        let row = TiedRow::new(alloc, number, events, lefts, stand)?;
        rows.push(Box::new(alloc, row)?)?;
        number += 1;
    }
    Ok((rows, buffers, hands))
}
