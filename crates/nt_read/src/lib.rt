//! The readers of a NetTrace stream: bytes in any pieces, and one verdict on them.
//!
//! `object_reader` takes pieces and tells object by object what stands for its items; `reader` is the one on top of it that
//! hands out the items themselves. What is kept of them is a trait's, `telling`: the items, of an event what it names (`told`),
//! or the events in the bytes of their body (`lent`). `stage` says which unit of the stream is the next one, `judge` judges a unit
//! that is whole, `fault` has what is refused, and `limits` the sizes of units. It stands on nt_blocks, for bodies and for the
//! definition of the verdict, on nt_names, for the events of a block by what they name, and on nt_object, for the kinds of
//! objects. What a reader has read, and what it answers, is `specs/Objects`, with `specs/Telling`, `specs/Names` and
//! `specs/Lent` for what is told, and `specs/Reading` for the reader of items; the verdict from any unit on is
//! `specs/Stages`.
//!
//! Its one contract: however a stream was cut, the items and the answers are those of the verdict on all its bytes.
//!
//! What was chosen here, and why: docs/DECISIONS.md, "The format".
#![tactic(auto)]

mod fault;
mod judge;
mod lent;
pub mod limits;
mod object_reader;
mod reader;
mod stage;
mod telling;
mod told;

pub use fault::{ReadFault, ReadKind};
pub use lent::Lent;
pub use object_reader::ObjectReader;
pub use reader::TraceReader;
pub use telling::Telling;
pub use told::Told;

/// The reader for whom an event's names are enough.
pub type NamesReader = ObjectReader<Told>;

/// The reader that makes no items of events, whose payloads stand in the body of their block.
pub type LentReader = ObjectReader<Lent>;
