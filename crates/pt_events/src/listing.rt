//! The lines of one item after another.
ghost use Rattle.std.specs.Prelude.{◌≡◌, ℕ, [], ◌∷◌, ◌++◌, List, Err, IfErr, OnOk};
ghost use Rattle.ep_defs.specs.declared.item.ItemKind.{ItemKind};
ghost use Rattle.ep_defs.specs.declared.item.ItemKind.TheVariants as item;
ghost use Rattle.ep_defs.specs.Gaps.{Sighting, Seen};
ghost use Rattle.nt_blocks.specs.Ordered.{no_names, told_after};
ghost use Rattle.nt_blocks.specs.Placed.{event_of};
ghost use Rattle.nt_check.specs.declared.checker.CheckKind.{CheckKind};
ghost use Rattle.nt_check.specs.declared.checker.CheckFault.TheVariants.{Bad, OutOfMemory};
ghost use Rattle.nt_check.specs.Faults.{disorder_of};
ghost use Rattle.pt_events.specs.Lines.{lost_lines, known_by};
ghost use Rattle.pt_lines.specs.Forms.{AreLines};
ghost use Rattle.pt_lines.specs.Appends.{Appends};
ghost use Rattle.pt_events.specs.state.Known.{HasSeen};
ghost use Rattle.pt_events.specs.state.Listed.{HasListed, ListsEvent, ListsOne};

use crate::lasts::Lasts;
use crate::names::KnownNames;
use ep_defs::ItemKind;
use nt_check::CheckFault;
use nt_head::HeadState;
use pt_lines::{EventLine, Form, Origin, put_event, put_lost, put_point};
use std::alloc::{AllocError, Global};

/// What is kept of the items that were listed. It stands for the list of them.
#[derive(Drop)]
pub struct Listing {
    alloc: Global,
    names: KnownNames,
    lasts: Lasts,
    // What a Trace object said of the program.
    origin: Origin,
}

impl Listing {
    /// No items. It takes no memory.
    pub fn new(alloc: Global) -> Listing
        ensures { HasListed [] result }
    {
        Listing {
            alloc,
            names: KnownNames::new(alloc),
            lasts: Lasts::new(alloc),
            origin: Origin {
                address: 0,
                process: 0,
                frequency: 0,
            },
        }
    }

    /// Appends the lines of one more item. It is refused exactly where it can't stand after the items that were listed, and
    /// then nothing is appended.
    pub fn item(&mut self, form: Form, kind: &ItemKind, out: &mut Vec<u8>) -> Result<(), CheckFault>
        ensures listed { (kinds : List ItemKind) → HasListed kinds self.old
            → OnOk result (HasListed (kinds ++ kind.now ∷ []) self.new) }
        ensures lines { (kinds : List ItemKind) → HasListed kinds self.old
            → OnOk result (ListsOne form kinds kind.now out.old.items out.new.items) }
        ensures refused { (kinds : List ItemKind) → HasListed kinds self.old → (fault : CheckKind)
            → result ≡ Err (Bad fault) → told_after no_names (kinds ++ kind.now ∷ []) ≡ Err (disorder_of fault) }
        ensures unchanged { (fault : CheckKind) → result ≡ Err (Bad fault) → out.new.items ≡ out.old.items }
    {
        match kind {
            ItemKind::Trace { info } => {
                self.origin = Origin {
                    address: info.pointer_size,
                    process: info.process_id,
                    frequency: info.frequency,
                };
                Ok(())
            }
            ItemKind::Meta { id, def } => self.names.define(self.alloc, *id, def),
            ItemKind::Stack { id, bytes } => {
                let address = self.origin.address;
                self.names
                    .define_stack(self.alloc, form, address, *id, bytes)
            }
            ItemKind::Event {
                metadata,
                number,
                capture,
                processor,
                thread,
                stack,
                stamp,
                activity,
                related,
                payload,
            } => {
                let head = HeadState {
                    metadata: *metadata,
                    number: *number,
                    capture: *capture,
                    processor: *processor,
                    thread: *thread,
                    stack: *stack,
                    stamp: *stamp,
                    activity: *activity,
                    related: *related,
                    ..HeadState::zero()
                };
                self.event(form, &head, payload.as_slice(), out)
            }
            ItemKind::Point { stamp, threads } => self.point(form, *stamp, threads.as_slice(), out),
        }
    }

    /// The same of an event with this header.
    pub(crate) fn event(
        &mut self,
        form: Form,
        head: &HeadState,
        payload: &[u8],
        out: &mut Vec<u8>,
    ) -> Result<(), CheckFault>
        ensures listed { (kinds : List ItemKind) → HasListed kinds self.old
            → OnOk result (HasListed (kinds ++ event_of head.now payload.now ∷ []) self.new) }
        ensures lines { (kinds : List ItemKind) → HasListed kinds self.old
            → OnOk result (ListsOne form kinds (event_of head.now payload.now) out.old.items out.new.items) }
        ensures refused { (kinds : List ItemKind) → HasListed kinds self.old → (fault : CheckKind) → result ≡ Err (Bad fault)
            → told_after no_names (kinds ++ event_of head.now payload.now ∷ []) ≡ Err (disorder_of fault) }
        ensures unchanged { (fault : CheckKind) → result ≡ Err (Bad fault) → out.new.items ≡ out.old.items }
    {
        let (def, stack) = self.names.find(head.metadata, head.stack)?;
        let event = EventLine {
            origin: self.origin,
            processor: head.processor,
            thread_id: head.thread,
            stamp: head.stamp,
            thread: head.capture,
            number: head.number,
            def,
            activity: &head.activity,
            related: &head.related,
            stack,
            payload,
        };
        Ok(put_all(out, self.alloc, form, &mut self.lasts, &event)?)
    }

    // Appends the lines of a point.
    fn point(
        &mut self,
        form: Form,
        stamp: u64,
        threads: &[(u64, u32)],
        out: &mut Vec<u8>,
    ) -> Result<(), CheckFault>
        ensures listed { (kinds : List ItemKind) → HasListed kinds self.old
            → OnOk result (HasListed (kinds ++ item.Point stamp threads.now ∷ []) self.new) }
        ensures lines { (kinds : List ItemKind) → HasListed kinds self.old
            → OnOk result (ListsOne form kinds (item.Point stamp threads.now) out.old.items out.new.items) }
        ensures memory { IfErr result (λ fault. fault ≡ OutOfMemory) }
    {
        put_all_lost(out, form, self.origin, stamp, &mut self.lasts, threads)?;
        put_point(out, form, self.origin, stamp, threads)?;
        self.names.clear_stacks();
        Ok(())
    }
}

// Appends the line of an event, behind that of what is lost before it.
fn put_all(
    out: &mut Vec<u8>,
    alloc: Global,
    form: Form,
    lasts: &mut Lasts,
    event: &EventLine<'_>,
) -> Result<(), AllocError>
    ensures lines { (past : List (ℕ × Sighting)) → HasSeen past lasts.old
        → ListsEvent form past event.now result out.old.items out.new.items }
    ensures seen { (past : List (ℕ × Sighting)) → HasSeen past lasts.old
        → OnOk result (HasSeen (past ++ (event.now.thread, Seen event.now.number) ∷ []) lasts.new) }
{
    let lost = lasts.see(event.thread, event.number)?;
    put_lost(out, form, event.origin, event.stamp, event.thread, lost)?;
    put_event(out, alloc, form, event)
}

// Appends the lines of what is lost up to a point.
fn put_all_lost(
    out: &mut Vec<u8>,
    form: Form,
    origin: Origin,
    stamp: u64,
    lasts: &mut Lasts,
    threads: &[(u64, u32)],
) -> Result<(), AllocError>
    ensures lines { (past : List (ℕ × Sighting)) → HasSeen past lasts.old
        → OnOk result (Appends (AreLines form (lost_lines origin stamp past (known_by threads.now))) out.old.items out.new.items) }
    ensures seen { (past : List (ℕ × Sighting)) → HasSeen past lasts.old
        → OnOk result (HasSeen (past ++ known_by threads.now) lasts.new) }
{
    for (thread, number) in threads {
        let lost = lasts.know(*thread, *number)?;
        put_lost(out, form, origin, stamp, *thread, lost)?;
    }
    Ok(())
}
