//! The functions that C calls: include/tracepipe.h says them in C.
ghost use Rattle.std.specs.Prelude.{◌≡◌, ◌≢◌, ℕ, ◌++◌, ◌⊎◌, List, [], ◌∷◌, length, take, drop, min, true, false, Some, None};
ghost use Rattle.ep_defs.specs.declared.session.TraceInfo.{TraceInfo};
ghost use Rattle.ep_defs.specs.Entry.{Entry, Event, Point};
ghost use Rattle.ep_defs.specs.Event.{is_same_event};
ghost use Rattle.nt_write.specs.Canonical.{IsCanonical};
ghost use Rattle.nt_write.specs.Layout.{id_in, with_member};
ghost use Rattle.nt_write.specs.Writer.{point_of};
ghost use Rattle.tp_c.specs.declared.codes.TheConstants.{OK, NOT_LIVE, LIVE, MORE, OUT_OF_MEMORY, CUT};
ghost use Rattle.tp_c.specs.declared.refusal.Refusal.{Refusal};
ghost use Rattle.tp_c.specs.Codes.{code_of};
ghost use Rattle.tp_c.specs.Shapes.{info_of, definition_of};
ghost use Rattle.tp_c.specs.Recording.{HasTaken, HasCut, definitions_of, threads_of, outgoing_of, call_refused, define_refused, event_refused};
ghost use Rattle.tp_c.specs.Answering.{recorder_in, answer_of, IsSame, Records, WasCut, HasPulled, Begins};

use crate::codes::{CUT, LIVE, MORE, NOT_LIVE, OK, OUT_OF_MEMORY};
use crate::handle::Handle;
use crate::recorder::Recorder;
use crate::refusal::Refusal;
use crate::shapes::{Definition, EventHead, Field, Info};
use std::alloc::Global;

/// Begins a stream: the handle is live after it.
#[unsafe(no_mangle)]
pub extern "C" fn tp_c_begin(alloc: Global, handle: &mut Handle, info: &Info) -> u32
    ensures live { handle.old.live ≡ true → (result ≡ LIVE) × (handle.new ≡ handle.old) }
    ensures other { handle.old.live ≡ false → (result ≡ OK) ⊎ (result ≡ OUT_OF_MEMORY) }
    ensures ok { result ≡ OK → Records (info_of info.now) [] [] handle.new }
    ensures definitions { result ≡ OK → definitions_of (recorder_in handle.new) ≡ [] }
    ensures memory { result ≡ OUT_OF_MEMORY → handle.new ≡ handle.old }
{
    if handle.live {
        return LIVE;
    }
    let Ok(recorder) = Recorder::begin(alloc, &info.as_trace_info()) else {
        return OUT_OF_MEMORY;
    };
    let Ok(recorder) = Box::new(alloc, recorder) else {
        return OUT_OF_MEMORY;
    };
    handle.shut(recorder);
    OK
}

/// Gives a definition its number. The same definition has the same number.
#[unsafe(no_mangle)]
pub extern "C" fn tp_c_define(
    alloc: Global,
    handle: &mut Handle,
    definition: &Definition,
    provider: &[u16],
    name: &[u16],
    fields: &[Field],
    names: &[u16],
    number: &mut u32,
) -> u32
    ensures not_live { handle.old.live ≡ false → (result ≡ NOT_LIVE) × (handle.new ≡ handle.old) }
    ensures refused { handle.old.live ≡ true → result ≢ OK → (result ≡ OUT_OF_MEMORY) ⊎ ((refusal : Refusal)
        × (define_refused (recorder_in handle.old) definition.now provider.now name.now fields.now names.now ≡ Some refusal)
        × (result ≡ code_of refusal)) }
    ensures accepted { result ≡ OK
        → define_refused (recorder_in handle.old) definition.now provider.now name.now fields.now names.now ≡ None }
    ensures number { result ≡ OK
        → number.new ≡ id_in is_same_event (definition_of definition.now provider.now name.now fields.now names.now) (definitions_of (recorder_in handle.new)) }
    ensures defined { result ≡ OK → definitions_of (recorder_in handle.new)
        ≡ with_member is_same_event (definitions_of (recorder_in handle.old)) (definition_of definition.now provider.now name.now fields.now names.now) }
    ensures goes_on { (info : TraceInfo) (entries : List Entry) (pulled : List ℕ)
        → Records info entries pulled handle.old → result ≡ OK → Records info entries pulled handle.new }
    ensures same { result ≢ OK → IsSame handle.old handle.new × (number.new ≡ number.old) }
{
    if !handle.live {
        return NOT_LIVE;
    }
    let mut recorder = handle.open(alloc);
    let result = recorder.define(alloc, definition, provider, name, fields, names);
    handle.shut(recorder);
    match result {
        Ok(given) => {
            *number = given;
            OK
        }
        Err(refusal) => refusal.code(),
    }
}

/// Writes one event, with the next number of its thread.
#[unsafe(no_mangle)]
pub extern "C" fn tp_c_event(
    alloc: Global,
    handle: &mut Handle,
    event: &EventHead,
    frames: &[u8],
    payload: &[u8],
) -> u32
    ensures not_live { handle.old.live ≡ false → (result ≡ NOT_LIVE) × (handle.new ≡ handle.old) }
    ensures refused { (refusal : Refusal) → handle.old.live ≡ true
        → event_refused (recorder_in handle.old) event.now frames.now payload.now ≡ Some refusal
        → (result ≡ code_of refusal) × IsSame handle.old handle.new }
    ensures other { handle.old.live ≡ true
        → event_refused (recorder_in handle.old) event.now frames.now payload.now ≡ None
        → (result ≡ OK) ⊎ (result ≡ OUT_OF_MEMORY) ⊎ (result ≡ CUT) }
    ensures ok { (info : TraceInfo) (entries : List Entry) (pulled : List ℕ)
        → Records info entries pulled handle.old → result ≡ OK
        → HasTaken info entries pulled (recorder_in handle.old) event.now frames.now payload.now (recorder_in handle.new) }
    ensures cut { (info : TraceInfo) (entries : List Entry) (pulled : List ℕ)
        → Records info entries pulled handle.old → result ≡ CUT
        → HasCut info entries pulled (recorder_in handle.old) event.now frames.now payload.now (recorder_in handle.new) }
    ensures memory { result ≡ OUT_OF_MEMORY → IsSame handle.old handle.new }
    ensures live { handle.new.live ≡ handle.old.live }
    ensures definitions { definitions_of (recorder_in handle.new) ≡ definitions_of (recorder_in handle.old) }
{
    if !handle.live {
        return NOT_LIVE;
    }
    let mut recorder = handle.open(alloc);
    let result = recorder.event(alloc, event, frames, payload);
    handle.shut(recorder);
    answer(result)
}

/// Writes how far each thread has come, and forgets the stacks.
#[unsafe(no_mangle)]
pub extern "C" fn tp_c_point(alloc: Global, handle: &mut Handle, stamp: u64) -> u32
    ensures not_live { handle.old.live ≡ false → (result ≡ NOT_LIVE) × (handle.new ≡ handle.old) }
    ensures refused { (refusal : Refusal) → handle.old.live ≡ true
        → call_refused (recorder_in handle.old) ≡ Some refusal
        → (result ≡ code_of refusal) × IsSame handle.old handle.new }
    ensures other { handle.old.live ≡ true → call_refused (recorder_in handle.old) ≡ None
        → (result ≡ OK) ⊎ (result ≡ OUT_OF_MEMORY) ⊎ (result ≡ CUT) }
    ensures ok { (info : TraceInfo) (entries : List Entry) (pulled : List ℕ)
        → Records info entries pulled handle.old → result ≡ OK
        → Records info (entries ++ Point (point_of stamp (threads_of (recorder_in handle.old))) ∷ []) pulled handle.new }
    ensures cut { (info : TraceInfo) (entries : List Entry) (pulled : List ℕ)
        → Records info entries pulled handle.old → result ≡ CUT
        → WasCut info (entries ++ Point (point_of stamp (threads_of (recorder_in handle.old))) ∷ []) pulled handle.new }
    ensures memory { result ≡ OUT_OF_MEMORY → IsSame handle.old handle.new }
    ensures definitions { definitions_of (recorder_in handle.new) ≡ definitions_of (recorder_in handle.old) }
{
    if !handle.live {
        return NOT_LIVE;
    }
    let mut recorder = handle.open(alloc);
    let result = recorder.point(alloc, stamp);
    handle.shut(recorder);
    answer(result)
}

/// Moves the next bytes of the stream to the front of `out`: as many as there are, and as fit.
#[unsafe(no_mangle)]
pub extern "C" fn tp_c_pull(
    alloc: Global,
    handle: &mut Handle,
    out: &mut [u8],
    count: &mut usize,
) -> u32
    ensures not_live { handle.old.live ≡ false
        → (result ≡ NOT_LIVE) × (handle.new ≡ handle.old) × (count.new ≡ count.old) × (out.new ≡ out.old) }
    ensures live { handle.old.live ≡ true → (result ≡ OK) × (handle.new.live ≡ true) }
    ensures count { result ≡ OK
        → count.new ≡ min (length out.old) (length (outgoing_of (recorder_in handle.old)).left) }
    ensures front { result ≡ OK
        → take count.new out.new ≡ take count.new (outgoing_of (recorder_in handle.old)).left }
    ensures rest { result ≡ OK → drop count.new out.new ≡ drop count.new out.old }
    ensures goes_on { (info : TraceInfo) (entries : List Entry) (pulled : List ℕ)
        → Records info entries pulled handle.old
        → Records info entries (pulled ++ take count.new out.new) handle.new }
    ensures begins { (info : TraceInfo) (entries : List Entry) (pulled : List ℕ)
        → Records info entries pulled handle.old
        → Begins info entries (pulled ++ take count.new out.new) }
    ensures cut { (info : TraceInfo) (entries : List Entry) (pulled : List ℕ)
        → WasCut info entries pulled handle.old
        → WasCut info entries (pulled ++ take count.new out.new) handle.new }
    ensures definitions { definitions_of (recorder_in handle.new) ≡ definitions_of (recorder_in handle.old) }
{
    if !handle.live {
        return NOT_LIVE;
    }
    let mut recorder = handle.open(alloc);
    *count = recorder.pull(alloc, out);
    handle.shut(recorder);
    OK
}

/// Ends the stream and moves its next bytes to the front of `out`. It answers `MORE` until the last of them, and then
/// `OK`, or `CUT` where the stream is not whole; the handle is not live then.
#[unsafe(no_mangle)]
pub extern "C" fn tp_c_end(
    alloc: Global,
    handle: &mut Handle,
    out: &mut [u8],
    count: &mut usize,
) -> u32
    ensures not_live { handle.old.live ≡ false
        → (result ≡ NOT_LIVE) × (handle.new ≡ handle.old) × (count.new ≡ count.old) × (out.new ≡ out.old) }
    ensures other { handle.old.live ≡ true → (result ≡ OK) ⊎ (result ≡ MORE) ⊎ (result ≡ CUT) }
    ensures more { result ≡ MORE → (handle.new.live ≡ true) × (count.new ≡ length out.old) }
    ensures done { (result ≡ OK) ⊎ (result ≡ CUT) → handle.new.live ≡ false }
    ensures whole { (info : TraceInfo) (entries : List Entry) (pulled : List ℕ)
        → Records info entries pulled handle.old → result ≡ OK
        → IsCanonical info entries (pulled ++ take count.new out.new) }
    ensures broken { (info : TraceInfo) (entries : List Entry) (pulled : List ℕ)
        → HasPulled info entries pulled handle.old → result ≡ CUT
        → Begins info entries (pulled ++ take count.new out.new) }
    ensures goes_on { (info : TraceInfo) (entries : List Entry) (pulled : List ℕ)
        → Records info entries pulled handle.old → result ≡ MORE
        → HasPulled info entries (pulled ++ take count.new out.new) handle.new }
    ensures cut { (info : TraceInfo) (entries : List Entry) (pulled : List ℕ)
        → WasCut info entries pulled handle.old → (result ≢ OK) × (result ≡ MORE
        → WasCut info entries (pulled ++ take count.new out.new) handle.new) }
{
    if !handle.live {
        return NOT_LIVE;
    }
    let mut recorder = handle.open(alloc);
    recorder.end(alloc);
    *count = recorder.pull(alloc, out);
    if !recorder.is_done() {
        handle.shut(recorder);
        return MORE;
    }
    if recorder.is_cut() { CUT } else { OK }
}

// The code of an answer.
fn answer(taken: Result<(), Refusal>) -> u32
    ensures { result ≡ answer_of taken }
{
    match taken {
        Ok(()) => OK,
        Err(refusal) => refusal.code(),
    }
}
