//! The writers' threads, and the stream beside them.
ghost use Rattle.std.specs.Prelude.{◌≡◌, vec_len};
ghost use Rattle.pt_writers.specs.state.Writers.{AreReady};

use crate::run::TraceRun;
use crate::streaming::Streaming;
use pt_io::{Clock, Gate, Sink};
use pt_writers::{Around, AtEnd, Writer, write_all};
use std::alloc::Global;
use std::sync::Wait;
use std::sync::atomic::{AtomicBool, Ordering};
use std::thread;
use std::thread::Threads;
use std::time::Clock as Timer;

/// Lets the writers make their writes while this thread streams what a session, which is open on all rows, gets of them.
/// Where no thread can be made for the writers they make their writes first.
pub(crate) fn run_both<
    'w,
    'g,
    P: TraceRun + Send + Sync,
    R: Threads + Wait + Timer + Sync,
    S: Sink + Drop,
    C: Clock,
    G: Gate,
>(
    alloc: Global,
    around: &Around<'_, P, R, C, G>,
    streaming: Streaming<'w, 'g, P, S>,
    writers: Vec<Writer<'w, 'g, P>>,
) -> (Streaming<'w, 'g, P, S>, AtEnd<'w, 'g, P>)
    requires { (vec_len writers ≡ P.rows) × AreReady P.plan 0 writers.items }
    ensures { result.0.stream ≡ streaming.entry.stream }
{
    let ended = AtomicBool::new(false);
    let (have_ended, flag) = (&ended, &ended);
    thread::scope(
        thread::scope_env(),
        around.rt,
        move |scope|
            requires { (vec_len writers ≡ P.rows) × AreReady P.plan 0 writers.items }
            ensures { result.0.stream ≡ streaming.entry.stream }
        {
            let work = move ||
                requires { (vec_len writers ≡ P.rows) × AreReady P.plan 0 writers.items }
            {
                let done = write_all(around, writers);
                have_ended.store(true, Ordering::SeqCst);
                done
            };
            match scope.spawn(work) {
                Ok(handle) => {
                    let streaming = streaming.run(alloc, around, flag);
                    (streaming, handle.join(around.rt))
                }
                Err(refused) => {
                    let done = (refused.value)();
                    (streaming.run(alloc, around, flag), done)
                }
            }
        },
    )
}
