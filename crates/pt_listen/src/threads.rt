//! The writers' threads, and the listener beside them.
ghost use Rattle.std.specs.Prelude.{◌≡◌, vec_len};
ghost use Rattle.pt_writers.specs.state.Writers.{AreReady};

use crate::hearing::Hearing;
use crate::run::WatchRun;
use ep_listen::Callback;
use pt_io::{Clock, Gate};
use pt_writers::{Around, AtEnd, Writer, write_all};
use std::alloc::Global;
use std::sync::Wait;
use std::sync::atomic::{AtomicBool, Ordering};
use std::thread;
use std::thread::Threads;
use std::time::Clock as Timer;

/// Lets the writers make their writes while this thread hands over what the session gets of them. Where no thread can be made
/// for the writers they make their writes first.
pub(crate) fn run_both<
    'r,
    'w,
    'g,
    P: WatchRun + Send + Sync,
    R: Threads + Wait + Timer + Sync,
    K: Callback + Drop,
    C: Clock,
    G: Gate,
>(
    alloc: Global,
    around: &Around<'_, P, R, C, G>,
    hearing: Hearing<'r, 'g, P, R, K>,
    writers: Vec<Writer<'w, 'g, P>>,
) -> (Hearing<'r, 'g, P, R, K>, AtEnd<'w, 'g, P>)
    requires { (vec_len writers ≡ P.rows) × AreReady P.plan 0 writers.items }
{
    let ended = AtomicBool::new(false);
    let (have_ended, flag) = (&ended, &ended);
    thread::scope(
        thread::scope_env(),
        around.rt,
        move |scope|
            requires { (vec_len writers ≡ P.rows) × AreReady P.plan 0 writers.items }
        {
            let work = move ||
                requires { (vec_len writers ≡ P.rows) × AreReady P.plan 0 writers.items }
            {
                let done = write_all(around, writers);
                have_ended.store(true, Ordering::SeqCst);
                done
            };
            match scope.spawn(work) {
                Ok(handle) => {
                    let hearing = hearing.run(alloc, around, flag);
                    (hearing, handle.join(around.rt))
                }
                Err(refused) => {
                    let done = (refused.value)();
                    (hearing.run(alloc, around, flag), done)
                }
            }
        },
    )
}
