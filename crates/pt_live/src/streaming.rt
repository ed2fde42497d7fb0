//! What the calling thread does while the others write.
ghost use Rattle.std.specs.Prelude.{◌≡◌, ℕ, ◌≤◌, Some};
ghost use Rattle.std.specs.List.{AllByRecursion};
ghost use Rattle.pt_stream.specs.State.{EndsAt};
ghost use Rattle.pt_live.specs.state.Open.{IsOpenOn};
ghost use Rattle.pt_live.specs.state.Run.{setting_of};

use crate::run::TraceRun;
use ep_live::Live;
use pt_io::{Clock, Gate, Moment, Sink};
use pt_load::laws::sample_events_are_valid;
use pt_stream::Stream;
use pt_writers::Around;
use std::alloc::Global;
use std::sync::Wait;
use std::sync::atomic::{AtomicBool, Ordering};
use std::thread;
use std::time::{Clock as Timer, Duration};

/// The id of the run's one session.
pub(crate) const SESSION: u64 = 1;

/// How long the stream rests after a sweep that took nothing, in milliseconds.
const REST: u64 = 1;

/// The stream of a run's one session, with the rows that it is of.
#[derive(Drop)]
pub(crate) struct Streaming<'w, 'g, P: TraceRun, S: Sink> {
    pub(crate) live: &'w Live<'g, P>,
    pub(crate) stream: Stream<'g, P, S>,
    ghost setting_is: { P.setting ≡ setting_of P.run },
}

impl<'w, 'g, P: TraceRun, S: Sink> Streaming<'w, 'g, P, S> {
    /// Opens the session on each row, the first one first, until there is no memory for one more. Answers on how many
    /// rows it is open.
    pub(crate) fn open_all<R: Wait, C: Clock, G: Gate>(
        self,
        alloc: Global,
        around: &Around<'_, P, R, C, G>,
    ) -> (Streaming<'w, 'g, P, S>, u32)
        requires is_open { IsOpenOn P.run P.rows 0 0 self.stream }
        requires stands { self.stream.stands ≡ Some 0 }
        ensures within { result.1 ≤ P.rows }
        ensures is_open { IsOpenOn P.run P.rows 0 result.1 result.0.stream }
        ensures stands { result.0.stream.stands ≡ Some 0 }
        ensures marks { result.0.stream.marks ≡ self.entry.stream.marks }
    {
        let Streaming { live, stream } = self;
        let mut stream = stream;
        for place in 0..around.plan.threads {
            let (next, opened) = stream.open_row(alloc, around.rt, live, place + 1, 0);
            stream = next;
            if opened.is_err() {
                return (Streaming { live, stream }, place);
            }
        }
        (Streaming { live, stream }, around.plan.threads)
    }

    /// Takes what the threads write, again and again, until they have ended or the session has failed.
    pub(crate) fn run<R: Wait + Timer, C: Clock, G: Gate>(
        self,
        alloc: Global,
        around: &Around<'_, P, R, C, G>,
        ended: &AtomicBool,
    ) -> Streaming<'w, 'g, P, S>
        ensures { result.stream ≡ self.entry.stream }
    {
        sample_events_are_valid();
        let Streaming { live, stream } = self;
        let mut stream = stream;
        for _ in around.rt.forever() {
            // Asked before the sweep, so that the last sweep comes after the last write.
            let last = ended.load(Ordering::SeqCst);
            let stamp = around.clock.now();
            let (swept, answer) = stream.sweep(alloc, around.rt, live, stamp);
            stream = swept;
            let Ok(taken) = answer else {
                return Streaming { live, stream };
            };
            around.gate.pass(Moment::Swept {
                session: SESSION,
                taken,
            });
            if last {
                return Streaming { live, stream };
            }
            if taken == 0 {
                // The processor is left to the writers, whose locks each sweep takes.
                thread::sleep(around.rt, Duration::from_millis(REST));
            }
        }
        unreachable!()
    }

    /// Closes the session on the first rows, on which it is open.
    pub(crate) fn close_all<R: Wait, C: Clock, G: Gate>(
        self,
        alloc: Global,
        around: &Around<'_, P, R, C, G>,
        opened: u32,
    ) -> Streaming<'w, 'g, P, S>
        requires few { opened ≤ P.rows }
        requires is_open { IsOpenOn P.run P.rows 0 opened self.stream }
        ensures is_open { IsOpenOn P.run P.rows opened opened result.stream }
        ensures ends { (to : ℕ) → self.entry.stream.stands ≡ Some to
            → AllByRecursion (EndsAt to) self.entry.stream.marks
            → AllByRecursion (EndsAt to) result.stream.marks }
    {
        sample_events_are_valid();
        let Streaming { live, stream } = self;
        let mut stream = stream;
        for place in 0..opened {
            stream = stream.close_row(alloc, around.rt, live, place + 1);
        }
        Streaming { live, stream }
    }
}
