//! A run whose threads write while the stream of its one session goes to an output.
ghost use Rattle.std.specs.Prelude.{◌≡◌, ◌+◌, ◌*◌, ◌<◌, ◌≤◌, Some, IsTrue, replicate, vec_len};
ghost use Rattle.ep_defs.specs.declared.limits.TheConstants.{THREADS as MOST_THREADS, WRITES};
ghost use Rattle.ep_defs.specs.Session.{is_valid_config};
ghost use Rattle.ep_guarded.specs.Granted.{IsGrantFor};
ghost use Rattle.ep_live.specs.Made.{AreStands};
ghost use Rattle.ep_live.specs.declared.limits.TheConstants.{ROW_TIES};
ghost use Rattle.pt_stream.specs.State.{first_seat};
ghost use Rattle.pt_writers.specs.Written.{IsRunOf, writes_of};
ghost use Rattle.pt_live.specs.Trace.{Traces};
ghost use Rattle.pt_live.specs.state.Run.{IsLentTo, TracesOver, setting_of};

use crate::lent::{Lent, RunOutput};
use crate::run::TraceRun;
use crate::session::{streamed, untold};
use crate::streaming::{SESSION, Streaming};
use ep_defs::{Config, EventDef, Items, MarkList, TraceInfo};
use ep_guarded::{Agreed, Grant};
use ep_live::{Free, Live, ROW_TIES};
use ep_live_laws::{a_part_is_found, a_traced_stream_is_found};
use ep_pool::{Pool, PoolSeat};
use ep_stream::Fate;
use ep_tie::{Blank, Right};
use nt_write::Fault;
use pt_io::{Clock, Gate, Sink};
use pt_load::laws::sample_events_are_valid;
use pt_load::{Plan, sample_events};
use pt_stream::{Accepted, NotStarted, Stream};
use pt_writers::{Around, Kit, first_slot};
use std::alloc::{AllocError, Global};
use std::marker::{Brand, PhantomData};
use std::sync::Wait;
use std::thread::Threads;
use std::time::Clock as Timer;

/// What is left of a run once its threads have ended.
#[derive(Drop)]
pub struct TraceEnd {
    /// Each row's thread, and how many writes it has made.
    pub rows: Vec<(u64, u32)>,
    /// What the session had of each thread, ascending by thread. There is none where its stream could not be begun.
    pub marks: MarkList,
    pub fate: Fate,
    /// A seat of the session's pool that has all its shares. There is none where its stream could not be begun.
    pub seat: Option<PoolSeat>,
}

// What a run is made of before it has a name: how much is written, the runtime, the clock and the gate, the seat of its
// session's pool, the ties, and the definitions of the events.
#[derive(Drop)]
struct Parts<'r, 'g, R, C, G> {
    plan: &'r Plan,
    rt: &'r R,
    clock: &'r C,
    gate: &'r G,
    seat: PoolSeat,
    blank: Blank<Agreed<'g>>,
    events: Vec<EventDef>,
}

/// Runs the sample program: the threads of the plan make their writes, each in a thread of its own where one can be made,
/// while the calling thread takes what one session gets of them and writes it to the output. Out of memory before the
/// first thread was started there is an error; later the session ends, and the threads go on to their end.
pub fn run_trace<'r, R: Threads + Wait + Timer + Sync, O: Sink, C: Clock, G: Gate>(
    rt: &'r R,
    alloc: Global,
    plan: &'r Plan,
    config: Config,
    info: &TraceInfo,
    output: &mut O,
    clock: &'r C,
    gate: &'r G,
) -> Result<TraceEnd, AllocError>
    requires threads { (0 < plan.now.threads) × (plan.now.threads ≤ MOST_THREADS) }
    requires writes { plan.now.writes ≤ WRITES }
    requires config { IsTrue (is_valid_config config) }
    ensures { Traces O.Sink info.now plan.now config output.old output.new result }
{
    let events = sample_events(alloc)?;
    let (pool, seat) = Pool::new(rt, alloc, config.chunks, plan.threads + 1)?;
    let grant = Grant::new(alloc, config, pool, events.as_slice())?;
    let parts = Parts {
        plan,
        rt,
        clock,
        gate,
        seat,
        blank: Blank::new(alloc, plan.threads * (ROW_TIES as u32 + 1))?,
        events,
    };
    let lent = Lent::new(output);
    let mut answer = Err(AllocError);
    let _lent = run_named::<Brand, _, _, _, _>(alloc, parts, info, &grant, lent, &mut answer);
    answer
}

// The run, which has its name.
fn run_named<
    'o,
    'g,
    P: TraceRun + Send + Sync,
    R: Threads + Wait + Timer + Sync,
    O: Sink,
    C: Clock,
    G: Gate,
>(
    alloc: Global,
    parts: Parts<'_, 'g, R, C, G>,
    info: &TraceInfo,
    grant: &'g Grant,
    lent: Lent<'o, O>,
    answer: &mut Result<TraceEnd, AllocError>,
) -> Lent<'o, O>
    requires run { IsRunOf parts.plan.now P.rows P.events P.writes }
    requires writes { P.writes ≡ writes_of P.plan }
    requires setting { P.setting ≡ setting_of P.run }
    requires lent { IsLentTo O.Sink P.run lent.output.ghost_name lent.output.now }
    requires plan { parts.plan.now ≡ P.plan }
    requires asked { (info.now ≡ P.run.info) × (grant.now.config ≡ P.run.config) }
    requires ties { (parts.blank.ties ≡ P.ties) × (parts.blank.places ≡ P.rows + ROW_TIES * P.rows) }
    requires events { parts.events.items ≡ P.events }
    requires admitted { IsGrantFor P.events grant.now }
    requires seat { parts.seat ≡ first_seat grant.now.pool (P.rows + 1) }
    ensures same { result.output.ghost_name ≡ lent.entry.output.ghost_name }
    ensures traces { TracesOver O.Sink P.run P.plan lent.entry.output.now result.output.now answer.new }
{
    sample_events_are_valid();
    let Parts {
        plan,
        rt,
        clock,
        gate,
        seat,
        blank,
        events,
    } = parts;
    let (live, stands, hands) = match Live::<P>::new(alloc, blank, plan.threads, events) {
        Ok(made) => made,
        Err(error) => {
            *answer = Err(error);
            return lent;
        }
    };
    let around = Around {
        rt,
        clock,
        gate,
        plan,
        name: PhantomData,
    };
    let free = match first_slot(alloc, hands) {
        Ok(free) => free,
        Err(error) => {
            *answer = Err(error);
            return lent;
        }
    };
    let started = Started {
        free,
        grant,
        pool: seat,
        threads: stands,
    };
    let (lent, end) = run_over(alloc, &around, &live, started, info, lent);
    *answer = end;
    lent
}

// What a run's session is started with, and the halves of the threads, by row, none of which has made a write.
#[derive(Drop)]
struct Started<'g, P: TraceRun> {
    free: Free<'g, P>,
    grant: &'g Grant,
    pool: PoolSeat,
    threads: Vec<Right<P, Agreed<'g>>>,
    ghost count: { vec_len threads ≡ P.rows },
    ghost threads_are: { AreStands 0 threads.items },
}

// The run over rows that no thread and no session has used.
fn run_over<
    'o,
    'w,
    'g,
    P: TraceRun + Send + Sync,
    R: Threads + Wait + Timer + Sync,
    O: Sink,
    C: Clock,
    G: Gate,
>(
    alloc: Global,
    around: &Around<'_, P, R, C, G>,
    live: &'w Live<'g, P>,
    started: Started<'g, P>,
    info: &TraceInfo,
    lent: Lent<'o, O>,
) -> (Lent<'o, O>, Result<TraceEnd, AllocError>)
    requires writes { P.writes ≡ writes_of P.plan }
    requires setting { P.setting ≡ setting_of P.run }
    requires lent { IsLentTo O.Sink P.run lent.output.ghost_name lent.output.now }
    requires asked { (info.now ≡ P.run.info) × (started.grant.now.config ≡ P.run.config) }
    requires admitted { IsGrantFor P.events started.grant.now }
    requires pool { started.pool ≡ first_seat started.grant.now.pool (P.rows + 1) }
    ensures same { result.0.output.ghost_name ≡ lent.entry.output.ghost_name }
    ensures traces { TracesOver O.Sink P.run P.plan lent.entry.output.now result.0.output.now result.1 }
{
    a_traced_stream_is_found();
    a_part_is_found();
    sample_events_are_valid();
    let kit = match Kit::new(alloc, around, live) {
        Ok(kit) => kit,
        Err(error) => return (lent, Err(error)),
    };
    let Started {
        free,
        grant,
        pool,
        threads,
    } = started;
    let sink: RunOutput<'o, O, P> = RunOutput {
        lent,
        name: PhantomData,
    };
    let accepted = Accepted {
        free,
        grant,
        pool,
        sink,
        id: SESSION,
        conn: 0,
    };
    match Stream::start(alloc, around.rt, live, accepted, &[], info) {
        Ok(stream) => {
            let stream = stream.take_back(around.rt, live, threads, 0);
            let (output, end) = streamed(alloc, around, Streaming { live, stream }, kit);
            let RunOutput { lent, name: _ } = output;
            (lent, end)
        }
        Err(failed) => {
            let NotStarted { sink, fault, .. } = failed;
            let RunOutput { lent, name: _ } = sink;
            match fault {
                Fault::OutOfMemory => (lent, Err(AllocError)),
                _ => {
                    let rows = untold(around, threads, kit);
                    let marks = Items::new(Vec::new(alloc));
                    let end = TraceEnd {
                        rows,
                        marks,
                        fate: Fate::LinkFault,
                        seat: None,
                    };
                    (lent, Ok(end))
                }
            }
        }
    }
}
