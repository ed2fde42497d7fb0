//! A run whose threads write while a callback hears what its one session gets of them.
ghost use Rattle.std.specs.Prelude.{◌≡◌, ℕ, ◌+◌, ◌*◌, ◌<◌, ◌≤◌, [], false, Some, IfOk, IsTrue, List};
ghost use Rattle.ep_defs.specs.declared.limits.TheConstants.{SESSIONS, THREADS as MOST_THREADS, WRITES};
ghost use Rattle.ep_defs.specs.Session.{is_valid_config};
ghost use Rattle.ep_guarded.specs.Granted.{IsGrantFor};
ghost use Rattle.ep_listen.specs.Heard.{HeardEvent};
ghost use Rattle.ep_listen.specs.Listening.{callback_of, has_failed, marks_in, room_of};
ghost use Rattle.ep_live.specs.RowSet.{AreFresh, life_at};
ghost use Rattle.ep_live.specs.declared.limits.TheConstants.{ROW_TIES};
ghost use Rattle.pt_writers.specs.Written.{IsRunOf, writes_of};
ghost use Rattle.pt_listen.specs.Watched.{Watched, WatchedFrom};
ghost use Rattle.pt_listen.specs.state.Hearing.{first_seat};

use crate::hearing::{SESSION, open_all};
use crate::run::WatchRun;
use crate::threads::run_both;
use ep_defs::{Config, EventDef};
use ep_guarded::{Agreed, Grant};
use ep_listen::{Callback, ListenEnd, Listener, all_is_heard_but_what_is_missing};
use ep_live::{Live, LiveRows, ROW_TIES, Stands};
use ep_pool::{Pool, PoolSeat};
use ep_tie::Blank;
use pt_io::{Clock, Gate, Moment};
use pt_load::laws::sample_events_are_valid;
use pt_load::{Plan, sample_events};
use pt_writers::{Around, Kit, first_slot, writers_of};
use std::alloc::{AllocError, Global};
use std::marker::{Brand, PhantomData};
use std::sync::Wait;
use std::thread::Threads;
use std::time::Clock as Timer;

/// What is left of a run once its threads have ended.
#[derive(Drop)]
pub struct WatchEnd<K> {
    /// Each row's thread, and how many writes it has made.
    pub rows: Vec<(u64, u32)>,
    /// The callback, and what the session had of each thread, ascending by thread.
    pub listened: ListenEnd<K>,
    /// A seat of the session's pool that has all its shares.
    pub seat: PoolSeat,
}

// What a run is made of before it has a name: how much is written, the runtime, the clock and the gate, the ties, the definitions
// of the events, and the seat of its session's pool.
#[derive(Drop)]
struct Parts<'r, 'g, R, C, G> {
    plan: &'r Plan,
    rt: &'r R,
    clock: &'r C,
    gate: &'r G,
    seat: PoolSeat,
    blank: Blank<Agreed<'g>>,
    events: Vec<EventDef>,
}

/// Runs the sample program: the threads of the plan make their writes, each in a thread of its own where one can be made,
/// while the calling thread takes what one session gets of them and hands it to the callback. Out of memory before the first
/// thread was started there is an error; later the listener says it at its end, and the threads go on to theirs.
pub fn run_watch<'r, R: Threads + Wait + Timer + Sync, K: Callback + Drop, C: Clock, G: Gate>(
    rt: &'r R,
    alloc: Global,
    plan: &'r Plan,
    config: Config,
    callback: K,
    clock: &'r C,
    gate: &'r G,
) -> Result<WatchEnd<K>, AllocError>
    requires threads { (0 < plan.now.threads) × (plan.now.threads ≤ MOST_THREADS) }
    requires writes { plan.now.writes ≤ WRITES }
    requires config { IsTrue (is_valid_config config) }
    ensures { IfOk result (Watched K.has_heard plan.now config callback) }
{
    let events = sample_events(alloc)?;
    let (pool, seat) = Pool::new(rt, alloc, config.chunks, plan.threads + 1)?;
    let grant = Grant::new(alloc, config, pool, events.as_slice())?;
    let Ok(listener) = Listener::new(alloc, callback, plan.threads) else {
        return Err(AllocError);
    };
    let parts = Parts {
        plan,
        rt,
        clock,
        gate,
        seat,
        blank: Blank::new(alloc, plan.threads * (ROW_TIES as u32 + 1))?,
        events,
    };
    run_named::<Brand, _, _, _, _>(alloc, parts, &grant, listener)
}

// The run, which has its name.
fn run_named<
    'g,
    P: WatchRun + Send + Sync,
    R: Threads + Wait + Timer + Sync,
    K: Callback + Drop,
    C: Clock,
    G: Gate,
>(
    alloc: Global,
    parts: Parts<'_, 'g, R, C, G>,
    grant: &'g Grant,
    listener: Listener<K>,
) -> Result<WatchEnd<K>, AllocError>
    requires run { IsRunOf parts.plan.now P.rows P.events P.writes }
    requires plan { parts.plan.now ≡ P.plan }
    requires writes { P.writes ≡ writes_of P.plan }
    requires asked { grant.now.config ≡ P.config }
    requires ties { (parts.blank.ties ≡ P.ties) × (parts.blank.places ≡ P.rows + ROW_TIES * P.rows) }
    requires events { parts.events.items ≡ P.events }
    requires admitted { IsGrantFor P.events grant.now }
    requires seat { parts.seat ≡ first_seat grant.now.pool (P.rows + 1) }
    requires at_first { (before : List HeardEvent) → P.at_first before → K.has_heard (callback_of listener) before }
    requires marks { marks_in listener ≡ [] }
    requires room { room_of listener ≡ P.rows }
    requires sound { has_failed listener ≡ false }
    ensures { IfOk result (WatchedFrom K.has_heard P.at_first P.plan P.config) }
{
    sample_events_are_valid();
    let Parts {
        plan,
        rt,
        clock,
        gate,
        seat,
        blank,
        events,
    } = parts;
    let (live, threads, hands) = Live::<P>::new(alloc, blank, plan.threads, events)?;
    let around = Around {
        rt,
        clock,
        gate,
        plan,
        name: PhantomData,
    };
    let free = first_slot(alloc, hands)?;
    let lives = vec![in alloc; 0u32; plan.threads as usize]?;
    let slot = free.slot();
    let stands = Stands::new(threads, 0);
    let rows = LiveRows::new(rt, &live, free, grant, seat, stands, lives);
    run_over(alloc, &around, &live, rows, slot, grant, listener)
}

// The run over rows that no thread and no session has used.
fn run_over<
    'r,
    'w,
    'g,
    P: WatchRun + Send + Sync,
    R: Threads + Wait + Timer + Sync,
    K: Callback + Drop,
    C: Clock,
    G: Gate,
>(
    alloc: Global,
    around: &Around<'_, P, R, C, G>,
    live: &'w Live<'g, P>,
    rows: LiveRows<'r, 'g, P, R>,
    slot: u32,
    grant: &'g Grant,
    listener: Listener<K>,
) -> Result<WatchEnd<K>, AllocError>
    requires writes { P.writes ≡ writes_of P.plan }
    requires fresh { AreFresh P.rows slot grant.now rows.seat (Some 0) rows.lives rows }
    requires slot { slot < SESSIONS }
    requires asked { grant.now.config ≡ P.config }
    requires lives { (row : ℕ) → life_at rows row ≡ 0 }
    requires dry { rows.seat.dry ≡ 0 }
    requires at_first { (before : List HeardEvent) → P.at_first before → K.has_heard (callback_of listener) before }
    requires marks { marks_in listener ≡ [] }
    requires room { room_of listener ≡ P.rows }
    requires sound { has_failed listener ≡ false }
    ensures { IfOk result (WatchedFrom K.has_heard P.at_first P.plan P.config) }
{
    all_is_heard_but_what_is_missing();
    let kit = Kit::new(alloc, around, live)?;
    let hearing = open_all(alloc, rows, slot, grant, listener)?;
    let Kit {
        live: _,
        drafts,
        mut writers,
        mut halves,
        rows: mut ends,
    } = kit;
    let (hearing, threads) = hearing.lend();
    writers_of(live, threads, drafts, &mut writers);
    around.gate.pass(Moment::Opened { session: SESSION });
    let (hearing, done) = run_both(alloc, around, hearing, writers);
    done.give_back(around, &mut ends, &mut halves);
    let writes = around.plan.writes;
    let hearing = hearing.take_back(halves, writes);
    let (listened, seat) = hearing.end(alloc, writes);
    Ok(WatchEnd {
        rows: ends,
        listened,
        seat,
    })
}
