//! Histories of a journal, from the first connection to the end.
ghost use Rattle.std.specs.Prelude.{◌≡◌, ◌<◌, length, true};
ghost use Rattle.ep_journal.specs.declared.limits.TheConstants.{CONNECTIONS};

use ep_journal::limits::CONNECTIONS;
use ep_journal::{Decision, Entry, Fate, Journal, Log, Opened, Stage};
use ep_table::{Accepted, StopAnswer};
use std::alloc::AllocGlobal;
use std::process::Abort;

/// A step of a history, with what is to come of it.
#[derive(Clone, Copy)]
enum Step {
    /// A connection neither begins nor stops a session.
    Pass,
    /// A connection asks for a session, and has it or not.
    Begin(bool),
    /// A connection asks for a session whose start fails.
    FailedStart,
    /// A connection asks for the end of this session, which is granted or not.
    Stop(u64, bool),
    /// The server opens this session on all rows, early or late.
    Open(u64, bool),
    /// One of two writers ends.
    WriterEnds,
    /// This session's role looks at it, and ends it as it finds.
    Look(u64, Option<Fate>),
    /// This session's link fails.
    LinkFails(u64),
}

/// What a history tells in the end.
#[derive(Drop)]
struct Told {
    /// Whether what came of each step is what it says.
    agrees: bool,
    /// How many sessions each of two roles had before the end.
    serving: [u32; 2],
    decisions: Log<Decision>,
    sessions: Log<Entry>,
}

impl Told {
    // Whether what came of each step is what it says, and whether this is what is told.
    fn tells(&self, serving: [u32; 2], decisions: &[Decision], sessions: &[Entry]) -> [bool; 4] {
        [
            self.agrees,
            self.serving == serving,
            self.decisions.as_slice() == decisions,
            self.sessions.as_slice() == sessions,
        ]
    }
}

/// A journal at work, with how many writers go on.
#[derive(Drop)]
struct Run {
    journal: Journal,
    writers: u32,
}

impl Run {
    // Whether one more connection can be decided.
    fn has_room(&self) -> bool
        ensures { result ≡ true → length self.now.journal.decisions < CONNECTIONS }
    {
        self.journal.decided() < CONNECTIONS as u32
    }

    fn pass(&mut self) -> bool {
        if !self.has_room() {
            return false;
        }
        self.journal.pass();
        true
    }

    fn begin(&mut self) -> Option<u64> {
        if !self.has_room() {
            return None;
        }
        match self.journal.accept() {
            Accepted::Seat { id, .. } => Some(id),
            Accepted::Full => None,
        }
    }

    fn fail_start(&mut self) -> bool {
        let Some(id) = self.begin() else {
            return false;
        };
        if !self.journal.serves(id) || !self.journal.is_last(id) {
            return false;
        }
        self.journal.fail(id);
        true
    }

    fn stop(&mut self, id: u64) -> bool {
        self.has_room() && matches!(self.journal.stop(id), StopAnswer::Ticket(_))
    }

    fn open(&mut self, id: u64, early: bool) -> bool {
        if !self.journal.serves(id) {
            return false;
        }
        self.journal.open(id, early);
        true
    }

    fn end_writer(&mut self) -> bool {
        if self.writers == 1 {
            self.journal.end_writers();
        }
        self.writers = self.writers.saturating_sub(1);
        true
    }

    fn look(&mut self, id: u64) -> Option<Fate> {
        if !self.journal.serves(id) {
            return None;
        }
        let fate = self.journal.look(id)?;
        if self.end(id, fate) { Some(fate) } else { None }
    }

    fn end(&mut self, id: u64, fate: Fate) -> bool {
        let may = self.journal.may_end(id, fate);
        if may {
            self.journal.end(id, fate);
        }
        may
    }

    // Whether what came of the step is what it says.
    fn make(&mut self, step: Step) -> bool {
        match step {
            Step::Pass => self.pass(),
            Step::Begin(given) => self.begin().is_some() == given,
            Step::FailedStart => self.fail_start(),
            Step::Stop(id, granted) => self.stop(id) == granted,
            Step::Open(id, early) => self.open(id, early),
            Step::WriterEnds => self.end_writer(),
            Step::Look(id, found) => self.look(id) == found,
            Step::LinkFails(id) => self.end(id, Fate::LinkFault),
        }
    }

    // Whether what came of each step is what it says.
    fn play(&mut self, steps: &[Step]) -> bool {
        let mut agrees = true;
        for step in steps {
            agrees = self.make(*step) & agrees;
        }
        agrees
    }

    // All writers and sessions end.
    fn end_all(&mut self) {
        self.journal.end_writers();
        for id in 1..=CONNECTIONS as u64 {
            let _fate = self.look(id);
        }
    }
}

// What a journal tells once these steps were made, and all writers and sessions have ended.
fn history(rt: &(impl Abort + AllocGlobal), steps: &[Step]) -> Told {
    let journal = Journal::new(rt.alloc()).expect(rt, "room for a journal");
    let mut run = Run {
        journal,
        writers: 2,
    };
    let agrees = run.play(steps);
    let serving = [run.journal.serving(2, 0), run.journal.serving(2, 1)];
    run.end_all();
    let held = run.journal.held();
    assert!(rt; held == 0);
    let (decisions, sessions) = run.journal.finish();
    Told {
        agrees,
        serving,
        decisions,
        sessions,
    }
}

const STOPPED: Fate = Fate::Requested { conn: 2 };

const LIVED: Entry = Entry {
    conn: 1,
    slot: 0,
    ticket: None,
    stage: Stage::Over(Fate::ProgramEnd),
    opened: Opened::No,
    gone: Some(1),
};

#[test]
fn each_call_is_told_in_the_end(rt: HostRuntime) {
    let cases: [(&[Step], [u32; 2], &[Decision], &[Entry]); 3] = [
        // A stop after the last write comes before the program's end.
        (
            &[
                Step::Begin(true),
                Step::WriterEnds,
                Step::Look(1, None),
                Step::WriterEnds,
                Step::Stop(1, true),
                Step::Stop(1, false),
                Step::Look(1, Some(STOPPED)),
            ],
            [0, 0],
            &[
                Decision::Accepted { id: 1 },
                Decision::Ticket { id: 1 },
                Decision::Refused { id: 1 },
            ],
            &[Entry {
                ticket: Some(2),
                stage: Stage::Over(STOPPED),
                ..LIVED
            }],
        ),
        // A stop after the last write comes after the program's end.
        (
            &[
                Step::Begin(true),
                Step::WriterEnds,
                Step::WriterEnds,
                Step::Look(1, Some(Fate::ProgramEnd)),
                Step::Stop(1, false),
            ],
            [0, 0],
            &[Decision::Accepted { id: 1 }, Decision::Refused { id: 1 }],
            &[LIVED],
        ),
        // A start fails, one session is opened early, and the link of one that is opened late fails.
        (
            &[
                Step::FailedStart,
                Step::Pass,
                Step::Begin(true),
                Step::Open(2, true),
                Step::Begin(true),
                Step::Open(3, false),
                Step::LinkFails(3),
                Step::Stop(3, false),
            ],
            [1, 0],
            &[
                Decision::Nothing,
                Decision::Nothing,
                Decision::Accepted { id: 2 },
                Decision::Accepted { id: 3 },
                Decision::Refused { id: 3 },
            ],
            &[
                Entry {
                    stage: Stage::Failed,
                    ..LIVED
                },
                Entry {
                    conn: 3,
                    opened: Opened::Early,
                    gone: Some(5),
                    ..LIVED
                },
                Entry {
                    conn: 4,
                    slot: 1,
                    stage: Stage::Over(Fate::LinkFault),
                    opened: Opened::Late,
                    gone: Some(4),
                    ..LIVED
                },
            ],
        ),
    ];
    for (steps, serving, decisions, sessions) in cases {
        let told = history(&rt, steps);
        assert_eq!(rt; told.tells(serving, decisions, sessions), [true; 4]);
    }
}

#[test]
fn the_65th_session_is_refused_and_all_500_connections_are_told(rt: HostRuntime) {
    let mut steps = [Step::Begin(false); 500];
    steps[..64].fill(Step::Begin(true));
    let mut decisions = [Decision::Full; 500];
    for (id, decision) in (1..=64).zip(&mut decisions) {
        *decision = Decision::Accepted { id };
    }
    let told = history(&rt, &steps);
    let sessions = told.sessions.as_slice();
    assert_eq!(rt; sessions.len(), 64);
    assert_eq!(rt; told.tells([32, 32], &decisions, sessions), [true; 4]);
}
