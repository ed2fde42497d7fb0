//! Who meets over a socket: the program by its words, and peers that are no program.
use pt_cli::tracepipe;
use pt_command::status;
use pt_io::{Gate, MemSink, MemSource, Moment, StepClock};
use pt_system::{SocketCaller, SocketDock, facts_of};
use std::alloc::{AllocError, Global};
use std::io::{Read, Write};
use std::net::Shutdown;
use std::os::unix::net::UnixStream;
use std::sync::Wait;
use std::sync::atomic::{AtomicU64, Ordering};
use std::thread::Threads;
use std::time::{Clock as Timer, Duration};
use std::{env, io, process, str, thread};

/// How often somebody looks before giving up.
const LOOKS: u32 = 2_000;

/// How long is waited between two looks, in milliseconds.
const PAUSE: u64 = 10;

/// The write behind which each thread of a run waits.
pub(super) const HELD: u32 = 7;

/// How many steps are made once the run has said what it is, three sessions are open, and both threads of the run wait.
pub(super) const ALL_HELD: u64 = 6;

/// A place where somebody listens. Counted are the steps that were made: that a run has said what it is, the sessions that were
/// opened, the threads of the run that came to where they wait, and the streams that have ended. With the first of these the
/// threads go on.
#[derive(Drop)]
pub(super) struct Scene {
    rt: HostRuntime,
    pub(super) path: String,
    // How often a tool that is not there yet is called.
    tries: Option<u32>,
    made: AtomicU64,
}

impl Scene {
    /// The place with this name, which no other test and no other run of the tests has.
    pub(super) fn new(rt: HostRuntime, name: &str, tries: Option<u32>) -> io::Result<Scene> {
        let folder = env::temp_dir(&rt)?;
        let process = process::id(rt.process());
        Ok(Scene {
            rt,
            path: format!(in rt.alloc(); "{}/run-{process}-{name}", folder.display())?,
            tries,
            made: AtomicU64::new(0),
        })
    }

    fn make(&self) {
        self.made.fetch_add(1, Ordering::SeqCst);
    }

    // Waits for so many steps. Who has waited too long goes on.
    fn wait(&self, count: u64) {
        for _look in 0..LOOKS {
            if self.made.load(Ordering::SeqCst) >= count {
                return;
            }
            self.pause();
        }
    }

    fn pause(&self) {
        thread::sleep(&self.rt, Duration::from_millis(PAUSE));
    }

    // The words, where `@` stands for the path.
    fn words_of(&self, words: &[&str]) -> Result<Vec<String>, AllocError> {
        let mut owned = Vec::new(self.rt.alloc());
        for word in words {
            owned.push(self.word_of(word)?)?;
        }
        Ok(owned)
    }

    fn word_of(&self, word: &str) -> Result<String, AllocError> {
        if word == "@" {
            return self.path.clone();
        }
        String::from_str(self.rt.alloc(), word)
    }

    // What the program has around it that is asked by these words.
    fn outside_of(&self, words: &[&str], input: &[u8]) -> Result<Outside, AllocError> {
        let alloc: Global = self.rt.alloc();
        let words = self.words_of(words)?;
        let path = self.path.clone()?;
        let input = input.to_vec(alloc)?;
        Ok(Outside {
            words,
            input: MemSource::new(input, 4_096, Vec::new(alloc)),
            output: MemSink::new(Vec::new(alloc)),
            dock: SocketDock::new(self.rt, Some(path)),
            caller: SocketCaller::new(self.rt, self.tries),
        })
    }
}

impl Gate for Scene {
    fn pass(&self, at: Moment) {
        match at {
            Moment::Opened { .. } => self.make(),
            Moment::Wrote { index, .. } if index == HELD => {
                self.make();
                self.wait(ALL_HELD + 1);
            }
            _ => {}
        }
    }
}

// The program's words, and the objects around it.
#[derive(Drop)]
struct Outside {
    words: Vec<String>,
    input: MemSource,
    output: MemSink,
    dock: SocketDock<HostRuntime>,
    caller: SocketCaller<HostRuntime>,
}

/// What one of those does who meet, and what it is to come to. In words `@` stands for the place where they meet.
#[derive(Clone, Copy)]
pub(super) enum Part<'a> {
    /// Carries out these words behind so many steps, ends with this status, and writes this.
    Writes {
        behind: u64,
        words: &'a [&'a str],
        status: u8,
        written: &'a [u8],
    },
    /// Collects by these words behind so many steps. Its stream is whole, and its report has these lines.
    Collects {
        behind: u64,
        words: &'a [&'a str],
        lines: &'a str,
    },
    /// Asks a run what it is, which begins to listen meanwhile.
    Asks,
    /// Listens, and is called by process 1, which says what it is.
    Greets,
    /// Calls who begins to listen meanwhile, sends these bytes and no more, and reads until that has gone.
    Sends(&'a [u8]),
}

/// Those who meet.
#[derive(Drop)]
pub(super) struct Company<'a, R> {
    pub(super) threads: &'a R,
    pub(super) scene: &'a Scene,
}

impl<'a, R: Threads + Wait + Timer + Sync> Company<'a, R> {
    /// Has them meet, each in a thread of its own. None where each comes to what it is to come to, else the first who does not.
    pub(super) fn meet(&self, parts: &[Part<'_>]) -> Option<usize> {
        let alloc = self.scene.rt.alloc();
        let did = thread::map_indices(
            self.threads,
            alloc,
            parts.len(),
            &|place| self.act_at(parts, place),
        );
        match did {
            Ok(did) => did.iter().position(|did| !*did),
            Err(AllocError) => Some(parts.len()),
        }
    }

    fn act_at(&self, parts: &[Part<'_>], place: usize) -> bool {
        match parts.get(place) {
            Some(part) => self.act(*part),
            None => false,
        }
    }

    // Whether it comes to what it is to come to.
    fn act(&self, part: Part<'_>) -> bool {
        match part {
            Part::Writes {
                behind,
                words,
                status,
                written,
            } => {
                self.scene.wait(behind);
                self.ends_so(words, status, written)
            }
            Part::Collects {
                behind,
                words,
                lines,
            } => {
                self.scene.wait(behind);
                self.collects(words, lines)
            }
            Part::Asks => self.asks(),
            Part::Greets => self.writes(&["greet", "@"], b"process          1 "),
            Part::Sends(bytes) => self.sends(bytes),
        }
    }

    // The call alone.
    fn status_of(&self, outside: &mut Outside) -> u8 {
        let rt = self.scene.rt;
        let Ok(facts) = facts_of(&rt, 1, 1) else {
            return status::OUT_OF_MEMORY;
        };
        let clock = StepClock::new(7);
        let Outside {
            words,
            input,
            output,
            dock,
            caller,
        } = outside;
        tracepipe(
            self.threads,
            rt.alloc(),
            words,
            &facts,
            input,
            output,
            dock,
            caller,
            &clock,
            self.scene,
        )
        .status
    }

    // How the program ends with these words, and what it writes. Out of memory it writes nothing.
    fn carried_out(&self, words: &[&str], input: &[u8]) -> (u8, Vec<u8>) {
        let alloc = self.scene.rt.alloc();
        if let Ok(mut outside) = self.scene.outside_of(words, input) {
            let status = self.status_of(&mut outside);
            if let Ok(written) = outside.output.taken().to_vec(alloc) {
                return (status, written);
            }
        }
        (status::OUT_OF_MEMORY, Vec::new(alloc))
    }

    fn ends_so(&self, words: &[&str], wanted: u8, lines: &[u8]) -> bool {
        let (status, written) = self.carried_out(words, &[]);
        status == wanted && written.as_slice() == lines
    }

    // Whether it ends as done, and what it writes begins so.
    fn writes(&self, words: &[&str], begin: &[u8]) -> bool {
        let (status, written) = self.carried_out(words, &[]);
        status == status::DONE && written.starts_with(begin)
    }

    fn asks(&self) -> bool {
        for _look in 0..LOOKS {
            if self.writes(&["ps", "@"], b"process          1 ") {
                self.scene.make();
                return true;
            }
            self.scene.pause();
        }
        false
    }

    fn collects(&self, words: &[&str], lines: &str) -> bool {
        let (status, stream) = self.carried_out(words, &[]);
        self.scene.make();
        status == status::DONE && self.is_reported(&stream, lines)
    }

    // Whether this is a whole stream whose report has these lines.
    fn is_reported(&self, stream: &[u8], lines: &str) -> bool {
        let (status, report) = self.carried_out(&["report"], stream);
        status == status::DONE && str::from_utf8(&report).unwrap_or("").contains(lines)
    }

    fn sends(&self, bytes: &[u8]) -> bool {
        for _look in 0..LOOKS {
            if let Ok(stream) = UnixStream::connect(&self.scene.rt, &self.scene.path) {
                return send(stream, bytes).is_ok();
            }
            self.scene.pause();
        }
        false
    }
}

fn send(mut stream: UnixStream, bytes: &[u8]) -> io::Result<()> {
    stream.write_all(bytes)?;
    stream.shutdown(Shutdown::Write)?;
    let mut buf = [0; 64];
    for _ in 0..u64::MAX {
        if stream.read(&mut buf)? == 0 {
            break;
        }
    }
    Ok(())
}

/// Has them meet at a place of this name. None where each comes to what it is to come to and nothing is left there, else the
/// first who does not, or how many they are.
pub(super) fn meet<R: Threads + Wait + Timer + Sync>(
    threads: &R,
    rt: HostRuntime,
    name: &str,
    tries: Option<u32>,
    parts: &[Part<'_>],
) -> Option<usize> {
    let Ok(scene) = Scene::new(rt, name, tries) else {
        return Some(parts.len());
    };
    let company = Company {
        threads,
        scene: &scene,
    };
    let first = company.meet(parts);
    let is_left = std::fs::exists(&rt, &scene.path).unwrap_or(true);
    if is_left {
        first.or(Some(parts.len()))
    } else {
        first
    }
}
