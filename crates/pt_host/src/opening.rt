//! How a session is opened on the rows of a run.
ghost use Rattle.std.specs.Prelude.{◌≡◌, ◌+◌, ◌<◌, ◌≤◌, true, false, Some, replicate};
ghost use Rattle.pt_stream.specs.State.{is_complete, no_place, place_at};
ghost use Rattle.pt_roles.specs.Serving.{IsOpenedOnce};

use ep_guarded::NotOpened;
use pt_io::Link;
use pt_roles::{Scene, Shared, Telling, World};
use pt_stream::Run;
use std::sync::Wait;
use std::thread;
use std::time::{Clock as Timer, Duration};

/// How long the server rests before it asks again for a row that is between two lives, in milliseconds.
const REST: u64 = 1;

/// Opens a session that was just started on each row, the first one first, until there is no memory for one more. Before
/// the writers begin each row serves its first life. Answers whether it is open on all rows.
pub(crate) fn open_all<'a, W: World, R: Wait + Timer, L: Link, C, G>(
    scene: &Scene<'_, W, R, C, G>,
    shared: &Shared<'a, W, L>,
    stream: Telling<'a, W, L>,
    early: bool,
) -> (Telling<'a, W, L>, bool)
    requires new { (stream.places ≡ replicate W.rows no_place) × (stream.early ≡ true) }
    requires stands { early ≡ true → stream.stands ≡ Some 0 }
    ensures same { result.0
        ≡ record stream.entry { places = result.0.places; early = result.0.early } }
    ensures complete { is_complete result.0 ≡ result.1 }
    ensures early { early ≡ true → result.0.early ≡ true }
{
    let mut stream = stream;
    for number in 0..scene.plan.threads {
        let (next, opened) = open_row(scene, shared, stream, number, early);
        stream = next;
        if !opened {
            return (stream, false);
        }
    }
    (stream, true)
}

// Opens it on the row with this number, in the life that the row serves by then. Answers whether there was memory.
fn open_row<'a, W: World, R: Wait + Timer, L: Link, C, G>(
    scene: &Scene<'_, W, R, C, G>,
    shared: &Shared<'a, W, L>,
    stream: Telling<'a, W, L>,
    number: u32,
    early: bool,
) -> (Telling<'a, W, L>, bool)
    requires row { number < W.rows }
    requires never { place_at stream.places (number + 1) ≡ no_place }
    ensures opened { result.1 ≡ true → IsOpenedOnce early (number + 1) stream.entry result.0 }
    ensures stays { result.1 ≡ false → result.0 ≡ stream.entry }
{
    let mut stream = stream;
    for _ in scene.rt.forever() {
        let life = if early {
            Some(0)
        } else {
            shared.hints.life(number as usize, scene.lives)
        };
        if let Some(life) = life {
            match stream.open_row(scene.alloc, scene.rt, &shared.live, number + 1, life) {
                (next, Ok(())) => return (next, true),
                (next, Err(NotOpened::Away)) => stream = next,
                (next, Err(_)) => return (next, false),
            }
        }
        thread::sleep(scene.rt, Duration::from_millis(REST));
    }
    unreachable!()
}
