//! What a run comes to, as a text.
use super::watched::WatchedLink;
use ep_defs::Marks;
use ep_stream::Fate;
use pt_roles::{LiveEnd, LiveSession};
use pt_server::{ConnAnswer, ConnEnd};
use std::alloc::AllocError;

/// What is said of a thread.
#[derive(Clone, Copy, PartialEq, Eq)]
enum Said {
    /// How many writes it made.
    Writes(u32),
    /// From which write on a session was open on it, up to which one, how many it took and how many were refused.
    Marks {
        from: u32,
        to: u32,
        taken: u32,
        refused: u32,
    },
}

/// Threads that follow one another and of which the same is said.
#[derive(Clone, Copy)]
struct Group {
    first: u64,
    last: u64,
    said: Said,
}

/// A line for the rows, for each session and for each other connection. Threads that follow one another and of which the
/// same is said stand together. Of a session that failed it says nothing of its threads, which rests on when it failed.
pub(super) fn put_end(
    text: &mut String,
    end: &LiveEnd<WatchedLink<'_>>,
    in_vain: bool,
) -> Result<(), AllocError> {
    put_rows(text, &end.rows)?;
    for session in &end.sessions {
        put_session(text, session)?;
    }
    for conn in &end.conns {
        put_conn(text, conn)?;
    }
    if end.dock_failed {
        text.push_str("\nthe dock failed")?;
    }
    if in_vain {
        text.push_str("\nsomebody waited in vain")?;
    }
    Ok(())
}

fn put_rows(text: &mut String, rows: &[(u64, u32)]) -> Result<(), AllocError> {
    text.push_str("rows")?;
    let mut group = None;
    for (thread, writes) in rows {
        group = Some(put_thread(text, group, *thread, Said::Writes(*writes))?);
    }
    put_group(text, group)
}

fn put_session(
    text: &mut String,
    session: &LiveSession<WatchedLink<'_>>,
) -> Result<(), AllocError> {
    let (id, conn, fate) = (session.id, session.conn, session.fate);
    write!(text, "\nsession {id} of {conn}: ")?;
    match fate {
        Fate::Requested { conn } => write!(text, "stopped by {conn}")?,
        Fate::ProgramEnd => text.push_str("program")?,
        Fate::LinkFault => return text.push_str("link"),
        Fate::TooLong => return text.push_str("long"),
        Fate::OutOfMemory => return text.push_str("memory"),
    }
    put_marks(text, session.marks.as_slice())
}

fn put_marks(text: &mut String, marks: &[Marks]) -> Result<(), AllocError> {
    let mut group = None;
    for mark in marks {
        let said = Said::Marks {
            from: mark.from,
            to: mark.to,
            taken: mark.taken,
            refused: mark.refused,
        };
        group = Some(put_thread(text, group, mark.thread, said)?);
    }
    put_group(text, group)
}

fn put_conn(text: &mut String, end: &ConnEnd<WatchedLink<'_>>) -> Result<(), AllocError> {
    let (conn, answer) = (end.conn, end.answer);
    write!(text, "\nconnection {conn}: ")?;
    match answer {
        ConnAnswer::Error { code } => write!(text, "error {code:x}")?,
        ConnAnswer::Info => text.push_str("info")?,
        ConnAnswer::Stopped { session } => write!(text, "stops {session}")?,
        ConnAnswer::ReadFault => text.push_str("read fault")?,
        ConnAnswer::WriteFault => text.push_str("write fault")?,
    }
    let bytes = end.link.taken().len();
    write!(text, " {bytes} bytes")
}

// The group with this thread, to which it belongs or behind which it begins another.
fn put_thread(
    text: &mut String,
    group: Option<Group>,
    thread: u64,
    said: Said,
) -> Result<Group, AllocError> {
    let mut first = thread;
    match group {
        Some(same) if same.last.wrapping_add(1) == thread && same.said == said => {
            first = same.first;
        }
        ended => put_group(text, ended)?,
    }
    Ok(Group {
        first,
        last: thread,
        said,
    })
}

fn put_group(text: &mut String, group: Option<Group>) -> Result<(), AllocError> {
    let Some(Group { first, last, said }) = group else {
        return Ok(());
    };
    write!(text, " [{first}-{last} ")?;
    put_said(text, said)?;
    text.push_str("]")
}

fn put_said(text: &mut String, said: Said) -> Result<(), AllocError> {
    match said {
        Said::Writes(writes) => write!(text, "{writes}"),
        Said::Marks {
            from,
            to,
            taken,
            refused,
        } => write!(text, "{from}..{to} {taken}+{refused}"),
    }
}
