//! A socket whose peer has a time by which it is to have sent.
use pt_io::{Failed, Source};
use pt_system::SocketLink;
use std::io;
use std::io::Write;
use std::os::unix::net::UnixStream;
use std::time::{Duration, Instant};

// What four reads answer, before each second of which the peer writes one byte, and then two.
fn reads(
    link: &mut SocketLink<HostRuntime>,
    peer: &mut UnixStream,
) -> io::Result<[Result<usize, Failed>; 4]> {
    let mut buf = [0; 3];
    peer.write_all(&[1])?;
    let first = [link.read(&mut buf), link.read(&mut buf)];
    // Later on what is there is read, and nothing is waited for.
    peer.write_all(&[2, 3])?;
    let last = [link.read(&mut buf), link.read(&mut buf)];
    Ok([first[0], first[1], last[0], last[1]])
}

#[test]
fn a_peer_is_waited_for_until_its_time_has_come(rt: HostRuntime) -> io::Result<()> {
    let (mut peer, stream) = UnixStream::pair(&rt)?;
    let until = Instant::now(&rt)?.checked_add(Duration::from_secs(2));
    let mut link = SocketLink::new(stream, rt, until);
    assert_eq!(rt;
        reads(&mut link, &mut peer)?,
        [Ok(1), Err(Failed), Ok(2), Err(Failed)]
    );
    Ok(())
}
