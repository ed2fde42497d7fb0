//! A reader and a writer that give, take and fail.
use pt_io::{Failed, Sink, Source};
use pt_system::{StandardInput, StandardOutput};
use std::io;
use std::io::{ErrorKind, Read};

#[derive(Drop)]
struct BrokenReader;

impl Read for BrokenReader {
    fn read(&mut self, _buf: &mut [u8]) -> io::Result<usize> {
        Err(io::Error::from(ErrorKind::Other))
    }
}

// What three reads of two bytes each answer, over a reader of three bytes, what they leave in their buffer, and what a
// read answers over a broken one.
fn reads() -> ([Result<usize, Failed>; 4], [[u8; 2]; 2]) {
    let mut input = StandardInput::new([1, 2, 3].as_slice());
    let mut buf = [0; 2];
    let first = input.read(&mut buf);
    let after_first = buf;
    let second = input.read(&mut buf);
    let after_second = buf;
    let third = input.read(&mut buf);
    let broken = StandardInput::new(BrokenReader).read(&mut buf);
    ([first, second, third, broken], [after_first, after_second])
}

#[test]
fn an_input_gives_what_its_reader_gives(rt: HostRuntime) {
    assert_eq!(rt;
        reads(),
        ([Ok(2), Ok(1), Ok(0), Err(Failed)], [[1, 2], [3, 2]])
    );
}

// What writes of three bytes and of two answer, where there is room for four, and what is there then.
fn writes() -> ([Result<(), Failed>; 2], [u8; 4]) {
    let mut room = [0; 4];
    let mut output = StandardOutput::new(room.as_mut_slice());
    let answers = [output.write(&[1, 2, 3]), output.write(&[4, 5])];
    drop(output);
    (answers, room)
}

#[test]
fn an_output_writes_whole_pieces_or_fails(rt: HostRuntime) {
    assert_eq!(rt; writes(), ([Ok(()), Err(Failed)], [1, 2, 3, 4]));
}
