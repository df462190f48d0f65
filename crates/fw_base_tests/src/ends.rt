use fw_base::{Failed, ListSink, ListSource, ReadSource, Sink, Source, WriteSink};
use std::io;
use std::io::{ErrorKind, Read, Write};
use std::test::Fail;

#[test]
fn ends_in_memory_go_by_pieces_and_fail_where_listed(rt: HostRuntime) -> Result<(), Fail> {
    let alloc = rt.alloc();
    let mut source = ListSource::new(b"abcde".to_vec(alloc)?, 2, vec![in alloc; 2]?);
    let mut sink = ListSink::new(alloc, 4, vec![in alloc; 2]?)?;
    let mut buffer = [0u8; 3];
    let mut answers = Vec::new(alloc);
    for _ in 0..5 {
        let read = source.read(&mut buffer);
        let count = read.unwrap_or(0).min(3);
        answers.push((read, sink.write(&buffer[..count])))?;
    }
    let want = [
        (Ok(2), Ok(())),
        (Err(Failed), Err(Failed)),
        (Ok(2), Ok(())),
        (Ok(1), Err(Failed)),
        (Ok(0), Ok(())),
    ];
    for (answer, wanted) in answers.iter().zip(want) {
        assert_eq!(rt; *answer, wanted);
    }
    assert_eq!(rt; sink.written(), b"abcd".as_slice());
    Ok(())
}

/// Gives a byte, fails, gives another, and then is at its end.
#[derive(Drop)]
struct Faltering {
    turn: u8,
}

impl Read for Faltering {
    fn read(&mut self, buf: &mut [u8]) -> io::Result<usize> {
        self.turn = self.turn.saturating_add(1);
        match self.turn {
            1 | 3 => {
                let Some(first) = buf.first_mut() else {
                    return Ok(0);
                };
                *first = self.turn;
                Ok(1)
            }
            2 => Err(io::Error::from(ErrorKind::Interrupted)),
            _ => Ok(0),
        }
    }
}

#[test]
fn a_reader_that_fails_in_mid_stream(rt: HostRuntime) -> Result<(), Fail> {
    let mut source = ReadSource::new(Faltering { turn: 0 });
    let mut buffer = [0u8; 8];
    assert_eq!(rt; source.read(&mut buffer), Ok(1));
    assert_eq!(rt; source.read(&mut buffer), Err(Failed));
    assert_eq!(rt; source.read(&mut buffer), Ok(1));
    assert_eq!(rt; buffer[0], 3);
    assert_eq!(rt; source.read(&mut buffer), Ok(0));
    Ok(())
}

#[test]
fn a_long_read_comes_whole(rt: HostRuntime) -> Result<(), Fail> {
    let bytes = vec![in rt.alloc(); 7u8; 100_000]?;
    let mut buffer = vec![in rt.alloc(); 0u8; 100_000]?;
    let mut source = ReadSource::new(bytes.as_slice());
    assert_eq!(rt; source.read(&mut buffer), Ok(100_000));
    assert_eq!(rt; buffer.as_slice(), bytes.as_slice());
    Ok(())
}

/// Takes two bytes of each write into its room, nothing where it is full, and fails at the chosen flush.
#[derive(Drop)]
struct Narrow<'a> {
    room: &'a mut [u8],
    taken: &'a mut usize,
    flushes: u8,
    failing_flush: u8,
}

impl Write for Narrow<'_> {
    fn write(&mut self, buf: &[u8]) -> io::Result<usize> {
        let at = *self.taken;
        if at >= self.room.len() {
            return Ok(0);
        }
        let count = buf.len().min(2).min(self.room.len() - at);
        self.room[at..at + count].copy_from_slice(&buf[..count]);
        *self.taken = at + count;
        Ok(count)
    }

    fn flush(&mut self) -> io::Result<()> {
        self.flushes = self.flushes.saturating_add(1);
        if self.flushes == self.failing_flush {
            return Err(io::Error::from(ErrorKind::BrokenPipe));
        }
        Ok(())
    }
}

#[test]
fn a_writer_that_takes_little_and_fails(rt: HostRuntime) -> Result<(), Fail> {
    let mut room = [0u8; 7];
    let mut taken = 0;
    let mut sink = WriteSink::new(Narrow {
        room: &mut room,
        taken: &mut taken,
        flushes: 0,
        failing_flush: 2,
    });
    assert_eq!(rt; sink.write(b"abcde"), Ok(()));
    assert_eq!(rt; sink.write(b"f"), Err(Failed));
    assert_eq!(rt; sink.write(b""), Ok(()));
    assert_eq!(rt; sink.write(b"gh"), Err(Failed));
    assert_eq!(rt; taken, 7);
    assert_eq!(rt; room.as_slice(), b"abcdefg".as_slice());
    Ok(())
}
