ghost use Rattle.std.specs.Prelude.{◌≡◌, false};

use super::*;
use std::io::BufWriter;

/// A device that answers each of its first calls with an error of this kind.
#[derive(Drop)]
struct Failing {
    times: u32,
    kind: ErrorKind,
}

impl Failing {
    fn turn(&mut self) -> io::Result<()> {
        if self.times == 0 {
            return Ok(());
        }
        self.times -= 1;
        Err(io::Error::from(self.kind))
    }
}

impl Read for Failing {
    fn read(&mut self, _buf: &mut [u8]) -> io::Result<usize> {
        self.turn()?;
        Ok(0)
    }
}

impl Write for Failing {
    fn write(&mut self, buf: &[u8]) -> io::Result<usize> {
        self.turn()?;
        Ok(buf.len())
    }

    fn flush(&mut self) -> io::Result<()> {
        self.turn()
    }
}

/// A writer that accepts this many bytes, and then none.
#[derive(Drop)]
struct Filling {
    room: usize,
}

impl Write for Filling {
    fn write(&mut self, buf: &[u8]) -> io::Result<usize> {
        let n = buf.len().min(self.room);
        self.room -= n;
        Ok(n)
    }

    fn flush(&mut self) -> io::Result<()> {
        Ok(())
    }
}

fn counted_failing(times: u32, kind: ErrorKind) -> Counted<Failing>
    ensures { result.has_failed ≡ false }
{
    Counted::new(Failing { times, kind })
}

fn kind_of<T: Drop>(answer: io::Result<T>) -> Option<ErrorKind> {
    answer.err().map(|error| error.kind())
}

// Returns the errors that a read, a write and a flush report for a device whose first calls fail,
// and whether each has failed.
fn reported(times: u32, kind: ErrorKind) -> [(Option<ErrorKind>, bool); 3] {
    let mut reader = counted_failing(times, kind);
    let read = kind_of(reader.read(&mut [0; 8]));
    let mut writer = counted_failing(times, kind);
    let wrote = kind_of(writer.write(b"abc"));
    let mut buffer = counted_failing(times, kind);
    let flushed = kind_of(buffer.flush());
    [
        (read, reader.has_failed()),
        (wrote, writer.has_failed()),
        (flushed, buffer.has_failed()),
    ]
}

// Returns true if the errors of the table are reported.
fn are_reported() -> bool {
    for (times, kind, reports) in [
        (1, ErrorKind::BrokenPipe, true),
        (1, ErrorKind::PermissionDenied, true),
        (1, ErrorKind::StorageFull, true),
        (1, ErrorKind::WouldBlock, true),
        (0, ErrorKind::Interrupted, false),
        (16, ErrorKind::Interrupted, false),
        (17, ErrorKind::Interrupted, true),
    ] {
        let expected = if reports {
            (Some(kind), true)
        } else {
            (None, false)
        };
        if reported(times, kind) != [expected; 3] {
            return false;
        }
    }
    true
}

#[test]
fn the_error_is_the_one_of_the_device(rt: HostRuntime) {
    assert!(rt; are_reported());
}

// Returns true if a flush empties the buffer of the device.
fn is_flushed(writer: &mut Counted<BufWriter<VecDeque<u8>>>) -> io::Result<bool>
    requires fresh { writer.old.has_failed ≡ false }
{
    put(writer, b"1 0\n")?;
    let is_buffered = writer.device().buffer() == b"1 0\n".as_slice()
        && writer.device().get_ref().is_empty();
    writer.flush()?;
    Ok(is_buffered && writer.device().buffer().is_empty() && writer.device().get_ref().len() == 4)
}

#[test]
fn a_flush_empties_the_buffer_of_the_device(rt: HostRuntime) -> Result<(), Fail> {
    let alloc = rt.alloc();
    let mut writer = Counted::new(BufWriter::new(alloc, VecDeque::new(alloc))?);
    assert!(rt; is_flushed(&mut writer)?);
    Ok(())
}

// Returns true if a writer accepts two bytes, and then none.
fn is_full() -> io::Result<bool> {
    let mut writer = Counted::new(Filling { room: 2 });
    let none = writer.write(b"")?;
    let two = writer.write(b"1 0\n")?;
    let full = writer.write(b"0\n")?;
    let mut other = Counted::new(Filling { room: 2 });
    let refused = kind_of(put(&mut other, b"1 0\n"));
    Ok(
        [none, two, full] == [0, 2, 0]
            && !writer.has_failed()
            && refused == Some(ErrorKind::WriteZero),
    )
}

// Returns true if the second flush fails, which is the third call.
fn fails_at_its_call(alloc: Global) -> io::Result<bool> {
    let mut writer = Faulty::new(Vec::new(alloc), 100, 3);
    put(&mut writer, b"1 0\n")?;
    writer.flush()?;
    let second = kind_of(writer.flush());
    Ok(
        second == Some(ErrorKind::Other)
            && writer.has_failed()
            && writer.written() == b"1 0\n".as_slice(),
    )
}

#[test]
fn a_full_writer_accepts_none_and_a_flush_fails_at_its_call(rt: HostRuntime) -> Result<(), Fail> {
    assert!(rt; is_full()? && fails_at_its_call(rt.alloc())?);
    Ok(())
}
