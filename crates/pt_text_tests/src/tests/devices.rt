ghost use Rattle.std.specs.Prelude.{◌≡◌, ◌++◌, [], true, false, OnOk, OnErr};
ghost use mathlib.Core.List.{IsPrefix};

use pt_io::{Counted, Faulty, Sink, Source};
use std::alloc::Global;
use std::collections::VecDeque;
use std::io;
use std::io::{ErrorKind, Read, Write};
use std::os::unix::net::UnixStream;
use std::test::Fail;

mod faults;

/// Writes all the bytes.
fn put<W: Sink>(writer: &mut W, bytes: &[u8]) -> io::Result<()>
    requires { W.failures writer.old ≡ 0 }
    ensures ok { OnOk result
        ((W.taken writer.new ≡ W.taken writer.old ++ bytes.now) × (W.failures writer.new ≡ 0)) }
    ensures unchanged { OnErr result
        (IsPrefix (W.taken writer.new) (W.taken writer.old ++ bytes.now)) }
{
    let mut rest = bytes;
    while !rest.is_empty() {
        let n = writer.write(rest)?;
        if n == 0 {
            return Err(io::Error::from(ErrorKind::WriteZero));
        }
        rest = &rest[n..];
    }
    Ok(())
}

/// Copies all bytes, in pieces of up to five.
fn copy<R: Source, W: Sink>(reader: &mut R, writer: &mut W) -> io::Result<()>
    requires fresh { (R.given reader.old ≡ []) × (W.taken writer.old ≡ []) }
    requires working { (R.failures reader.old ≡ 0) × (W.failures writer.old ≡ 0) }
    ensures ok { OnOk result
        ((W.taken writer.new ≡ R.given reader.new) × (R.ended reader.new ≡ true)) }
    ensures unchanged { OnErr result (IsPrefix (W.taken writer.new) (R.given reader.new)) }
{
    let mut piece = [0u8; 5];
    for _ in 0..u64::MAX {
        let n = reader.read(&mut piece)?;
        if n == 0 {
            return Ok(());
        }
        put(writer, &piece[..n])?;
    }
    Err(io::Error::from(ErrorKind::TimedOut))
}

/// A device that answers its first reads or writes with an error.
#[derive(Drop)]
struct Unready {
    bytes: VecDeque<u8>,
    times: u32,
    kind: ErrorKind,
}

impl Unready {
    fn turn(&mut self) -> io::Result<()>
        ensures { self.new.bytes ≡ self.old.bytes }
    {
        if self.times == 0 {
            return Ok(());
        }
        self.times -= 1;
        Err(io::Error::from(self.kind))
    }
}

impl Read for Unready {
    ghost use Rattle.std.specs.Prelude.{Some};

    ghost remaining = { λ s. Some s.bytes.items };

    fn read(&mut self, buf: &mut [u8]) -> io::Result<usize> {
        self.turn()?;
        self.bytes.read(buf)
    }
}

impl Write for Unready {
    ghost use Rattle.std.specs.Prelude.{Some};

    ghost contents = { λ s. Some s.bytes.items };

    fn write(&mut self, buf: &[u8]) -> io::Result<usize> {
        self.turn()?;
        self.bytes.write(buf)
    }

    fn flush(&mut self) -> io::Result<()> {
        Ok(())
    }
}

// Returns true if all bytes of a reader come in pieces of four, and then its end.
fn come_in_pieces(reader: &mut Counted<VecDeque<u8>>) -> io::Result<bool>
    requires { reader.old.has_failed ≡ false }
{
    let mut first = [0u8; 4];
    let mut second = *b"lock";
    let none = reader.read(&mut [])?;
    let four = reader.read(&mut first)?;
    let three = reader.read(&mut second)?;
    let is_early = reader.has_ended();
    let end = reader.read(&mut [0; 4])?;
    Ok(
        [none, four, three, end] == [0, 4, 3, 0]
            && (first, second) == (*b"lock", *b" m\nk")
            && (is_early, reader.has_ended(), reader.has_failed()) == (false, true, false)
            && reader.device().is_empty(),
    )
}

#[test]
fn all_bytes_of_a_reader_come_in_pieces(rt: HostRuntime) -> Result<(), Fail> {
    let mut reader = Counted::new(VecDeque::from_array(rt.alloc(), *b"lock m\n")?);
    assert!(rt; come_in_pieces(&mut reader)?);
    Ok(())
}

// Returns true if a writer takes all bytes and is given back.
fn is_given_back(alloc: Global) -> bool {
    let mut writer = Counted::new(VecDeque::new(alloc));
    let is_put = put(&mut writer, b"1 0\n").is_ok() && put(&mut writer, b"2 0\n").is_ok();
    let has_failed = writer.has_failed();
    let mut bytes = writer.into_inner();
    is_put && !has_failed && &*bytes.make_contiguous() == b"1 0\n2 0\n".as_slice()
}

#[test]
fn a_writer_takes_all_bytes_and_is_given_back(rt: HostRuntime) {
    assert!(rt; is_given_back(rt.alloc()));
}

// Returns true if a reader that fails at this call, or at none, has given these bytes in pieces of
// three.
fn has_given(
    alloc: Global,
    fails_at: u64,
    has_failed: bool,
    given: &[u8],
    left: &[u8],
) -> Result<bool, Fail> {
    let mut reader = Faulty::new(Vec::from_slice(alloc, b"abcdefg")?, 3, fails_at);
    let mut writer = Faulty::new(Vec::new(alloc), 100, 0);
    let is_copied = copy(&mut reader, &mut writer).is_ok();
    Ok(
        (is_copied, reader.has_failed()) == (!has_failed, has_failed)
            && writer.written() == given
            && reader.left() == left,
    )
}

// Returns true if each reader has given what came before its failure.
fn have_given(alloc: Global) -> Result<bool, Fail> {
    let table: [(u64, bool, &[u8], &[u8]); 6] = [
        (1, true, b"", b"abcdefg"),
        (2, true, b"abc", b"defg"),
        (3, true, b"abcdef", b"g"),
        (4, true, b"abcdefg", b""),
        (0, false, b"abcdefg", b""),
        (5, false, b"abcdefg", b""),
    ];
    for (fails_at, has_failed, given, left) in table {
        if !has_given(alloc, fails_at, has_failed, given, left)? {
            return Ok(false);
        }
    }
    Ok(true)
}

// Returns true if a writer that fails at this call has taken these bytes, two at a time.
fn has_taken(alloc: Global, fails_at: u64, taken: &[u8]) -> bool {
    let mut writer = Faulty::new(Vec::new(alloc), 2, fails_at);
    let is_put = put(&mut writer, b"1 0\n2").is_ok();
    !is_put && writer.has_failed() && writer.written() == taken
}

#[test]
fn a_failing_device_has_moved_what_came_before(rt: HostRuntime) -> Result<(), Fail> {
    let alloc = rt.alloc();
    assert!(rt;
        have_given(alloc)?
            && has_taken(alloc, 1, b"")
            && has_taken(alloc, 2, b"1 ")
            && has_taken(alloc, 3, b"1 0\n")
    );
    Ok(())
}

// Returns true if a read of a device that is unready this many times fails, or else gives its
// bytes, as `fails` says.
fn is_read(alloc: Global, times: u32, kind: ErrorKind, fails: bool) -> Result<bool, Fail> {
    let bytes = VecDeque::from_array(alloc, *b"abc")?;
    let mut reader = Counted::new(Unready { bytes, times, kind });
    let has_erred = reader.read(&mut [0; 8]).is_err();
    Ok(
        (has_erred, reader.has_failed()) == (fails, fails)
            && reader.device().bytes.is_empty() != fails,
    )
}

// Returns true if a write to a device that is unready this many times fails, or else leaves its
// bytes there, as `fails` says.
fn is_written(alloc: Global, times: u32, kind: ErrorKind, fails: bool) -> bool {
    let bytes = VecDeque::new(alloc);
    let mut writer = Counted::new(Unready { bytes, times, kind });
    let has_erred = writer.write(b"abc").is_err();
    (has_erred, writer.has_failed()) == (fails, fails) && writer.device().bytes.is_empty() == fails
}

// Returns true if only interruptions are tried again, up to sixteen times.
fn are_retried(alloc: Global) -> Result<bool, Fail> {
    for (kind, times, fails) in [
        (ErrorKind::Interrupted, 0, false),
        (ErrorKind::Interrupted, 1, false),
        (ErrorKind::Interrupted, 16, false),
        (ErrorKind::Interrupted, 17, true),
        (ErrorKind::WouldBlock, 1, true),
    ] {
        if !is_read(alloc, times, kind, fails)? || !is_written(alloc, times, kind, fails) {
            return Ok(false);
        }
    }
    Ok(true)
}

#[test]
fn only_interruptions_are_tried_again_and_sixteen_times(rt: HostRuntime) -> Result<(), Fail> {
    assert!(rt; are_retried(rt.alloc())?);
    Ok(())
}

fn moves_to_a_thread<T: Send>(_device: &T) {}

#[test]
fn a_socket_carries_bytes_until_it_is_closed(rt: HostRuntime) -> Result<(), Fail> {
    let (near, far) = UnixStream::pair(&rt)?;
    let mut writer = Counted::new(near);
    let mut reader = Counted::new(far);
    moves_to_a_thread(&writer);
    let is_put = put(&mut writer, b"lock m\n").is_ok();
    drop(writer);
    let mut copied = Faulty::new(Vec::new(rt.alloc()), 100, 0);
    moves_to_a_thread(&copied);
    let is_copied = copy(&mut reader, &mut copied).is_ok();
    let is_whole = copied.written() == b"lock m\n".as_slice();
    assert!(rt; is_put && is_copied && is_whole && reader.has_ended());
    Ok(())
}
