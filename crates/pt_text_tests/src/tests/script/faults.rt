ghost use Rattle.std.specs.Prelude.{◌≤◌};

use super::*;
use pt_io::Counted;
use std::collections::VecDeque;
use std::io;
use std::io::{BufWriter, Write};

// Returns how many bytes of answers are due after this many bytes of the script of two clients.
pub fn due(given: usize) -> usize
    ensures { result ≤ 36 }
{
    match given {
        0..11 => 0,
        11..22 => 6,
        22..52 => 12,
        52..61 => 18,
        61..81 => 24,
        _ => 36,
    }
}

// A writer that accepts this many bytes, and then none.
#[derive(Drop)]
struct Filling {
    room: usize,
}

impl Write for Filling {
    fn write(&mut self, buf: &[u8]) -> io::Result<usize> {
        let n = buf.len().min(self.room);
        self.room -= n;
        Ok(n)
    }

    fn flush(&mut self) -> io::Result<()> {
        Ok(())
    }
}

// Returns the exit status of the script of two clients if a call of one of these devices fails, and
// what was written and reported.
fn answered(
    alloc: Global,
    read_fails_at: u64,
    write_fails_at: u64,
) -> Result<(u8, Faulty, Faulty), Fail> {
    let mut reader = reader(alloc, TWO_CLIENTS, 1, read_fails_at)?;
    let mut writer = Faulty::new(Vec::new(alloc), 4096, write_fails_at);
    let mut errors = Faulty::new(Vec::new(alloc), 4096, 0);
    let status = answer(core(alloc)?, alloc, &mut reader, &mut writer, &mut errors);
    Ok((status, writer, errors))
}

#[test]
fn at_the_limit_of_reads_all_whole_lines_are_answered(rt: HostRuntime) -> Result<(), Fail> {
    let alloc = rt.alloc();
    for reads in 0..=81 {
        let mut reader = reader(alloc, TWO_CLIENTS, 1, 0)?;
        let mut writer = Faulty::new(Vec::new(alloc), 4096, 0);
        let ended = play_within(alloc, reads, &mut reader, &mut writer);
        assert!(rt; matches!(ended, Err(ScriptFault::Read)), "with {reads}");
        assert_eq!(rt; writer.written().len(), due(reads as usize), "with {reads}");
    }
    Ok(())
}

#[test]
fn a_failing_flush_is_a_write_fault(rt: HostRuntime) -> Result<(), Fail> {
    let alloc = rt.alloc();
    for (fails_at, written) in [(2, 6), (4, 12), (6, 18), (8, 24), (10, 36)] {
        let mut reader = reader(alloc, TWO_CLIENTS, 1, 0)?;
        let mut writer = Faulty::new(Vec::new(alloc), 4096, fails_at);
        let ended = play(alloc, &mut reader, &mut writer);
        assert!(rt; matches!(ended, Err(ScriptFault::Write)), "at {fails_at}");
        assert_eq!(rt;
            writer.written(),
            &TWO_CLIENTS_REPLIES[..written],
            "at {fails_at}"
        );
    }
    Ok(())
}

#[test]
fn a_writer_that_takes_no_byte_is_a_write_fault(rt: HostRuntime) -> Result<(), Fail> {
    let alloc = rt.alloc();
    for room in [0, 1, 35] {
        let mut reader = reader(alloc, TWO_CLIENTS, 4096, 0)?;
        let mut writer = Counted::new(Filling { room });
        let ended = play(alloc, &mut reader, &mut writer);
        assert!(rt; matches!(ended, Err(ScriptFault::Write)), "for {room}");
        assert!(rt; !writer.has_failed(), "for {room}");
    }
    Ok(())
}

#[test]
fn no_answer_waits_in_a_buffer(rt: HostRuntime) -> Result<(), Fail> {
    let alloc = rt.alloc();
    for (reads, written) in [(61, 24), (81, 36)] {
        let mut reader = reader(alloc, TWO_CLIENTS, 1, 0)?;
        let mut writer = Counted::new(BufWriter::new(alloc, VecDeque::new(alloc))?);
        let ended = play_within(alloc, reads, &mut reader, &mut writer);
        assert!(rt; ended.is_err());
        assert!(rt; writer.device().buffer().is_empty());
        assert_eq!(rt; writer.device().get_ref().len(), written);
    }
    Ok(())
}

#[test]
fn a_program_reports_the_fault_of_a_device(rt: HostRuntime) -> Result<(), Fail> {
    let alloc = rt.alloc();
    for (read_fails_at, write_fails_at, fault, written) in [
        (62, 0, ScriptFault::Read, 24),
        (0, 3, ScriptFault::Write, 6),
        (0, 4, ScriptFault::Write, 12),
    ] {
        let (status, writer, errors) = answered(alloc, read_fails_at, write_fails_at)?;
        assert_eq!(rt; status, 3);
        assert_eq!(rt; writer.written(), &TWO_CLIENTS_REPLIES[..written]);
        let report = format!(in alloc; "ptserver: {fault}\n")?;
        assert_eq!(rt; errors.written(), report.as_bytes());
    }
    let (status, writer, errors) = answered(alloc, 0, 0)?;
    assert_eq!(rt; status, 0);
    assert_eq!(rt; writer.written(), TWO_CLIENTS_REPLIES);
    assert!(rt; errors.written().is_empty());
    Ok(())
}

#[test]
fn a_program_reports_want_of_memory(rt: HostRuntime) -> Result<(), Fail> {
    let alloc = rt.alloc();
    let heap = Refusing::new(alloc, 1);
    let mut reader = reader(alloc, TWO_CLIENTS, 4096, 0)?;
    let mut writer = Faulty::new(Vec::new(alloc), 4096, 0);
    let mut errors = Faulty::new(Vec::new(alloc), 4096, 0);
    let status = answer(core(alloc)?, &heap, &mut reader, &mut writer, &mut errors);
    assert_eq!(rt; status, 5);
    assert!(rt; writer.written().is_empty());
    assert_eq!(rt; errors.written(), b"ptserver: out of memory\n".as_slice());
    Ok(())
}
