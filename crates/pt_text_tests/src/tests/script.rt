ghost use Rattle.std.specs.Prelude.{◌≡◌, ◌<◌, ◌≤◌, ◌^◌, [], false, IfOk};
ghost use Rattle.pt_model.specs.Starts.{empty_start};
ghost use Rattle.pt_legal.specs.Cores.{core_state};
ghost use Rattle.pt_engine.specs.Scripts.{entries_between_seals};

use super::lend;
use pt_core::Core;
use pt_failing_alloc::{Refusing, refuse_each};
use pt_io::{Faulty, Sink, Source};
use pt_script::{ENTRIES_BETWEEN_SEALS, ScriptEnd, ScriptFault, answer, script, script_within};
use std::alloc::{Allocator, Global};
use std::process::Abort;
use std::test::Fail;

mod faults;

// A script of two clients, the second of which waits for a mutex of the first.
const TWO_CLIENTS: &[u8] = b"A hello 10\nB hello 20\nA mutex-init m normal stalled\n\
    A lock m\nB lock m\nA unlock m\n";

const TWO_CLIENTS_REPLIES: &[u8] = b"A 1 0\nB 1 0\nA 2 0\nA 3 0\nA 4 0\nB 2 0\n";

// Returns a device that gives these bytes, up to `step` of them per call, and fails at a call.
fn reader<A: Allocator + Copy>(
    alloc: A,
    bytes: &[u8],
    step: usize,
    fails_at: u64,
) -> Result<Faulty<A>, Fail>
    requires { 0 < step }
    ensures { IfOk result
        (λ r. (r.given ≡ []) × (r.has_failed ≡ false) × (r.has_ended ≡ false)) }
{
    Ok(Faulty::new(Vec::from_slice(alloc, bytes)?, step, fails_at))
}

// Returns the core of a script.
fn core<A: Allocator + Copy>(alloc: A) -> Result<Core<A>, ScriptFault>
    ensures { IfOk result (λ core. core_state core
        ≡ record { start = empty_start; entries = []; limit = entries_between_seals }) }
{
    match Core::with_limit(alloc, ENTRIES_BETWEEN_SEALS) {
        Ok(core) => Ok(core),
        Err(_) => Err(ScriptFault::Memory),
    }
}

// Runs a script over a core of its own.
fn play<R: Source, W: Sink, A: Allocator + Copy>(
    alloc: A,
    reader: &mut R,
    writer: &mut W,
) -> Result<ScriptEnd, ScriptFault>
    requires fresh { (R.given reader.old ≡ []) × (W.taken writer.old ≡ [])
        × (R.ended reader.old ≡ false) }
    requires working { (R.failures reader.old ≡ 0) × (W.failures writer.old ≡ 0) }
{
    script(core(alloc)?, alloc, reader, writer)
}

// Runs a script with at most this many reads.
fn play_within<R: Source, W: Sink, A: Allocator + Copy>(
    alloc: A,
    reads: u64,
    reader: &mut R,
    writer: &mut W,
) -> Result<ScriptEnd, ScriptFault>
    requires fresh { (R.given reader.old ≡ []) × (W.taken writer.old ≡ [])
        × (R.ended reader.old ≡ false) }
    requires working { (R.failures reader.old ≡ 0) × (W.failures writer.old ≡ 0) }
    requires within { reads ≤ 2 ^ 40 }
{
    script_within(core(alloc)?, alloc, reads, reader, writer)
}

// Writes the answers to this input, which is read to its end.
fn tell(alloc: Global, bytes: &[u8], step: usize, writer: &mut Faulty) -> Result<ScriptEnd, Fail>
    requires step { 0 < step }
    requires fresh { writer.old.taken ≡ [] }
    requires working { writer.old.has_failed ≡ false }
{
    let mut reader = reader(alloc, bytes, step, 0)?;
    let ended = play(alloc, &mut reader, writer);
    drop(reader);
    Ok(ended?)
}

// Returns what is written for this input, which is read to its end.
fn run_script(alloc: Global, bytes: &[u8], step: usize) -> Result<(Faulty, ScriptEnd), Fail>
    requires { 0 < step }
{
    let mut writer = Faulty::new(Vec::new(alloc), 4096, 0);
    let end = tell(alloc, bytes, step, &mut writer)?;
    Ok((writer, end))
}

#[test]
fn the_answer_comes_before_the_grant(rt: HostRuntime) -> Result<(), Fail> {
    for step in [1, 2, 7, 4096] {
        let (writer, end) = run_script(rt.alloc(), TWO_CLIENTS, step)?;
        assert_eq!(rt;
            writer.written(),
            TWO_CLIENTS_REPLIES,
            "in pieces of {step}"
        );
        assert_eq!(rt; end.lines, 6);
        assert_eq!(rt; end.entries, 8);
    }
    Ok(())
}

// Returns a script with refused lines among others. One of them has 129 bytes.
fn lines_refused(alloc: Global) -> Result<Vec<u8>, Fail> {
    let mut input = Vec::from_slice(alloc, b"A lock m\n")?;
    input.extend_from_slice(&[b'x'; 129])?;
    input.extend_from_slice(
        b"\nA hello 100\nA hello 99\nA hello 99\nA lokc m\nA lock m\nA die\nA lock m\nB die\n\
        \n* moment 1 1000000000\nB hello 1",
    )?;
    Ok(input)
}

#[test]
fn refused_lines_are_answered_and_counted(rt: HostRuntime) -> Result<(), Fail> {
    lend(
        lines_refused(rt.alloc())?,
        |input| play_refused_lines(&rt, rt.alloc(), input.as_slice()),
    )
}

fn play_refused_lines(rt: &impl Abort, alloc: Global, input: &[u8]) -> Result<(), Fail> {
    for step in [1, 4096] {
        let (writer, end) = run_script(alloc, input, step)?;
        assert_eq!(rt;
            writer.written(),
            b"A 1 NOHELLO\n? 1 LONG\nA 2 SYNTAX\nA 3 0\n\
            A 4 NOHELLO\nA 5 SYNTAX\nA 6 EINVAL\nA 8 DEAD\nB 1 NOHELLO\n? 2 SYNTAX\n\
            * 1 SYNTAX\nB 2 0\n"
                .as_slice()
        );
        assert_eq!(rt; end.lines, 13);
        assert_eq!(rt; end.entries, 4);
    }
    Ok(())
}

#[test]
fn a_dead_name_stays_dead_and_a_refused_hello_may_come_again(rt: HostRuntime) -> Result<(), Fail> {
    let (writer, _) = run_script(
        rt.alloc(),
        b"A hello 0\nA hello 1\nA die\nA hello 1\nA\nA die\n* moment 1 0\n* lock m\n",
        4096,
    )?;
    assert_eq!(rt;
        writer.written(),
        b"A 1 SYNTAX\nA 2 0\nA 4 DEAD\nA 5 SYNTAX\nA 6 DEAD\n* 2 SYNTAX\n".as_slice()
    );
    Ok(())
}

// Returns a script in which a call waits, `count` moments come, and the owner for which the call
// waits dies.
fn many_moments(alloc: Global, count: usize) -> Result<Vec<u8>, Fail> {
    let mut input = Vec::from_slice(
        alloc,
        b"A hello 10\nB hello 20\nA mutex-init m normal robust\nA lock m\nB lock m\n",
    )?;
    for _ in 0..count {
        input.extend_from_slice(b"* moment 1 0\n")?;
    }
    input.extend_from_slice(b"A die\n")?;
    Ok(input)
}

// The history is sealed at 65,536 entries, while the call waits.
#[test]
fn a_call_that_waits_past_a_seal_is_answered(rt: HostRuntime) -> Result<(), Fail> {
    lend(many_moments(rt.alloc(), 70000)?, |input| {
        let (writer, end) = run_script(rt.alloc(), input.as_slice(), 4096)?;
        assert_eq!(rt;
            writer.written(),
            b"A 1 0\nB 1 0\nA 2 0\nA 3 0\nB 2 EOWNERDEAD\n".as_slice()
        );
        assert_eq!(rt; end.lines, 70006);
        Ok(())
    })
}

#[test]
fn a_failing_read_leaves_the_answers_of_the_lines_before(rt: HostRuntime) -> Result<(), Fail> {
    let alloc = rt.alloc();
    for fails_at in 1..=82 {
        let mut reader = reader(alloc, TWO_CLIENTS, 1, fails_at)?;
        let mut writer = Faulty::new(Vec::new(alloc), 4096, 0);
        let ended = play(alloc, &mut reader, &mut writer);
        assert!(rt; matches!(ended, Err(ScriptFault::Read)), "at {fails_at}");
        let due = faults::due(fails_at as usize - 1);
        assert_eq!(rt;
            writer.written(),
            &TWO_CLIENTS_REPLIES[..due],
            "at {fails_at}"
        );
    }
    Ok(())
}

#[test]
fn a_failing_write_leaves_a_prefix(rt: HostRuntime) -> Result<(), Fail> {
    let alloc = rt.alloc();
    for fails_at in 1..=12 {
        let mut reader = reader(alloc, TWO_CLIENTS, 4096, 0)?;
        let mut writer = Faulty::new(Vec::new(alloc), 3, fails_at);
        let ended = play(alloc, &mut reader, &mut writer);
        assert!(rt; matches!(ended, Err(ScriptFault::Write)), "at {fails_at}");
        assert!(rt;
            TWO_CLIENTS_REPLIES.starts_with(writer.written()),
            "at {fails_at}"
        );
        assert_eq!(rt; writer.written().len() as u64, 3 * (fails_at - 1));
    }
    Ok(())
}

#[test]
fn the_read_that_tells_the_end_counts(rt: HostRuntime) -> Result<(), Fail> {
    let alloc = rt.alloc();
    for (input, reads, is_ok) in [
        (b"".as_slice(), 0, false),
        (b"".as_slice(), 1, true),
        (b"A hello 10\n".as_slice(), 2, false),
        (b"A hello 10\n".as_slice(), 3, false),
        (b"A hello 10\n".as_slice(), 4, true),
    ] {
        let mut reader = reader(alloc, input, 4, 0)?;
        let mut writer = Faulty::new(Vec::new(alloc), 4096, 0);
        let ended = play_within(alloc, reads, &mut reader, &mut writer);
        assert_eq!(rt;
            matches!(ended, Err(ScriptFault::Read)),
            !is_ok,
            "with {reads} reads"
        );
        assert_eq!(rt; ended.is_ok(), is_ok, "with {reads} reads");
        assert_eq!(rt;
            writer.written().is_empty(),
            reads < 3,
            "with {reads} reads"
        );
    }
    Ok(())
}

#[test]
fn a_refused_growth_is_answered_or_ends_the_script(rt: HostRuntime) -> Result<(), Fail> {
    let alloc = rt.alloc();
    let refused = refuse_each(alloc, 1000, |heap| -> Result<bool, Fail> {
        let mut reader = reader(alloc, TWO_CLIENTS, 4096, 0)?;
        let mut writer = Faulty::new(Vec::new(alloc), 4096, 0);
        match play(heap, &mut reader, &mut writer) {
            Ok(_) => Ok(writer.written() != TWO_CLIENTS_REPLIES),
            Err(fault) => {
                assert_eq!(rt; fault, ScriptFault::Memory);
                assert!(rt; writer.written().is_empty());
                Ok(true)
            }
        }
    })?;
    assert!(rt; refused.is_some_and(|count| count > 3));
    Ok(())
}

// The script of two clients, in which the mutex is made by two lines.
const TWO_INIT_LINES: &[u8] = b"A hello 10\nB hello 20\nA mutex-init m normal stalled\n\
    A mutex-init m normal stalled\nA lock m\nB lock m\nA unlock m\n";

// What is written for it if a growth is refused at the first of them.
const SECOND_INIT_REPLIES: &[u8] = b"A 1 0\nB 1 0\nA 2 ENOMEM\nA 3 0\nA 4 0\nA 5 0\nB 2 0\n";

#[test]
fn a_mutex_whose_growth_was_refused_is_made_by_the_next_line(rt: HostRuntime) -> Result<(), Fail> {
    let alloc = rt.alloc();
    let mut completed: u64 = 0;
    let refused = refuse_each(alloc, 1000, |heap| -> Result<bool, Fail> {
        let mut reader = reader(alloc, TWO_INIT_LINES, 4096, 0)?;
        let mut writer = Faulty::new(Vec::new(alloc), 4096, 0);
        let ended = play(heap, &mut reader, &mut writer);
        if ended.is_ok() && writer.written() == SECOND_INIT_REPLIES {
            completed = completed.saturating_add(1);
        }
        Ok(false)
    })?;
    assert!(rt; refused.is_some());
    assert!(rt; completed > 1);
    Ok(())
}

#[test]
fn a_read_takes_up_to_4096_bytes(rt: HostRuntime) -> Result<(), Fail> {
    let alloc = rt.alloc();
    for (len, is_ok) in [(4096, true), (4097, false)] {
        let mut reader = Faulty::new(Vec::from_elem(alloc, b'x', len)?, 10_000, 0);
        let mut writer = Faulty::new(Vec::new(alloc), 4096, 0);
        let ended = play_within(alloc, 2, &mut reader, &mut writer);
        assert_eq!(rt; ended.is_ok(), is_ok, "of {len} bytes");
        assert_eq!(rt;
            writer.written(),
            b"? 1 LONG\n".as_slice(),
            "of {len} bytes"
        );
    }
    Ok(())
}

#[test]
fn faults_have_texts(rt: HostRuntime) -> Result<(), Fail> {
    let alloc = rt.alloc();
    for (fault, text) in [
        (ScriptFault::Read, "read failed"),
        (ScriptFault::Write, "write failed"),
        (ScriptFault::Memory, "out of memory"),
    ] {
        assert_eq!(rt; format!(in alloc; "{fault}")?.as_str(), text);
    }
    Ok(())
}
