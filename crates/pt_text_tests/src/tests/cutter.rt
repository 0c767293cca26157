ghost use Rattle.std.specs.Prelude.{◌≤◌};

use super::lend;
use linked_list_allocator::LocalHeap;
use pt_lines::{CallLine, Cut, Cutter, cut_all};
use pt_types::{Call, Name, Refusal};
use std::alloc::{Allocator, Global};
use std::test::Fail;

// Appends lines, each with a bar after it.
fn show(text: &mut Vec<u8>, cuts: &[Cut]) -> Result<(), Fail> {
    for cut in cuts {
        match cut {
            Cut::Line(line) => text.extend_from_slice(line.as_slice())?,
            Cut::Long => text.extend_from_slice(b"LONG")?,
        }
        text.push(b'|')?;
    }
    Ok(())
}

// Returns true if the lines of the pieces are these, each with a bar after it.
fn are_lines(alloc: Global, pieces: &[&[u8]], expected: &[u8]) -> Result<bool, Fail> {
    let cuts = cut_all(alloc, pieces)?;
    let mut text = Vec::new(alloc);
    show(&mut text, &cuts)?;
    Ok(text.as_slice() == expected)
}

// Returns true if these pieces are cut at their newlines.
fn are_cut_at_newlines(alloc: Global) -> Result<bool, Fail> {
    let table: [(&[&[u8]], &[u8]); 9] = [
        (&[b"hel", b"lo 5\nlo", b"ck m\n"], b"hello 5|lock m|"),
        (&[], b""),
        (&[b"", b""], b""),
        (&[b"\n"], b"|"),
        (&[b"a\n\nb\n"], b"a||b|"),
        (&[b"a\nb"], b"a|b|"),
        (&[b"a", b"", b"b\nc", b"\n"], b"ab|c|"),
        (&[b"a\r\n\x00b\n"], b"a\r|\x00b|"),
        (&[b"a\n", b"\n", b""], b"a||"),
    ];
    for (pieces, expected) in table {
        if !are_lines(alloc, pieces, expected)? {
            return Ok(false);
        }
    }
    Ok(true)
}

#[test]
fn cuts_at_newlines(rt: HostRuntime) -> Result<(), Fail> {
    assert!(rt; are_cut_at_newlines(rt.alloc())?);
    Ok(())
}

// Returns true if these lines are given, wherever the bytes are cut in two.
fn is_given_at_each_cut(alloc: Global, bytes: &[u8], expected: &[u8]) -> Result<bool, Fail> {
    for at in 0..bytes.len() {
        let (front, back) = bytes.split_at(at);
        if !are_lines(alloc, &[front, back], expected)? {
            return Ok(false);
        }
    }
    Ok(true)
}

// Returns true if a line of this many bytes and one more line are given, the first one as its bytes
// or as too long.
fn is_line_given(alloc: Global, count: usize, is_long: bool) -> Result<bool, Fail>
    requires { count ≤ 10000 }
{
    let mut bytes = [b'x'; 10_008];
    bytes[count..count + 8].copy_from_slice(b"\nlock m\n");
    let mut marked = [b'x'; 10_008];
    marked[count..count + 8].copy_from_slice(b"|lock m|");
    let expected = if is_long {
        b"LONG|lock m|".as_slice()
    } else {
        &marked[..count + 8]
    };
    is_given_at_each_cut(alloc, &bytes[..count + 8], expected)
}

// Returns true if lines of up to 128 bytes are given, and longer ones are too long.
fn are_lines_limited(alloc: Global) -> Result<bool, Fail> {
    Ok(
        is_line_given(alloc, 127, false)?
            && is_line_given(alloc, 128, false)?
            && is_line_given(alloc, 129, true)?
            && is_line_given(alloc, 10_000, true)?,
    )
}

#[test]
fn a_line_has_up_to_128_bytes(rt: HostRuntime) -> Result<(), Fail> {
    assert!(rt; are_lines_limited(rt.alloc())?);
    Ok(())
}

// Feeds a piece, takes its lines, and counts those that are too long.
fn count_long<A: Allocator + Copy>(cutter: &mut Cutter<A>, piece: &[u8]) -> Result<usize, Fail> {
    cutter.feed(piece)?;
    let mut long: usize = 0;
    while let Some(cut) = cutter.next_line() {
        if cut == Cut::Long {
            long = long.saturating_add(1);
        }
    }
    Ok(long)
}

// Returns how often a line of this many bytes is reported as too long when it is fed byte by byte.
fn count_long_by_bytes(cutter: &mut Cutter, count: usize) -> Result<usize, Fail> {
    let mut long: usize = 0;
    for _ in 0..count {
        long = long.saturating_add(count_long(cutter, b"x")?);
    }
    Ok(long)
}

// Returns true if lines of these lengths, fed byte by byte, are reported as too long this often.
fn are_long_counted(alloc: Global) -> Result<bool, Fail> {
    for (count, long) in [(128, 0), (129, 1), (130, 1), (10_000, 1)] {
        let long_count = lend(
            Cutter::new(alloc),
            |cutter| count_long_by_bytes(cutter, count),
        );
        if long_count? != long {
            return Ok(false);
        }
    }
    Ok(true)
}

// Returns true if a line is too long as soon as its 129th byte comes, and is reported once.
fn is_long_given_once(cutter: &mut Cutter) -> Result<bool, Fail> {
    cutter.feed(&[b'x'; 128])?;
    let early = cutter.next_line();
    cutter.feed(b"x")?;
    let long = cutter.next_line();
    let later = cutter.next_line();
    Ok(early.is_none() && long == Some(Cut::Long) && later.is_none())
}

// Returns true if nothing is left of a line that was too long when the input ends.
fn is_nothing_left(alloc: Global) -> Result<bool, Fail> {
    let mut cutter = Cutter::new(alloc);
    cutter.feed(&[b'x'; 129])?;
    let long = cutter.next_line();
    if cutter.next_line().is_some() {
        return Ok(false);
    }
    let rest = cutter.finish();
    Ok(long == Some(Cut::Long) && rest.is_none())
}

#[test]
fn long_comes_once_with_the_129th_byte(rt: HostRuntime) -> Result<(), Fail> {
    let alloc = rt.alloc();
    assert!(rt;
        are_long_counted(alloc)?
            && lend(Cutter::new(alloc), is_long_given_once)?
            && is_nothing_left(alloc)?
    );
    Ok(())
}

// Returns true if the next line of a connection has come and is read as this.
fn is_next_call_line(cutter: &mut Cutter, expected: Result<CallLine, Refusal>) -> bool {
    cutter.next_call_line() == Some(expected)
}

// Returns true if a whole line, a line outside the grammar and a line that is too long are read in
// turn.
fn are_whole_lines_read(cutter: &mut Cutter) -> Result<bool, Fail> {
    let call = Call::Lock(Name::new(b"m").ok_or("name")?);
    cutter.feed(b"lock m\nlokc m\n")?;
    cutter.feed(&[b'x'; 129])?;
    Ok(
        is_next_call_line(cutter, Ok(CallLine::Ask(call)))
            && is_next_call_line(cutter, Err(Refusal::Syntax))
            && is_next_call_line(cutter, Err(Refusal::Long))
            && cutter.next_call_line().is_none(),
    )
}

// Returns true if a line that comes in two pieces is read with the second piece. The first piece
// also ends a line that was too long.
fn is_line_in_two_pieces_read(cutter: &mut Cutter) -> Result<bool, Fail> {
    let call = Call::Unlock(Name::new(b"m").ok_or("name")?);
    cutter.feed(b"xx\nunlo")?;
    let early = cutter.next_call_line();
    cutter.feed(b"ck m\n")?;
    Ok(early.is_none() && is_next_call_line(cutter, Ok(CallLine::Ask(call))))
}

// Returns true if lines of a connection are read in place, and lines that are not whole are not
// read.
fn are_call_lines_read(cutter: &mut Cutter) -> Result<bool, Fail> {
    Ok(are_whole_lines_read(cutter)? && is_line_in_two_pieces_read(cutter)?)
}

#[test]
fn lines_of_a_connection_are_read(rt: HostRuntime) -> Result<(), Fail> {
    assert!(rt; lend(Cutter::new(rt.alloc()), are_call_lines_read)?);
    Ok(())
}

// Returns true if a cutter never takes more than 65,536 bytes of its heap while a piece is fed this
// many times.
fn stays_bounded(heap: &LocalHeap, piece: &[u8], times: usize) -> Result<bool, Fail> {
    lend(Cutter::new(heap), |cutter| {
        for _ in 0..times {
            count_long(cutter, piece)?;
            if heap.used() > 65_536 {
                return Ok(false);
            }
        }
        Ok(true)
    })
}

// Does what `stays_bounded` does, with a heap of 1 MB.
fn takes_little_memory(alloc: Global, piece: &[u8], times: usize) -> Result<bool, Fail> {
    let heap = LocalHeap::new(alloc, 1 << 20)?;
    stays_bounded(&heap, piece, times)
}

#[test]
fn lines_take_little_memory(rt: HostRuntime) -> Result<(), Fail> {
    let alloc = rt.alloc();
    let lines = b"lock m\ntimedlock some_name 1 2\nunl";
    assert!(rt;
        takes_little_memory(alloc, &[b'x'; 4096], 25_600)?
            && takes_little_memory(alloc, lines, 100_000)?
    );
    Ok(())
}
