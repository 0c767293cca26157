use super::first_cut;
use pt_lines::{ClientName, Cut, ScriptBody, ScriptLine, Who, read_script_line};
use pt_types::{Call, Clock, Moment, Name, Priority, Refusal};
use std::test::Fail;

// Returns true if a line of a script is this client's, and is refused for this reason.
fn is_refused(text: &[u8], who: &[u8], refusal: Refusal) -> bool {
    let line = read_script_line(text);
    line.who.as_bytes() == who && line.body == Err(refusal)
}

// Returns true if each of these lines is its client's, and is refused.
fn are_refused() -> bool {
    let table: [(&[u8], &[u8]); 26] = [
        (b"", b"?"),
        (b" ", b"?"),
        (b" A lock m", b"?"),
        (b"A", b"A"),
        (b"A ", b"A"),
        (b"A  lock m", b"A"),
        (b"A lock m ", b"A"),
        (b"A lokc m", b"A"),
        (b"A lock m\r", b"A"),
        (b"A\tlock m", b"?"),
        (b"A\x00 lock m", b"?"),
        (b"A\r", b"?"),
        (b"*", b"*"),
        (b"* ", b"*"),
        (b"* lock m", b"*"),
        (b"* hello 1", b"*"),
        (b"* die", b"*"),
        (b"* moment 1 1000000000", b"*"),
        (b"* mono-moment 1 1000000000", b"*"),
        (b"* clocklock m mono 1 0", b"*"),
        (b"A moment 1 0", b"A"),
        (b"A mono-moment 1 0", b"A"),
        (b"A clocklock m boot 1 0", b"A"),
        (b"A die now", b"A"),
        (b"abcdefghi lock m", b"?"),
        (b"? lock m", b"?"),
    ];
    for (text, who) in table {
        if !is_refused(text, who, Refusal::Syntax) {
            return false;
        }
    }
    is_refused(&[b'A'; 128], b"?", Refusal::Syntax)
        && is_refused(&[b'A'; 129], b"?", Refusal::Long)
        && ScriptLine::of(&Cut::Long) == ScriptLine::long()
}

#[test]
fn script_lines_with_faults(rt: HostRuntime) {
    assert!(rt; are_refused());
}

// Returns true if a line is this client's, and has this body.
fn is_read(text: &[u8], who: &[u8], body: ScriptBody) -> bool {
    let line = read_script_line(text);
    line.who.as_bytes() == who && line.body == Ok(body)
}

// Returns true if a call, a hello and a die are read with their clients.
fn are_client_lines_read() -> bool {
    let (Some(m), Some(max)) = (Name::new(b"m"), Priority::new(99)) else {
        return false;
    };
    is_read(
        b"abcdEF90 lock m",
        b"abcdEF90",
        ScriptBody::Ask(Call::Lock(m)),
    ) && is_read(b"0 hello 99", b"0", ScriptBody::Hello(max))
        && ClientName::new(b"0").map(Who::Named) == Some(read_script_line(b"0 hello 99").who)
        && is_read(b"A die", b"A", ScriptBody::Die)
}

// Returns true if this line is a moment of one second of this clock.
fn is_tick(text: &[u8], clock: Clock) -> bool {
    let line = read_script_line(text);
    let tick = Moment::new(1, 0).map(|moment| ScriptBody::Tick(clock, moment));
    line.who == Who::Star && tick.is_some() && line.body.ok() == tick
}

// The longest line, of 111 bytes.
const LONGEST: &[u8] = b"abcdefgh clockwait xxxxxxxxxxxxxxxxxxxxxxxxxxxxxxxx \
    yyyyyyyyyyyyyyyyyyyyyyyyyyyyyyyy real 9999999999 9999999999";

#[test]
fn script_lines_of_clients_and_the_clocks(rt: HostRuntime) {
    assert!(rt;
        are_client_lines_read()
            && is_tick(b"* moment 1 0", Clock::Real)
            && is_tick(b"* mono-moment 1 0", Clock::Mono)
            && LONGEST.len() == 111
            && matches!(read_script_line(LONGEST).body, Ok(ScriptBody::Ask(_)))
    );
}

// Returns true if texts are accepted as clients' names exactly as the table says.
fn are_client_names_read() -> bool {
    let table: [(&[u8], bool); 8] = [
        (b"", false),
        (b"Z", true),
        (b"abcdefgh", true),
        (b"abcdefghi", false),
        (b"a_b", false),
        (b"a-b", false),
        (b"*", false),
        (b"\xc3\xa4", false),
    ];
    for (name, valid) in table {
        if ClientName::new(name).is_some() != valid {
            return false;
        }
    }
    true
}

#[test]
fn clients_of_1_to_8_letters_or_digits(rt: HostRuntime) {
    assert!(rt; are_client_names_read());
}

#[test]
fn a_cut_line_is_read(rt: HostRuntime) -> Result<(), Fail> {
    let cut = first_cut(rt.alloc(), b"A die\n")?;
    assert!(rt; ScriptLine::of(&cut).body == Ok(ScriptBody::Die));
    Ok(())
}
