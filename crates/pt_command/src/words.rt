use clap::{Arg, ArgAction, Command, Error, value_parser};
use std::alloc::Global;

const ABOUT: &str = "\
POSIX mutexes, read-write locks, condition variables and barriers, shared by clients of fixed
priority. Every answer is proved to be what the rules say.";

const SCRIPT: &str = "Answers the lines of standard input on standard output, each as it comes";

const EXPLAIN: &str =
    "Shows what each line of a script added to the history and why, with its answers";

const CHECK: &str = "Says whether the answers in traces are those that the rules give";

const FILE: &str = "A trace; without one, standard input is read";

const LATE: &str = "Also take an answer after a later line, but before its client's next line";

const SERVE: &str = "Serves a Unix socket: each connection is a client, and its lines are calls";

const SOCKET: &str = "The path of the socket: no file may exist there yet, and it is not removed";

const CLOCK: &str = "What deadlines are compared with: the moment lines, or the system's clocks";

const SESSIONS: &str = "Accept this many connections, and end after they have; 0 sets no limit";

const TRACE: &str = "Write each event, with the answers that it brought, to this file, as a trace";

const CONNECTIONS: &str = "\
It writes `ready` once it listens. A connection sends one call a line, without a client's name, and
each line is answered with its number and a result:

  hello 10                       the connection is a client of priority 10 from here on
  mutex-init m normal robust
  lock m                         is answered `3 0` once it has the mutex

When a connection ends, its client dies. `ptserver script --help` lists the calls; `die` is not one
of them here. While a call waits, up to 16 more lines may be sent: one more ends the connection.

After the last of --sessions N connections it writes `closed` and the number of events, if no event
is missing.

Status: 0 done; 2 a wrong command line; 3 the socket, a thread or writing failed; 4 an event is
missing; 5 out of memory.";

const LINES: &str = "\
A line is a client's name and a call, separated by single spaces. The client comes first. There are
no comments and no empty lines, and a line ends with a newline alone.

  A hello 10                     client A joins with priority 10 (1 to 99, 99 the highest)
  A mutex-init m normal robust   makes the mutex m
  A lock m                       is answered once A has the mutex
  A die                          A's process ends
  * moment 5 0                   the clock real shows 5 seconds and 0 nanoseconds
  * mono-moment 5 0              and so does the clock mono

Calls, with S and N the seconds and nanoseconds of a deadline, and CLOCK real or mono:

  mutex-init NAME KIND ROBUST    KIND normal, default, errorcheck or recursive;
                                 ROBUST stalled or robust
  lock NAME      trylock NAME    timedlock NAME S N    clocklock NAME CLOCK S N
  unlock NAME    consistent NAME    mutex-destroy NAME
  rwlock-init NAME    rwunlock NAME    rwlock-destroy NAME
  rdlock NAME    tryrdlock NAME    timedrdlock NAME S N    clockrdlock NAME CLOCK S N
  wrlock NAME    trywrlock NAME    timedwrlock NAME S N    clockwrlock NAME CLOCK S N
  cond-init NAME    signal NAME    broadcast NAME    cond-destroy NAME
  wait NAME MUTEX    timedwait NAME MUTEX S N    clockwait NAME MUTEX CLOCK S N
  barrier-init NAME COUNT    bwait NAME    barrier-destroy NAME

An answer is the client's name, the number of its line, and a result:

  A 3 0                          A's third line is done
  B 2 EBUSY                      what POSIX calls the failure of B's second line
  B 4 BLOCKED                    a refusal, which changes nothing: B waits for an earlier call

A call that waits is answered when its wait ends: after a later line, or never.

Status: 0 done, whatever was answered; 2 a wrong command line; 3 reading or writing failed;
5 out of memory.

docs/RULES.md has the rules, and examples/ has scripts to try:

  ptserver script < examples/two-clients.script";

const ENTRIES: &str = "\
It reads what `ptserver script` reads. For each line it writes the line, the entries that the line
added to the history, or `refused`, and the answers that `script` writes, each after `>`. An entry
comes after its place, with the reason for it and the page that has the rule. Here A unlocks m, and
the call at place 5 gets it:

  A unlock m
      6  Call(0, unlock m, 0)         gives the mutex back                        [XSH mutex_unlock]
      7  Grant(5, 0)                  has the mutex                               [XSH mutex_unlock]
  > A 4 0
  > B 2 0

[profile] marks a rule that is a choice of this server. docs/RULES.md has all rules.

The entries are these. C is the number of a client, which is the place of its Join; the number of an
OBJECT is the place of the call that made it:

  Join(C, PRIORITY)              a client joins
  Call(C, CALL, ANSWER)          it makes a call; the answer is none if there is none yet
  Death(C)                       its process ends
  Moment(CLOCK, S, N)            a clock shows S seconds and N nanoseconds
  Grant(PLACE, ANSWER)           the call at this place gets what it waits for, and this answer
  Yield(OBJECT)                  the owner of a mutex is dead, and the next one may have it
  Trip(OBJECT)                   a barrier is full, and its calls are answered
  Expire(PLACE)                  the deadline of the call at this place is due

The output is a trace, which programs can read too: a line that is empty, or begins with a space, is
a remark. A line of the script that is empty, or begins with a space, `#`, `<` or `>`, is written
after `< `, and one of more than 128 bytes as `<`.

Status: 0 done, whatever was answered; 2 a wrong command line; 3 reading or writing failed;
5 out of memory.

`ptserver script --help` lists the calls. To try it:

  ptserver explain < examples/two-clients.script";

const TRACES: &str = "\
A trace is a script with the answers that an implementation gave. Each row of it is one of these:

  > B 2 EBUSY                    an answer that was seen; the word ? agrees with any answer
  # or a space, or nothing       a remark
  < text                         the line `text`, which may begin as any other row
  <                              a line of more than 128 bytes
  A lock m                       any other row is a line of a script

It agrees if the answers between each line and the next are those that `ptserver script` gives to
that line, in any order. Otherwise each difference is written: the line, the entries that it adds to
the history, and the answers, where `-` marks one that is due and `+` one that was seen in its
place. After a difference of two words that change nothing it goes on, and else it stops.

Status: 0 all agree; 2 a wrong command line; 3 reading or writing failed; 5 out of memory; 6 one
differs; 7 one has a row that begins with `> ` and is not an answer to a line before it.

`ptserver explain` writes traces. To try it:

  ptserver explain < examples/two-clients.script | ptserver check";

// Returns an option with its name, what its value is called, and what it is for.
fn option<'a>(alloc: Global, name: &'a str, value: &'a str, help: &'a str) -> Arg<'a> {
    Arg::new(alloc, name)
        .long(name)
        .value_name(value)
        .help(help)
}

fn socket<'a>(alloc: Global) -> Arg<'a> {
    option(alloc, "socket", "PATH", SOCKET)
        .required(true)
        .action(ArgAction::Set)
}

fn clock<'a>(alloc: Global) -> Arg<'a> {
    option(alloc, "clock", "CLOCK", CLOCK)
        .value_parser(["lines", "system"].as_slice())
        .default_value("lines")
}

fn sessions<'a>(alloc: Global) -> Arg<'a> {
    option(alloc, "sessions", "N", SESSIONS)
        .value_parser(value_parser!(u64))
        .default_value("0")
}

fn trace<'a>(alloc: Global) -> Arg<'a> {
    option(alloc, "trace", "FILE", TRACE).action(ArgAction::Set)
}

// Returns a word with its name, what it does, and what else its help says.
fn word<'a>(alloc: Global, name: &'a str, about: &'a str, more: &'a str) -> Command<'a> {
    Command::new(alloc, name).about(about).after_help(more)
}

fn files<'a>(alloc: Global) -> Arg<'a> {
    Arg::new(alloc, "FILE")
        .num_args(0..)
        .action(ArgAction::Append)
        .help(FILE)
}

fn late<'a>(alloc: Global) -> Arg<'a> {
    Arg::new(alloc, "late")
        .long("late")
        .action(ArgAction::SetTrue)
        .help(LATE)
}

// Returns the word `check` with its option and files.
fn check<'a>(alloc: Global) -> Result<Command<'a>, Error> {
    let args = Vec::from_array(alloc, [late(alloc), files(alloc)])?;
    Ok(word(alloc, "check", CHECK, TRACES).args(args)?)
}

// Returns the word `serve` with its options.
fn serve<'a>(alloc: Global) -> Result<Command<'a>, Error> {
    let options = Vec::from_array(
        alloc,
        [socket(alloc), clock(alloc), sessions(alloc), trace(alloc)],
    )?;
    Ok(word(alloc, "serve", SERVE, CONNECTIONS).args(options)?)
}

/// Returns the command line: `script`, `explain`, `check`, `serve`, `--help` and `--version`.
pub fn command<'a>(alloc: Global) -> Result<Command<'a>, Error> {
    let serve = serve(alloc)?;
    let check = check(alloc)?;
    let script = word(alloc, "script", SCRIPT, LINES);
    let explain = word(alloc, "explain", EXPLAIN, ENTRIES);
    let words = Vec::from_array(alloc, [script, explain, check, serve])?;
    let program = word(alloc, "ptserver", ABOUT, LINES)
        .version("0.1.0")
        .subcommand_required(true);
    Ok(program.subcommands(words)?.bin_name("ptserver")?)
}
