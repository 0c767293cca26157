use clap::Error;
use pt_command::command;
use std::alloc::Global;
use std::test::Fail;

// Returns the exit status that clap gives for these words, or 0 if the program is to run.
fn exit_of(alloc: Global, words: &[&str]) -> Result<i32, Fail> {
    match command(alloc)?.try_get_matches_from(words) {
        Ok(_) => Ok(0),
        Err(error) => Ok(error.exit_code()),
    }
}

// Returns true if these words give the exit statuses of the table.
fn are_statuses_given(alloc: Global) -> Result<bool, Fail> {
    let table: [(&[&str], i32); 12] = [
        (&["ptserver", "script"], 0),
        (&["ptserver", "explain"], 0),
        (&["ptserver", "check"], 0),
        (&["ptserver", "check", "one", "two"], 0),
        (&["ptserver", "check", "--late", "one"], 0),
        (&["ptserver", "--help"], 0),
        (&["ptserver", "--version"], 0),
        (&["ptserver"], 2),
        (&["ptserver", "serves"], 2),
        (&["ptserver", "script", "more"], 2),
        (&["ptserver", "explain", "more"], 2),
        (&["ptserver", "check", "--later"], 2),
    ];
    for (words, status) in table {
        if exit_of(alloc, words)? != status {
            return Ok(false);
        }
    }
    Ok(true)
}

// Returns true if these options of `serve` give the exit statuses of the table.
fn are_services_parsed(alloc: Global) -> Result<bool, Fail> {
    let table: [(&[&str], i32); 7] = [
        (&["--socket", "p"], 0),
        (&[], 2),
        (&["--socket"], 2),
        (&["--socket", "p", "--clock", "system"], 0),
        (&["--socket", "p", "--clock", "sun"], 2),
        (&["--socket", "p", "--sessions", "18446744073709551615"], 0),
        (&["--socket", "p", "--sessions", "18446744073709551616"], 2),
    ];
    for (options, status) in table {
        let mut words = vec![in alloc; "ptserver", "serve"]?;
        words.extend_from_slice(options)?;
        if exit_of(alloc, words.as_slice())? != status {
            return Ok(false);
        }
    }
    Ok(true)
}

#[test]
fn command_lines(rt: HostRuntime) -> Result<(), Fail> {
    assert!(rt; are_statuses_given(rt.alloc())?);
    Ok(())
}

#[test]
fn service_lines(rt: HostRuntime) -> Result<(), Fail> {
    assert!(rt; are_services_parsed(rt.alloc())?);
    Ok(())
}
