use crate::case::Case;
use anyhow::{Context, Result};
use std::fs;

// Adds the paths of everything in a folder, in the order of their names.
fn list(rt: &HostRuntime, folder: &str, paths: &mut Vec<String>) -> Result<()> {
    for entry in fs::read_dir(rt, folder).context(format_args!("{folder}"))? {
        paths.push(String::from_str(rt.alloc(), entry?.path().as_str())?)?;
    }
    paths.sort()?;
    Ok(())
}

// Reads the bytes of a file whose path is given in two parts.
fn read(rt: &HostRuntime, path: &str, ending: &str) -> Result<Vec<u8>> {
    let path = format!(in rt.alloc(); "{path}.{ending}")?;
    fs::read(rt, path.as_str()).context(format_args!("{path}"))
}

fn read_case(rt: &HostRuntime, path: &str) -> Result<Case> {
    Ok(Case {
        path: String::from_str(rt.alloc(), path)?,
        script: read(rt, path, "script")?,
        expected: read(rt, path, "expected")?,
    })
}

// Adds the cases whose files are in a folder.
fn add_cases(rt: &HostRuntime, folder: &str, cases: &mut Vec<Case>) -> Result<()> {
    let mut paths = Vec::new(rt.alloc());
    list(rt, folder, &mut paths)?;
    for path in &paths {
        if let Some(path) = path.as_str().strip_suffix(".script") {
            cases.push(read_case(rt, path)?)?;
        }
    }
    Ok(())
}

// Adds the cases in each folder of a group.
fn add_group(rt: &HostRuntime, group: &str, cases: &mut Vec<Case>) -> Result<()> {
    let mut folders = Vec::new(rt.alloc());
    list(rt, group, &mut folders)?;
    for folder in &folders {
        add_cases(rt, folder.as_str(), cases)?;
    }
    Ok(())
}

/// Returns the cases of a group, in the order of their paths.
pub fn cases_of(rt: &HostRuntime, folder: &str, group: &str) -> Result<Vec<Case>> {
    let mut cases = Vec::new(rt.alloc());
    let path = format!(in rt.alloc(); "{folder}/{group}")?;
    add_group(rt, path.as_str(), &mut cases)?;
    Ok(cases)
}
