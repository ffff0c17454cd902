// The folders of cases, the files of each case, and the tables of records.
use crate::cases::{Case, passes};
use crate::records::count_records;
use crate::waits::waits_so;
use std::{fs, io};

/// Tries each folder and prints how many of its cases passed. Returns how many differ in all.
pub fn try_folders(rt: &HostRuntime) -> io::Result<u64> {
    let mut differ = 0u64;
    for folder in &names(rt, ".", "")? {
        differ = differ.saturating_add(try_folder(rt, folder.as_str())?);
    }
    Ok(differ)
}

// Tries each case of the folder, and prints how many passed. Returns how many differ.
fn try_folder(rt: &HostRuntime, folder: &str) -> io::Result<u64> {
    let (mut passed, mut differ) = try_tables(rt, folder)?;
    for name in &names(rt, folder, ".words")? {
        let path = format!(in rt.alloc(); "{folder}/{name}")?;
        if try_case(rt, path.as_str())? {
            passed = passed.saturating_add(1);
        } else {
            differ = differ.saturating_add(1);
            println!(rt; "{path} differs")?;
        }
    }
    println!(rt; "{folder}: {passed} passed, {differ} differ")?;
    Ok(differ)
}

// Tries each record of the folder's tables, and names the tables of those that differ. Returns how
// many passed, and how many differ.
fn try_tables(rt: &HostRuntime, folder: &str) -> io::Result<(u64, u64)> {
    let mut passed = 0u64;
    let mut differ = 0u64;
    for name in &names(rt, folder, ".records")? {
        let path = format!(in rt.alloc(); "{folder}/{name}.records")?;
        let found = count_records(rt.alloc(), &fs::read(rt, path.as_str())?)?;
        if found.1 > 0 {
            println!(rt; "{path} differs")?;
        }
        passed = passed.saturating_add(found.0);
        differ = differ.saturating_add(found.1);
    }
    Ok((passed, differ))
}

// Whether the case of that path passes. The path comes without the endings of the case's files.
fn try_case(rt: &HostRuntime, path: &str) -> io::Result<bool> {
    let case = read_case(rt, path)?;
    if !passes(rt.alloc(), &case)? {
        return Ok(false);
    }
    try_waits(rt, path, &case.input)
}

fn read_case(rt: &HostRuntime, path: &str) -> io::Result<Case> {
    let words = contents(rt, path, ".words")?;
    let input = contents(rt, path, ".in")?;
    let output = contents(rt, path, ".out")?;
    let status = contents(rt, path, ".status")?;
    Ok(Case {
        words,
        input,
        output,
        status,
    })
}

// Whether the enabled events are those that the case names, if it names some.
fn try_waits(rt: &HostRuntime, path: &str, report: &[u8]) -> io::Result<bool> {
    let name = format!(in rt.alloc(); "{path}.waits")?;
    if !fs::exists(rt, name.as_str())? {
        return Ok(true);
    }
    let told = fs::read(rt, name.as_str())?;
    Ok(waits_so(rt.alloc(), report, &told)?)
}

// The contents of a file of the case.
fn contents(rt: &HostRuntime, path: &str, ending: &str) -> io::Result<Vec<u8>> {
    let name = format!(in rt.alloc(); "{path}{ending}")?;
    fs::read(rt, name.as_str())
}

// The names in the folder with that ending, without the ending, in rising order.
fn names(rt: &HostRuntime, folder: &str, ending: &str) -> io::Result<Vec<String>> {
    let mut found = Vec::new(rt.alloc());
    for entry in fs::read_dir(rt, folder)? {
        let entry = entry?;
        if let Some(name) = entry.file_name().strip_suffix(ending) {
            found.push(String::from_str(rt.alloc(), name)?)?;
        }
    }
    found.sort()?;
    Ok(found)
}
