//! The files of the examples.

use std::rt::Files;
use std::{fs, io};

/// What follows a session's name.
const SESSION: &str = ".session";

/// A session with what is to be told of it.
#[derive(Drop)]
pub(crate) struct Example {
    pub(crate) name: String,
    pub(crate) session: String,
    pub(crate) report: Vec<u8>,
    /// What `--journal` tells, where a file says so.
    pub(crate) journal: Option<Vec<u8>>,
}

/// The names of all sessions in this folder, in order.
pub(crate) fn names(rt: &HostRuntime) -> io::Result<Vec<String>> {
    let mut names = Vec::new(rt.alloc());
    for entry in fs::read_dir(rt, ".")? {
        let entry = entry?;
        if let Some(name) = entry.file_name().strip_suffix(SESSION) {
            names.push(String::from_str(rt.alloc(), name)?)?;
        }
    }
    names.sort_unstable();
    Ok(names)
}

/// The example of this name.
pub(crate) fn read_example(rt: &HostRuntime, name: String) -> io::Result<Example> {
    let alloc = rt.alloc();
    let session = fs::read_to_string(rt, format!(in alloc; "{name}{SESSION}")?)?;
    let report = fs::read(rt, format!(in alloc; "{name}.report")?)?;
    let journal = match fs::read(rt, format!(in alloc; "{name}.journal")?) {
        Ok(text) => Some(text),
        Err(fault) if fault.kind() == io::ErrorKind::NotFound => None,
        Err(fault) => return Err(fault),
    };
    Ok(Example {
        name,
        session,
        report,
        journal,
    })
}
