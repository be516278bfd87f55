//! Folders of a test, and what they have.

use std::alloc::Global;
use std::fs;
use std::fs::{File, Files, OpenOptions};
use std::io::{Read, Write};
use std::process::Abort;
use std::test::Fail;
use std::time::{Duration, SystemTime};

/// The number of names tried for a folder.
const MOST_FOLDERS: u32 = 100000;

/// 2026-01-31T23:59:59Z, in seconds from 1970 on.
const CHANGED: u64 = 1769903999;

/// A name and the bytes of its file.
pub(super) type Named = (&'static str, &'static str);

/// Makes a new folder, and answers its path.
pub(super) fn new_folder(rt: &(impl Files + Abort), alloc: Global) -> Result<String, Fail> {
    for number in 0..MOST_FOLDERS {
        let mut name = String::new(alloc);
        write!(name, "/tmp/stridelink-books-{number}")?;
        if fs::create_dir(rt, name.as_str()).is_ok() {
            return Ok(name);
        }
    }
    panic!(rt; "no folder can be made")
}

/// The path of a name in a folder.
pub(super) fn path_in(alloc: Global, folder: &str, name: &str) -> Result<String, Fail> {
    let mut path = String::new(alloc);
    write!(path, "{folder}/{name}")?;
    Ok(path)
}

/// Makes a file that was changed last at the moment of the rows.
pub(super) fn make_file<R: Files<File = File>>(
    rt: &R,
    alloc: Global,
    folder: &str,
    named: Named,
) -> Result<(), Fail> {
    let path = path_in(alloc, folder, named.0)?;
    let mut file = OpenOptions::new()
        .write(true)
        .create_new(true)
        .open(rt, path.as_str())?;
    file.write_all(named.1.as_bytes())?;
    let since = Duration::from_secs(CHANGED);
    if let Some(changed) = SystemTime::UNIX_EPOCH.checked_add(since) {
        file.set_modified(changed)?;
    }
    Ok(())
}

/// Whether the file of a name has these bytes.
pub(super) fn has_file<R: Files<File = File>>(
    rt: &R,
    alloc: Global,
    folder: &str,
    named: Named,
) -> Result<bool, Fail> {
    let path = path_in(alloc, folder, named.0)?;
    let Ok(mut file) = fs::open(rt, path.as_str()) else {
        return Ok(false);
    };
    let mut bytes = Vec::new(alloc);
    file.read_to_end(&mut bytes)?;
    Ok(bytes.as_slice() == named.1.as_bytes())
}

/// The number of files that a folder has.
pub(super) fn count_files<R: Files>(rt: &R, alloc: Global, folder: &str) -> Result<u32, Fail> {
    let mut count: u32 = 0;
    for entry in fs::read_dir(&(rt, alloc), folder)? {
        entry?;
        count = count.saturating_add(1);
    }
    Ok(count)
}

/// Removes a folder.
pub(super) fn remove_folder<R: Files>(rt: &R, alloc: Global, folder: &str) -> Result<(), Fail> {
    fs::remove_dir_all(&(rt, alloc), folder)?;
    Ok(())
}
