//! The file of an audit, in a folder of its own.

use crate::failing::Taken::Most;
use crate::failing::{FailingFiles, Taken};
use crate::tests::assertions::{holds, same};
use share_base::{Command, Event, Name, Outcome, Reply, Version};
use share_journal::{Entry, Journal, Source};
use share_server::{AuditFile, Keep};
use std::alloc::Global;
use std::fmt::Debug;
use std::fs;
use std::fs::Files;
use std::io::{Eprint, ErrorKind, Read};
use std::process::Abort;
use std::test::Fail;

/// The audit of an empty journal.
const AUDIT: &str = "audit 2\n";

const OLD: &str = "what was there before";

/// The number of names tried for the folder.
const MOST_FOLDERS: u32 = 10000;

// Makes a new folder.
fn folder(rt: &(impl Files + Abort), alloc: Global) -> Result<String, Fail> {
    for number in 0..MOST_FOLDERS {
        let mut name = String::new(alloc);
        write!(name, "/tmp/stridelink-test-{number}")?;
        if fs::create_dir(rt, name.as_str()).is_ok() {
            return Ok(name);
        }
    }
    panic!(rt; "no folder can be made")
}

fn in_folder(alloc: Global, folder: &str, name: &str) -> Result<String, Fail> {
    let mut path = String::new(alloc);
    write!(path, "{folder}/{name}")?;
    Ok(path)
}

// The paths of two names in the folder.
fn paths(alloc: Global, folder: &str, one: &str, other: &str) -> Result<(String, String), Fail> {
    let path = in_folder(alloc, folder, one)?;
    Ok((path, in_folder(alloc, folder, other)?))
}

// Whether the file of this path has this text, or does not exist if that is `None`.
fn has_text<R: Files>(rt: &R, path: &str, text: Option<&str>) -> bool {
    let Ok(mut file) = fs::open(rt, path) else {
        return text.is_none();
    };
    let mut buffer = [0u8; 64];
    match (file.read(&mut buffer), text) {
        (Ok(count), Some(text)) if count <= 64 => &buffer[..count] == text.as_bytes(),
        _ => false,
    }
}

// The file of this path has this text, or does not exist if that is `None`.
fn is_left<R: Files + Abort, N: Debug + Copy>(rt: &R, row: N, path: &str, text: Option<&str>) {
    holds(rt, row, has_text(rt, path, text));
}

// An empty journal of version 2.
fn empty(alloc: Global) -> Result<Journal, Fail> {
    let mut journal = Journal::new(alloc, 1)?;
    journal.choose(Version::Two);
    Ok(journal)
}

// Checks that the new file takes the name at the end, and the old file stays until then.
fn takes_the_name<R: Files + Eprint + Abort>(
    rt: &R,
    alloc: Global,
    folder: &str,
    old: Option<&str>,
) -> Result<(), Fail> {
    let (path, beside) = paths(alloc, folder, "a", "a.1")?;
    let journal = empty(alloc)?;
    let audit = AuditFile::open(rt, alloc, path.as_str(), true)?;
    is_left(rt, "the old file", path.as_str(), old);
    is_left(rt, "a file beside", beside.as_str(), Some(""));
    audit.write(&journal)?;
    is_left(rt, "the audit", path.as_str(), Some(AUDIT));
    is_left(rt, "no file beside", beside.as_str(), None);
    Ok(())
}

// Checks that nothing changes if nothing is written, or what was written cannot take the name.
fn leaves_the_old<R: Files + Eprint + Abort>(
    rt: &R,
    alloc: Global,
    folder: &str,
) -> Result<(), Fail> {
    let (path, beside) = paths(alloc, folder, "b", "b.1")?;
    let journal = empty(alloc)?;
    fs::write(rt, path.as_str(), OLD)?;
    drop(AuditFile::open(rt, alloc, path.as_str(), true)?);
    is_left(rt, "the old file", path.as_str(), Some(OLD));
    is_left(rt, "no file beside", beside.as_str(), None);
    let audit = AuditFile::open(rt, alloc, path.as_str(), true)?;
    fs::remove_file(rt, beside.as_str())?;
    holds(rt, "a fault", audit.write(&journal).is_err());
    is_left(rt, "the old file", path.as_str(), Some(OLD));
    Ok(())
}

// Checks that a file whose name is taken stays as it was, and the next name is used.
fn leaves_other_files<R: Files + Eprint + Abort>(
    rt: &R,
    alloc: Global,
    folder: &str,
) -> Result<(), Fail> {
    let (path, taken) = paths(alloc, folder, "c", "c.1")?;
    let journal = empty(alloc)?;
    fs::write(rt, taken.as_str(), OLD)?;
    let audit = AuditFile::open(rt, alloc, path.as_str(), true)?;
    audit.write(&journal)?;
    is_left(rt, "the audit", path.as_str(), Some(AUDIT));
    is_left(rt, "the other file", taken.as_str(), Some(OLD));
    Ok(())
}

// Checks that without force a file that came meanwhile stays as it was, and the audit beside it.
fn replaces_by_force_alone<R: Files + Eprint + Abort>(
    rt: &R,
    alloc: Global,
    folder: &str,
) -> Result<(), Fail> {
    let (path, beside) = paths(alloc, folder, "i", "i.1")?;
    let journal = empty(alloc)?;
    let audit = AuditFile::open(rt, alloc, path.as_str(), false)?;
    fs::write(rt, path.as_str(), OLD)?;
    holds(rt, "a fault", audit.write(&journal).is_err());
    is_left(rt, "the file that came", path.as_str(), Some(OLD));
    is_left(rt, "the audit", beside.as_str(), Some(AUDIT));
    Ok(())
}

// Checks that a file behind a symbolic link is written in place, and a folder is refused.
fn writes_in_place<R: Files + Eprint + Abort>(
    rt: &R,
    alloc: Global,
    folder: &str,
) -> Result<(), Fail> {
    let (path, link) = paths(alloc, folder, "d", "e")?;
    let journal = empty(alloc)?;
    fs::write(rt, path.as_str(), OLD)?;
    rt.symlink(path.as_str(), link.as_str())?;
    let audit = AuditFile::open(rt, alloc, link.as_str(), true)?;
    is_left(rt, "the old file", path.as_str(), Some(OLD));
    audit.write(&journal)?;
    is_left(rt, "the audit", path.as_str(), Some(AUDIT));
    let refused = AuditFile::open(rt, alloc, folder, true).is_err();
    holds(rt, "a folder is refused", refused);
    Ok(())
}

const NONE: Taken = Most(0);

const FULL: Taken = Taken::Error(ErrorKind::StorageFull);

const BLOCKED: Taken = Taken::Error(ErrorKind::WouldBlock);

const AGAIN: Taken = Taken::Error(ErrorKind::Interrupted);

/// Answers of write calls in turn, whether files can be renamed, whether the audit is reported as written. Then comes
/// the content of a file that is written in place, which is not renamed. The rest after a refused call is offered once
/// more when the file is closed, so a call that stays refused is refused twice.
type Row = (&'static [Taken], bool, bool, &'static str);

/// The outcome of the audit of an empty journal, which goes out in one call.
static WRITES: [Row; 14] = [
    (&[], true, true, AUDIT),
    (&[Most(1)], true, true, AUDIT),
    (&[Most(1), Most(6)], true, true, AUDIT),
    (&[AGAIN, Most(3), AGAIN], true, true, AUDIT),
    (&[FULL, FULL], true, false, ""),
    (&[BLOCKED, BLOCKED], true, false, ""),
    (&[NONE, NONE], true, false, ""),
    (&[Most(1), FULL, FULL], true, false, "a"),
    (&[Most(5), FULL, FULL], true, false, "audit"),
    (&[Most(5), BLOCKED, BLOCKED], true, false, "audit"),
    (&[Most(5), Most(2), NONE, NONE], true, false, "audit 2"),
    (&[AGAIN, Most(7), FULL, FULL], true, false, "audit 2"),
    (&[Most(3), FULL], true, false, AUDIT),
    (&[Most(3)], false, false, AUDIT),
];

/// The outcome of an audit that goes out in several calls. Its row is the only one, since it takes long.
static LONG_WRITES: [Row; 1] = [(&[Most(5), FULL, FULL], true, false, "audit")];

/// The number of commands in a journal whose audit goes out in several calls: 72008 bytes, of which 65536 go together.
const LONG: u64 = 9000;

// A journal of commands that each make the currency x.
fn long_journal(rt: &impl Abort, alloc: Global) -> Journal {
    let name = Name::read(b"x").expect(rt, "a name");
    let mut journal = Journal::new(alloc, LONG).expect(rt, "a journal");
    journal.choose(Version::Two);
    for _ in 0..LONG {
        if journal.len() < journal.life() {
            journal.push(Entry {
                event: Event::Commanded(Command::MakeCurrency(name)),
                reply: Outcome::Replied(Reply::Done),
                source: Source::Clerk(1),
            });
        }
    }
    journal
}

// Whether an audit is reported as written if write calls have these answers, and files may not be renamed.
fn is_told<R: Files + Eprint + Abort>(
    rt: &R,
    alloc: Global,
    path: &str,
    journal: &Journal,
    taken: &'static [Taken],
    is_renamed: bool,
) -> bool {
    let files = FailingFiles {
        files: rt,
        taken,
        is_renamed,
    };
    let audit = AuditFile::open(&files, alloc, path, true)
        .ok()
        .expect(rt, "a file");
    audit.keep(journal)
}

// Checks that the audit of a faulty write is reported as not written, and that what was there before stays as it
// was. One that cannot take its name stays beside it.
fn faults_leave_the_old<R: Files + Eprint + Abort>(
    rt: &R,
    alloc: Global,
    folder: &str,
    journal: &Journal,
    rows: &[Row],
    old: Option<&str>,
) -> Result<(), Fail> {
    let (path, beside) = paths(alloc, folder, "f", "f.1")?;
    for (number, row) in rows.iter().enumerate() {
        let (taken, is_renamed, is_written, _) = *row;
        let _ = fs::remove_file(rt, path.as_str());
        if let Some(text) = old {
            fs::write(rt, path.as_str(), text)?;
        }
        let told = is_told(rt, alloc, path.as_str(), journal, taken, is_renamed);
        same(rt, (number, "is told"), told, is_written);
        let left = if is_written { Some(AUDIT) } else { old };
        is_left(rt, (number, "the file"), path.as_str(), left);
        let beside_it = if is_renamed { None } else { Some(AUDIT) };
        is_left(rt, (number, "the file beside"), beside.as_str(), beside_it);
        let _ = fs::remove_file(rt, beside.as_str());
    }
    Ok(())
}

// Checks that a file behind a symbolic link, which is written in place, holds a beginning of the audit after a fault.
fn faults_leave_a_beginning<R: Files + Eprint + Abort>(
    rt: &R,
    alloc: Global,
    folder: &str,
    journal: &Journal,
    rows: &[Row],
) -> Result<(), Fail> {
    let (path, link) = paths(alloc, folder, "g", "h")?;
    fs::write(rt, path.as_str(), OLD)?;
    let _ = fs::remove_file(rt, link.as_str());
    rt.symlink(path.as_str(), link.as_str())?;
    for (number, row) in rows.iter().enumerate() {
        let (taken, is_renamed, is_written, text) = *row;
        fs::write(rt, path.as_str(), OLD)?;
        let told = is_told(rt, alloc, link.as_str(), journal, taken, is_renamed);
        let wanted = is_written || !is_renamed;
        same(rt, (number, "is told"), told, wanted);
        is_left(rt, (number, "the text"), path.as_str(), Some(text));
    }
    Ok(())
}

// Checks what these rows say of the audit of a journal, which is dropped.
fn faults_are_told<R: Files + Eprint + Abort>(
    rt: &R,
    alloc: Global,
    folder: &str,
    journal: Journal,
    rows: &[Row],
) -> Result<(), Fail> {
    faults_leave_the_old(rt, alloc, folder, &journal, rows, None)?;
    faults_leave_the_old(rt, alloc, folder, &journal, rows, Some(OLD))?;
    faults_leave_a_beginning(rt, alloc, folder, &journal, rows)?;
    drop(journal);
    Ok(())
}

#[test]
fn files_of_audits(rt: HostRuntime) -> Result<(), Fail> {
    let alloc = rt.alloc();
    let folder = folder(&rt, alloc)?;
    takes_the_name(&rt, alloc, folder.as_str(), None)?;
    takes_the_name(&rt, alloc, folder.as_str(), Some(AUDIT))?;
    leaves_the_old(&rt, alloc, folder.as_str())?;
    leaves_other_files(&rt, alloc, folder.as_str())?;
    replaces_by_force_alone(&rt, alloc, folder.as_str())?;
    writes_in_place(&rt, alloc, folder.as_str())?;
    faults_are_told(&rt, alloc, folder.as_str(), empty(alloc)?, &WRITES)?;
    let journal = long_journal(&rt, alloc);
    faults_are_told(&rt, alloc, folder.as_str(), journal, &LONG_WRITES)?;
    fs::remove_dir_all(&rt, folder.as_str())?;
    Ok(())
}
