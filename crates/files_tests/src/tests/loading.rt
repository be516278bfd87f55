//! Files that are loaded, from their bytes and from a disk.

use super::assertions::{holds, same};
use super::changes::{FAR, FILE};
use super::settings::changed;
use share_loading::{Refused, load_settings, read_file};
use share_settings::Settings;
use std::alloc::Global;
use std::fs;
use std::fs::{Files, OpenOptions};
use std::io::Write;
use std::process::Abort;
use std::test::Fail;

/// A text that the file has, what stands there instead, the line of the fault if it is known, and otherwise the fault.
type Row = (&'static str, &'static str, Option<usize>, &'static str);

static ROWS: [Row; 12] = [
    ("", "", None, ""),
    ("buffer = 262144", "buffer = 65536", None, ""),
    ("period = \"1 h\"", "", None, ""),
    ("\"192.0.2.7:7003\"", "\"udp:192.0.2.7:7003\"", None, ""),
    ("", "[downlink]\nlisten = \"192.0.2.1:7003\"\n", None, ""),
    ("\"127.0.0.1:7101\"", "\"udp:127.0.0.1:7101\"", None, ""),
    (
        "\"unix:/run/stridelink/acme\"",
        "\"udp-to:127.0.0.1:7202\"",
        None,
        "",
    ),
    ("\"[2001:db8::7]:7102\"", "\"fd:3\"", None, ""),
    (
        "lengths",
        "words",
        None,
        "[books]: text: neither lengths nor whole",
    ),
    ("[books]", "[books", Some(6), ""),
    (
        "flow = 3",
        "flow = 3\ntariff = 2",
        None,
        "tenant 2: no 8 NoTariff",
    ),
    ("\"bond\"", "\"acme\"", None, "tenant 2: no 9 Taken"),
];

fn has_fault(rt: &impl Abort, alloc: Global, row: Row, loaded: Result<Settings, Refused>) {
    match loaded {
        Ok(_) => same(rt, row, (row.2, row.3), (None, "")),
        Err(fault) => {
            same(rt, row, fault.line(), row.2);
            let said = format!(in alloc; "{fault}").expect(rt, "memory");
            holds(rt, row, row.2.is_some() || said.as_str() == row.3);
        }
    }
}

#[test]
fn files_are_loaded(rt: HostRuntime) {
    let alloc = rt.alloc();
    for &row in &ROWS {
        holds(&rt, row, FILE.contains(row.0));
        let text = changed(alloc, FILE, row.0, row.1).expect(&rt, "memory");
        has_fault(&rt, alloc, row, load_settings(alloc, text.as_bytes()));
    }
    let far = load_settings(alloc, FAR.as_bytes());
    has_fault(&rt, alloc, ("", "far", None, ""), far);
    let bytes = load_settings(alloc, b"\xff".as_slice());
    has_fault(&rt, alloc, ("", "bytes", None, "not UTF-8"), bytes);
}

/// The number of names tried for a file.
const MOST_FILES: u32 = 100000;

// Writes a new file, and answers its path.
fn new_file(rt: &(impl Files + Abort), alloc: Global, bytes: &[u8]) -> Result<String, Fail> {
    for number in 0..MOST_FILES {
        let mut path = String::new(alloc);
        write!(path, "/tmp/stridelink-file-{number}")?;
        let opened = OpenOptions::new()
            .write(true)
            .create_new(true)
            .open(rt, path.as_str());
        if let Ok(mut file) = opened {
            file.write_all(bytes)?;
            return Ok(path);
        }
    }
    panic!(rt; "no file can be made")
}

#[test]
fn a_file_is_read_from_a_disk(rt: HostRuntime) -> Result<(), Fail> {
    let alloc = rt.alloc();
    let path = new_file(&rt, alloc, FILE.as_bytes())?;
    let loaded = read_file(&rt, alloc, path.as_str());
    fs::remove_file(&rt, path.as_str())?;
    match loaded {
        Ok(settings) => same(&rt, "tenants", settings.plan.tenants().len(), 2),
        Err(_) => holds(&rt, "a file", false),
    }
    match read_file(&rt, alloc, path.as_str()) {
        Err(Refused::NotRead(_)) => {}
        _ => holds(&rt, "no file", false),
    }
    Ok(())
}
