//! share_catalog: names of files, the next number, and lines that were cut.

use crate::tests::assertions::{holds, same};
use share_catalog::FileKind::{Audit, Bad, Lengths, Open, Part, Report, Tariffs};
use share_catalog::{
    BookFile, FileKind, file_name, names_are_one_to_one, next_number, read_file_name, whole_lines,
};

/// A name, and its number and kind.
static NAMES: [(&str, u64, FileKind); 9] = [
    ("000001.open", 1, Open),
    ("000001.tariffs", 1, Tariffs),
    ("000012.audit", 12, Audit),
    ("999999.lengths", 999999, Lengths),
    ("1000000.lengths", 1000000, Lengths),
    ("000003.report", 3, Report),
    ("000003.part", 3, Part),
    ("000004.bad", 4, Bad),
    ("18446744073709551615.open", 18446744073709551615, Open),
];

/// Names of no book's file.
static OTHERS: [&str; 12] = [
    "",
    "books.csv",
    "000001",
    "000001.",
    "00001.open",
    "0000001.open",
    "1.open",
    "+00001.open",
    "000001.Open",
    "000001.open.",
    "000001.open.bad",
    "18446744073709551616.open",
];

#[test]
fn names_are_read_and_written(rt: HostRuntime) {
    names_are_one_to_one();
    for &(name, number, kind) in &NAMES {
        let file = BookFile { number, kind };
        same(&rt, name, read_file_name(name.as_bytes()), Some(file));
        holds(&rt, name, file_name(file).as_bytes() == name.as_bytes());
    }
    for &name in &OTHERS {
        same(&rt, name, read_file_name(name.as_bytes()), None);
    }
}

/// Numbers of files and rows, and the next one.
static NUMBERS: [(&[u64], Option<u64>); 5] = [
    (&[], Some(1)),
    (&[1], Some(2)),
    (&[7, 3], Some(8)),
    (&[3, 7], Some(8)),
    (&[18446744073709551615, 1], None),
];

/// Texts, and the lengths of their whole lines in bytes.
static LINES: [(&str, usize); 5] = [("", 0), ("a", 0), ("a\n", 2), ("a\nbc", 2), ("a\n\n", 3)];

#[test]
fn folders_are_read(rt: HostRuntime) {
    for &(numbers, next) in &NUMBERS {
        same(&rt, numbers.len(), next_number(numbers), next);
    }
    for &(text, count) in &LINES {
        same(&rt, text, whole_lines(text.as_bytes()), count);
    }
}
