//! share_archive: the steps of a close and of recoveries.

use crate::tests::assertions::same;
use share_archive::Step::{
    AppendRow, CloseText, CutRow, MarkBad, RemovePart, RemoveReport, RemoveTariffs, RemoveText,
    WriteReport,
};
use share_archive::{
    BookState, BookText, RowState, Step, books_come_to_rest, killed_books_come_to_the_same,
    next_step,
};

/// An open book that is a run.
const OPEN: BookState = BookState {
    text: BookText::Open { is_run: true },
    report: false,
    part: false,
    row: RowState::Missing,
    tariffs: true,
};

const CLOSED: BookText = BookText::Closed { is_run: true };

/// The files of a book in its folder, and the step that is next.
static STEPS: [(BookState, Option<Step>); 14] = [
    (OPEN, Some(CloseText)),
    (
        BookState {
            text: CLOSED,
            ..OPEN
        },
        Some(WriteReport),
    ),
    (
        BookState {
            text: CLOSED,
            part: true,
            ..OPEN
        },
        Some(RemovePart),
    ),
    (
        BookState {
            text: CLOSED,
            report: true,
            ..OPEN
        },
        Some(AppendRow),
    ),
    (
        BookState {
            text: CLOSED,
            report: true,
            row: RowState::Cut,
            ..OPEN
        },
        Some(CutRow),
    ),
    (
        BookState {
            text: CLOSED,
            report: true,
            row: RowState::Whole,
            ..OPEN
        },
        Some(RemoveTariffs),
    ),
    (
        BookState {
            text: CLOSED,
            report: true,
            row: RowState::Whole,
            tariffs: false,
            ..OPEN
        },
        None,
    ),
    (
        BookState {
            text: CLOSED,
            row: RowState::Whole,
            tariffs: false,
            ..OPEN
        },
        Some(WriteReport),
    ),
    (
        BookState {
            text: BookText::Open { is_run: false },
            ..OPEN
        },
        Some(MarkBad),
    ),
    (
        BookState {
            text: BookText::Closed { is_run: false },
            ..OPEN
        },
        Some(MarkBad),
    ),
    (
        BookState {
            text: BookText::Bad,
            report: true,
            ..OPEN
        },
        Some(RemoveReport),
    ),
    (
        BookState {
            text: BookText::Bad,
            ..OPEN
        },
        Some(AppendRow),
    ),
    (
        BookState {
            text: BookText::Headless,
            ..OPEN
        },
        Some(RemoveText),
    ),
    (
        BookState {
            text: BookText::Absent,
            ..OPEN
        },
        Some(RemoveTariffs),
    ),
];

#[test]
fn steps_are_named(rt: HostRuntime) {
    killed_books_come_to_the_same();
    books_come_to_rest();
    for &(book, step) in &STEPS {
        same(&rt, book, next_step(book), step);
    }
}
