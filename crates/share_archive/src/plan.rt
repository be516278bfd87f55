//! The steps that are left for the files of a book.
ghost use Rattle.std.specs.Prelude.{◌≡◌, true, false, MatchOption};
ghost use Rattle.share_archive.specs.Steps.{May, settled, HasReport, HasRow, IsUncut};

/// The text of a book. A text is a run if a new engine makes each of its events, once a cut last line is cut off.
#[derive(Clone, Copy, Debug, PartialEq, Eq)]
pub enum BookText {
    /// There is no file of a text.
    Absent,
    /// An open text without a whole first line.
    Headless,
    /// The file of an open book.
    Open { is_run: bool },
    /// The file of a closed book.
    Closed { is_run: bool },
    /// A file that was set aside, since it is no run.
    Bad,
}

/// The row of a book.
#[derive(Clone, Copy, Debug, PartialEq, Eq)]
pub enum RowState {
    Missing,
    /// A last row without its line feed.
    Cut,
    Whole,
}

/// The files of a book in a folder.
#[derive(Clone, Copy, Debug, PartialEq, Eq)]
pub struct BookState {
    pub text: BookText,
    /// Whether there is a report. It was written elsewhere and renamed, so it is whole.
    pub report: bool,
    /// Whether there is a report that was not renamed yet, which may be cut.
    pub part: bool,
    pub row: RowState,
    /// Whether there is a file of the tariffs.
    pub tariffs: bool,
}

/// A step. It is made durable before the next one begins.
#[derive(Clone, Copy, Debug, PartialEq, Eq)]
pub enum Step {
    /// Cut off the last row, which has no line feed.
    CutRow,
    /// Remove a report that was not renamed.
    RemovePart,
    /// Remove a text without a whole first line.
    RemoveText,
    /// Rename an open text to that of a closed book.
    CloseText,
    /// Rename a text that is no run.
    MarkBad,
    /// Write the report under another name, and rename it.
    WriteReport,
    /// Remove the report of a text that is no run.
    RemoveReport,
    /// Append the row.
    AppendRow,
    /// Remove the file of the tariffs.
    RemoveTariffs,
}

/// The step that a close or a start makes next. `None` if the book is as it is to be.
pub fn next_step(book: BookState) -> Option<Step>
    ensures { MatchOption result (settled book ≡ book) (λ step. May step book) }
{
    match book.row {
        RowState::Cut => return Some(Step::CutRow),
        RowState::Missing | RowState::Whole => {}
    }
    if book.part {
        return Some(Step::RemovePart);
    }
    match book.text {
        BookText::Absent => tariffs_step(book),
        BookText::Headless => Some(Step::RemoveText),
        BookText::Open { is_run: true } => Some(Step::CloseText),
        BookText::Open { is_run: false } | BookText::Closed { is_run: false } => Some(
            Step::MarkBad,
        ),
        BookText::Closed { is_run: true } => closed_step(book),
        BookText::Bad => bad_step(book),
    }
}

// The next step of a closed book.
fn closed_step(book: BookState) -> Option<Step>
    requires text { book.text ≡ BookText.Closed true }
    requires part { book.part ≡ false }
    requires row { IsUncut book.row }
    ensures { MatchOption result (settled book ≡ book) (λ step. May step book) }
{
    if !book.report {
        return Some(Step::WriteReport);
    }
    row_step(book)
}

// The next step of a book that was set aside.
fn bad_step(book: BookState) -> Option<Step>
    requires text { book.text ≡ BookText.Bad }
    requires part { book.part ≡ false }
    requires row { IsUncut book.row }
    ensures { MatchOption result (settled book ≡ book) (λ step. May step book) }
{
    if book.report {
        return Some(Step::RemoveReport);
    }
    row_step(book)
}

// The next step of a book whose text and report are as they are to be.
fn row_step(book: BookState) -> Option<Step>
    requires report { HasReport book }
    requires part { book.part ≡ false }
    requires row { IsUncut book.row }
    ensures { MatchOption result (settled book ≡ book) (λ step. May step book) }
{
    match book.row {
        RowState::Missing | RowState::Cut => Some(Step::AppendRow),
        RowState::Whole => tariffs_step(book),
    }
}

// The last step: the tariffs are of no use once the row has them.
fn tariffs_step(book: BookState) -> Option<Step>
    requires row { HasRow book }
    requires part { book.part ≡ false }
    requires uncut { IsUncut book.row }
    ensures { MatchOption result (settled book ≡ book) (λ step. May step book) }
{
    if book.tariffs {
        Some(Step::RemoveTariffs)
    } else {
        None
    }
}
