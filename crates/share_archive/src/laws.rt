//! Laws of every close and every recovery. The functions here do nothing: their contracts are laws, and are
//! proved.
ghost use Rattle.std.specs.Prelude.{◌≡◌, ◌+◌, ◌≤◌};
ghost use Rattle.share_archive.specs.Steps.{May, Reaches, after, settled, steps_left};
ghost use Rattle.share_archive.specs.declared.plan.BookState.{BookState};
ghost use Rattle.share_archive.specs.declared.plan.Step.{Step};

/// A kill changes nothing. Take any steps of a close and of any number of recoveries, each whole or cut short. The book
/// comes to the same as without them.
pub fn killed_books_come_to_the_same()
    ensures { (from book : BookState) → Reaches from book → settled book ≡ settled from }
{}

/// Each step that may be made leaves one step less, and there are at most six. A book with no step left is as it is to
/// be.
pub fn books_come_to_rest()
    ensures less { (book : BookState) (step : Step) → May step book
        → steps_left (after step book) + 1 ≡ steps_left book }
    ensures few { (book : BookState) → steps_left book ≤ 6 }
    ensures rest { (book : BookState) → steps_left book ≡ 0 → settled book ≡ book }
{}
