//! Laws of the lines of every connection. The function here does nothing: its contract is a law, which is proved
//! with it.
ghost use Rattle.std.specs.Prelude.{◌≡◌, ◌++◌, ℕ, List, Option};
ghost use Rattle.share_script.specs.Lines.{Took, incoming_lines};

/// Take the text that was read of a connection, the part that was taken, and any bytes after it. The lines of the whole
/// text are those that were given, and then those of what is ahead.
pub fn lines_given_are_of_the_text()
    ensures { (text : List ℕ) (given : List (Option (List ℕ))) (ahead : List ℕ) → Took text given ahead
        → (more : List ℕ) → incoming_lines (text ++ more) ≡ given ++ incoming_lines (ahead ++ more) }
{}
