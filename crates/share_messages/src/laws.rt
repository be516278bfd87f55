//! Laws of lines that come one after the other. The function here does nothing: its contract is a law, and is
//! proved.
ghost use Rattle.std.specs.Prelude.{◌≡◌, ◌<◌, ◌≤◌, ◌+◌, ◌^◌, ◌==◌, ℕ, Bool, true, false, List, length};
ghost use Rattle.std.specs.List.{list_all};
ghost use Rattle.share_messages.specs.Kinds.{is_limited_kind};
ghost use Rattle.share_messages.specs.Limits.{is_silent, limiter_of, new_messages};
ghost use Rattle.share_messages.specs.Runs.{after_lines, count_of, printed_of, reported_of};
ghost use Rattle.share_messages.specs.declared.kind.Kind.{Kind};

/// At most ten lines of each limited kind are printed in a second. Each other line of such a kind is counted by a line
/// that is printed or is still to come. Each line of the other kinds is printed.
pub fn limits_are_kept()
    ensures ten_a_second { (is_quiet : Bool) (kind : Kind) (second : ℕ) (before lines : List (Kind × ℕ))
        → is_limited_kind kind ≡ true → list_all (λ l. l.1 == second) lines ≡ true
        → printed_of kind (after_lines (new_messages is_quiet) before) lines ≤ 10 }
    ensures counted { (is_quiet : Bool) (kind : Kind) (lines : List (Kind × ℕ)) → length lines < 2 ^ 64
        → is_limited_kind kind ≡ true → is_silent kind (new_messages is_quiet) ≡ false
        → printed_of kind (new_messages is_quiet) lines + reported_of kind (new_messages is_quiet) lines
        + (limiter_of kind (after_lines (new_messages is_quiet) lines)).left_out ≡ count_of kind lines }
    ensures never_left_out { (is_quiet : Bool) (kind : Kind) (lines : List (Kind × ℕ))
        → is_limited_kind kind ≡ false → printed_of kind (new_messages is_quiet) lines ≡ count_of kind lines }
{}
