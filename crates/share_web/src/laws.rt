//! Laws of every head. The function here does nothing: its contract is a law, which is proved with it.
ghost use Rattle.std.specs.Prelude.{◌≡◌, ◌++◌, ℕ, List};
ghost use Rattle.share_web.specs.Heads.{taken};

/// A head is a function of the bytes that came. It makes no difference in which pieces they came.
pub fn pieces_make_no_difference()
    ensures { (head piece more : List ℕ) → taken (taken head piece) more ≡ taken head (piece ++ more) }
{}
