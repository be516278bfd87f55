//! Laws of every line that is written. The function here does nothing: its contract is a law, which is proved
//! with it.
ghost use Rattle.std.specs.Prelude.{◌≡◌, ◌++◌, ◌∷◌, ℕ, List, true, false, Ok, Err, codes};
ghost use Rattle.share_base.specs.declared.refusal.Refusal.TheVariants.{Range};
ghost use Rattle.share_base.specs.declared.version.Version.{Version};
ghost use Rattle.share_model.specs.declared.line.Line.{Line};
ghost use Rattle.share_model.specs.text.Lines.{IsLine, is_in_range, reading, spelling_of};
ghost use Rattle.share_model.specs.text.Talk.{lines_of};

/// Written lines are read as these lines. Their bytes fall into the same lines again, one for each. Each is read as
/// what was written, or refused as `Range` if it is out of range in the version of the link.
pub fn written_lines_are_read()
    ensures apart { (l : Line) (rest : List ℕ) → IsLine l
        → lines_of ((spelling_of l ++ codes "\n") ++ rest) ≡ spelling_of l ∷ lines_of rest }
    ensures read { (version : Version) (l : Line) → IsLine l → is_in_range version l ≡ true
        → reading version (spelling_of l) ≡ Ok l }
    ensures refused { (version : Version) (l : Line) → IsLine l → is_in_range version l ≡ false
        → reading version (spelling_of l) ≡ Err Range }
{}
