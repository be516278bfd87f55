//! Laws of every file of a folder. The function here does nothing: its contract is a law, and is proved.
ghost use Rattle.std.specs.Prelude.{◌≡◌};
ghost use Rattle.share_catalog.specs.Names.{ending, file_text, IsFile};
ghost use Rattle.share_catalog.specs.declared.names.BookFile.{BookFile};

/// Two files of one name have one number and one ending.
pub fn names_are_one_to_one()
    ensures { (f g : BookFile) → IsFile f → IsFile g → file_text f ≡ file_text g
        → (f.number ≡ g.number) × (ending f.kind ≡ ending g.kind) }
{}
