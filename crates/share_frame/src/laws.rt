//! Laws of every frame. The function here does nothing. Its contract is a law, and is proved.
ghost use Rattle.std.specs.Prelude.{◌≡◌, ◌≤◌, List, ℕ, ◌++◌, length};
ghost use Rattle.share_base.specs.declared.version.Version.{Version};
ghost use Rattle.share_base.specs.declared.version.Version.TheVariants.{Two};
ghost use Rattle.share_model.specs.link.Frame.{Packet, FitsFrame, frame};
ghost use Rattle.share_model.specs.run.History.{IsBeginning};
ghost use Rattle.share_frame.specs.Reading.{IsOfVersion};

/// No frame is a proper beginning of a frame, of its version or of the other. If bytes begin with the frames of two
/// packets of a version, these are the same packet, and the same bytes follow. In version 2 they are under the same
/// tariff. The second byte gives the version: bytes that begin with a frame, or are the beginning of one, of each
/// version are fewer than two.
pub fn no_frame_begins_another()
    ensures proper { (version other : Version) (tariff : ℕ) (head : Packet) → FitsFrame version tariff head
        → ¬ IsBeginning other (frame version tariff head) }
    ensures same { (version : Version) (tariff other_tariff : ℕ) (head other : Packet) (rest more : List ℕ)
        → FitsFrame version tariff head → FitsFrame version other_tariff other
        → frame version tariff head ++ rest ≡ frame version other_tariff other ++ more
        → (head ≡ other) × (version ≡ Two → tariff ≡ other_tariff) × (rest ≡ more) }
    ensures version { (version other : Version) (bytes : List ℕ) → 2 ≤ length bytes
        → IsOfVersion version bytes → IsOfVersion other bytes → version ≡ other }
{}
