//! Laws of every stream of records. The function here does nothing. Its contract is a law, and is proved.
ghost use Rattle.std.specs.Prelude.{◌≡◌, ◌<◌, ◌++◌, ℕ, List};
ghost use Rattle.share_model.specs.declared.ingress.Ended.{Ended};
ghost use Rattle.share_model.specs.ingress.Records.{Item, Front, IsRecords};
ghost use Rattle.share_model.specs.lists.Each.{Each};
ghost use Rattle.share_ingress.specs.Streams.{EndsStream};

/// Each stream of bytes has one list of items and one way to end after them: `End`, `Cut` or `BadRecord`. Wherever a
/// reader stopped, the items of the whole records before that are the first of this list.
pub fn streams_have_one_reading()
    ensures some { (bytes : List ℕ) → Each (λ b. b < 256) bytes
        → ((items : List Item) × (ended : Ended) × EndsStream ended × IsRecords bytes items ended) }
    ensures one { (bytes : List ℕ) (items others : List Item) (ended other : Ended)
        → EndsStream ended → EndsStream other → IsRecords bytes items ended
        → IsRecords bytes others other → (items ≡ others) × (ended ≡ other) }
    ensures front { (bytes : List ℕ) (items all : List Item) (rest : List ℕ) (ended : Ended)
        → EndsStream ended → Front bytes items rest → IsRecords bytes all ended
        → ((more : List Item) × (all ≡ items ++ more)) }
{}
