//! What holds of every catalogue: of its spelling, and of what steps make of it.
ghost use Rattle.std.specs.Prelude.{◌≡◌, ℕ, ◌≤◌, List, ◌++◌, length, IsTrue, Some};
ghost use Rattle.bd_model.specs.declared.shape.Shape.{Shape};
ghost use Rattle.bd_model.specs.Sizes.{Sizes, sizes_of, payload_room};
ghost use Rattle.bd_roll.specs.Catalogue.{Catalogue};
ghost use Rattle.bd_roll.specs.Rules.{obeys, catalogue_of};
ghost use Rattle.bd_roll.specs.Spelling.{spelled, read_catalogue};
ghost use Rattle.bd_roll.specs.Splitting.{after_drop, after_split, FitsDrop, MaySplit, SplitEntry};
ghost use Rattle.bd_roll.specs.Widths.{IsSpellable};

/// A catalogue whose numbers fit their fields is read back from its spelling, and one that obeys the rules is such a
/// catalogue, is spelled in no more bytes than there is room for, and is what those bytes spell. Bytes spell one
/// catalogue at most, and no spelling begins another.
pub fn catalogues_read_back()
    ensures fields { (c : Catalogue) → IsSpellable c → read_catalogue (spelled c) ≡ c }
    ensures fit { (shape : Shape) (c : Catalogue) → IsTrue (obeys (sizes_of shape) c) → IsSpellable c }
    ensures room { (shape : Shape) (c : Catalogue) → IsTrue (obeys (sizes_of shape) c) → length (spelled c) ≤ payload_room (sizes_of shape) }

    ensures back { (shape : Shape) (c : Catalogue) → IsTrue (obeys (sizes_of shape) c) → catalogue_of (sizes_of shape) (spelled c) ≡ Some c }
    ensures spelling { (s : Sizes) (bytes : List ℕ) (c : Catalogue) → catalogue_of s bytes ≡ Some c → bytes ≡ spelled c }
    ensures rules { (s : Sizes) (bytes : List ℕ) (c : Catalogue) → catalogue_of s bytes ≡ Some c → IsTrue (obeys s c) }

    ensures one { (c d : Catalogue) (rest others : List ℕ) → IsSpellable c → IsSpellable d → spelled c ++ rest ≡ spelled d ++ others
        → (c ≡ d) × (rest ≡ others) }
{}

/// A catalogue that obeys the rules does so after each split that may be made, and after its oldest versions are given up.
pub fn steps_keep_the_rules()
    ensures split { (shape : Shape) (c : Catalogue) (e : SplitEntry) → IsTrue (obeys (sizes_of shape) c) → MaySplit (sizes_of shape) c e
        → IsTrue (obeys (sizes_of shape) (after_split c e)) }
    ensures fewer { (shape : Shape) (d : ℕ) (c : Catalogue) → IsTrue (obeys (sizes_of shape) c) → FitsDrop d c → IsTrue (obeys (sizes_of shape) (after_drop d c)) }
{}
