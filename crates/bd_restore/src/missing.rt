//! Which chunk wasn't found.
ghost use Rattle.std.specs.Prelude.{◌≡◌, ℕ, ◌<◌, length, true, false, IfSome, IfNone};
ghost use Rattle.bd_restore.specs.Target.{flag_at};

/// The index of the first entry that isn't filled.
pub(crate) fn first_missing(filled: &[bool]) -> Option<usize>
    ensures some { IfSome result (λ index. flag_at filled.now index ≡ false) }
    ensures within { IfSome result (λ index. index < length filled.now) }
    ensures none { IfNone result ((k : ℕ) → k < length filled.now → flag_at filled.now k ≡ true) }
{
    for (index, is_filled) in filled.iter().enumerate() {
        if !*is_filled {
            return Some(index);
        }
    }
    None
}
