//! What holds of every space.
ghost use Rattle.std.specs.Prelude.{◌≡◌, ℕ, ◌+◌, ◌<◌, ◌↔◌, ◌⊎◌, List, [], ◌++◌, length, take, replicate, All, Contains, IsPermutation, nat_eq};
ghost use Rattle.std.specs.List.{IsDistinct};
ghost use Rattle.std.specs.List.Sorted.{IsStrictlyIncreasing};
ghost use Rattle.bd_space.specs.Allotment.{Allotment, extent_count, IsFree, IsTaken, IsHeld, free_numbers, free_count, taken_count, held_count, Marks, TakenExactly};

use crate::space::Use;

/// Each number below the size of a space is free, taken or held, and is one of them alone.
pub fn uses_partition_the_numbers()
    ensures some { (space : Allotment) (n : ℕ) → n < extent_count space → IsFree space n ⊎ (IsTaken space n ⊎ IsHeld space n) }
    ensures not_free_and_taken { (space : Allotment) (n : ℕ) → IsFree space n → ¬ IsTaken space n }
    ensures not_free_and_held { (space : Allotment) (n : ℕ) → IsFree space n → ¬ IsHeld space n }
    ensures not_taken_and_held { (space : Allotment) (n : ℕ) → IsTaken space n → ¬ IsHeld space n }
    ensures counts { (space : Allotment) → free_count space + taken_count space + held_count space ≡ extent_count space }
{}

/// The free numbers are all those that are free, ascending, and the first of them are the lowest.
pub fn free_numbers_ascend()
    ensures free { (space : Allotment) (n : ℕ) → Contains (free_numbers space) n ↔ IsFree space n }
    ensures count { (space : Allotment) → length (free_numbers space) ≡ free_count space }
    ensures ascending { (space : Allotment) → IsStrictlyIncreasing (free_numbers space) }
    ensures lowest { (space : Allotment) (count m n : ℕ) → Contains (take count (free_numbers space)) m → IsFree space n
        → ¬ Contains (take count (free_numbers space)) n → m < n }
{}

/// What is taken stays the sum of the owners' lists: taking adds a list, giving back removes one, their
/// order doesn't matter, and there are as many taken numbers as the lists have.
pub fn taken_numbers_follow_the_owners()
    ensures none { (space : Allotment) (extents : ℕ) → space.uses ≡ replicate extents Use.Free → TakenExactly space [] }
    ensures taken { (old new : Allotment) (numbers added : List ℕ) → TakenExactly old numbers → All (IsFree old) added
        → IsDistinct nat_eq added → Marks added Use.Taken old new → TakenExactly new (numbers ++ added) }
    ensures freed { (old new : Allotment) (kept given : List ℕ) → TakenExactly old (kept ++ given)
        → Marks given Use.Free old new → TakenExactly new kept }
    ensures order { (space : Allotment) (xs ys : List ℕ) → IsPermutation xs ys → TakenExactly space xs → TakenExactly space ys }
    ensures counted { (space : Allotment) (numbers : List ℕ) → TakenExactly space numbers → taken_count space ≡ length numbers }
{}
