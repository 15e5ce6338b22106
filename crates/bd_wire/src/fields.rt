//! Fields written into a buffer.
ghost use Rattle.std.specs.Prelude.{◌≡◌, ℕ, ◌+◌, ◌^◌, ◌<◌, ◌≤◌, List, [], ◌∷◌, ◌++◌, length, take, drop, slice_index, EachIndex};
ghost use Rattle.std.specs.Int.{w32, w64, to_be_bytes, from_be_bytes};
ghost use lib.Seq.{paste};

/// Writes the byte at place `at`, and changes nothing else.
pub fn put_u8(into: &mut [u8], at: usize, value: u8)
    requires { at + 1 ≤ length into.old }
    ensures { into.new ≡ paste into.old at (value ∷ []) 1 }
{
    into[at] = value;
}

/// Writes the 4 bytes of the value from place `at` on, the high byte first, and changes nothing else.
pub fn put_u32(into: &mut [u8], at: usize, value: u32)
    requires { at + 4 ≤ length into.old }
    ensures { into.new ≡ paste into.old at (to_be_bytes w32 value) 4 }
{
    into[at..at + 4].copy_from_slice(&value.to_be_bytes());
}

/// Writes the 8 bytes of the value from place `at` on, the high byte first, and changes nothing else.
pub fn put_u64(into: &mut [u8], at: usize, value: u64)
    requires { at + 8 ≤ length into.old }
    ensures { into.new ≡ paste into.old at (to_be_bytes w64 value) 8 }
{
    into[at..at + 8].copy_from_slice(&value.to_be_bytes());
}

/// A field has the width of its type, its bytes and its value give each other back, it stands where it
/// was put, and bytes begin with one field at most.
pub fn fields_read_back()
    ensures width_u32 { (n : ℕ) → length (to_be_bytes w32 n) ≡ 4 }
    ensures width_u64 { (n : ℕ) → length (to_be_bytes w64 n) ≡ 8 }

    ensures value_u32 { (n : ℕ) → n < 2 ^ 32 → from_be_bytes w32 (to_be_bytes w32 n) ≡ n }
    ensures value_u64 { (n : ℕ) → n < 2 ^ 64 → from_be_bytes w64 (to_be_bytes w64 n) ≡ n }

    ensures put_u32 { (into : List ℕ) (at n : ℕ) → at + 4 ≤ length into → n < 2 ^ 32
        → from_be_bytes w32 (take 4 (drop at (paste into at (to_be_bytes w32 n) 4))) ≡ n }
    ensures put_u64 { (into : List ℕ) (at n : ℕ) → at + 8 ≤ length into → n < 2 ^ 64
        → from_be_bytes w64 (take 8 (drop at (paste into at (to_be_bytes w64 n) 8))) ≡ n }

    ensures bytes_u32 { (bytes : List ℕ) → length bytes ≡ 4 → EachIndex bytes (λ k. slice_index bytes k < 256)
        → to_be_bytes w32 (from_be_bytes w32 bytes) ≡ bytes }
    ensures bytes_u64 { (bytes : List ℕ) → length bytes ≡ 8 → EachIndex bytes (λ k. slice_index bytes k < 256)
        → to_be_bytes w64 (from_be_bytes w64 bytes) ≡ bytes }

    ensures one_u32 { (m n : ℕ) (rest others : List ℕ) → m < 2 ^ 32 → n < 2 ^ 32
        → to_be_bytes w32 m ++ rest ≡ to_be_bytes w32 n ++ others → (m ≡ n) × (rest ≡ others) }
    ensures one_u64 { (m n : ℕ) (rest others : List ℕ) → m < 2 ^ 64 → n < 2 ^ 64
        → to_be_bytes w64 m ++ rest ≡ to_be_bytes w64 n ++ others → (m ≡ n) × (rest ≡ others) }
{}
