//! The buffer of a chunker.
ghost use Rattle.std.specs.Prelude.{◌≡◌, ℕ, ◌+◌, ◌-◌, ◌≤◌, ◌++◌, length, slice_range};

/// Makes room for `count` bytes behind those from `start` to `end`: where too little is left there, they move to the front.
/// Gives where they begin.
pub(crate) fn make_room(buffer: &mut [u8], start: usize, end: usize, count: usize) -> usize
    requires ordered { start ≤ end }
    requires within { end ≤ length buffer.old }
    requires enough { end - start + count ≤ length buffer.old }
    ensures room { result + (end - start) + count ≤ length buffer.old }
    ensures kept { slice_range buffer.new result (result + (end - start)) ≡ slice_range buffer.old start end }
{
    if count <= buffer.len() - end {
        return start;
    }
    buffer.copy_within(start..end, 0);
    0
}

/// Writes bytes from `end` on, behind those from `start`.
pub(crate) fn append(buffer: &mut [u8], start: usize, end: usize, bytes: &[u8])
    requires ordered { start ≤ end }
    requires room { end + length bytes.now ≤ length buffer.old }
    ensures { slice_range buffer.new start (end + length bytes.now) ≡ slice_range buffer.old start end ++ bytes.now }
{
    buffer[end..end + bytes.len()].copy_from_slice(bytes);
}
