//! One field of a record, at an offset and of a width that its type says.
ghost use Rattle.std.specs.Prelude.{◌≡◌, ◌⊎◌, ℕ, ◌+◌, ◌<◌, ◌≤◌, ◌^◌, List, IsTrue, length, slice_set};
ghost use Rattle.spec_record.specs.Field.{field, fields};
ghost use Rattle.bv_bytes.specs.Rows.{with_field, is_row};

/// The field of `W` bytes, 1 to 8, at byte `OFF` of a record, the lowest byte first.
pub struct Field<const OFF: usize, const W: usize> {}

impl<const OFF: usize, const W: usize> Field<OFF, W> {
    /// The number in the field.
    pub fn get(bytes: &[u8]) -> u64
        requires width { (0 < W) × (W ≤ 8) }
        requires covered { OFF + W ≤ length bytes.now }
        ensures value { result ≡ field bytes.now OFF W }
        ensures below { result < 256 ^ W }
    {
        get_at(bytes, OFF, W)
    }

    /// Puts a number into the field, and leaves every other byte.
    pub fn put(bytes: &mut [u8], value: u64)
        requires width { (0 < W) × (W ≤ 8) }
        requires covered { OFF + W ≤ length bytes.old }
        requires fits { value < 256 ^ W }
        ensures bytes { bytes.new ≡ with_field bytes.old OFF W value }
        ensures value { field bytes.new OFF W ≡ value }
        ensures others { (offset width : ℕ) → (offset + width ≤ OFF) ⊎ (OFF + W ≤ offset)
            → field bytes.new offset width ≡ field bytes.old offset width }
        // of a table that has this field as row k, this row alone changes
        ensures rows { (widths : List ℕ) (k : ℕ) → IsTrue (is_row 0 widths k OFF W)
            → fields 0 widths bytes.new ≡ slice_set (fields 0 widths bytes.old) k value }
    {
        put_at(bytes, OFF, W, value)
    }
}

/// The number in `width` bytes from `offset` on.
#[inline]
pub(crate) fn get_at(bytes: &[u8], offset: usize, width: usize) -> u64
    requires width { width ≤ 8 }
    requires covered { offset + width ≤ length bytes.now }
    ensures value { result ≡ field bytes.now offset width }
    ensures below { result < 256 ^ width }
{
    let mut eight = [0; 8];
    eight[..width].copy_from_slice(&bytes[offset..offset + width]);
    u64::from_le_bytes(eight)
}

fn put_at(bytes: &mut [u8], offset: usize, width: usize, value: u64)
    requires width { width ≤ 8 }
    requires covered { offset + width ≤ length bytes.old }
    ensures { bytes.new ≡ with_field bytes.old offset width value }
{
    bytes[offset..offset + width].copy_from_slice(&value.to_le_bytes()[..width]);
}
