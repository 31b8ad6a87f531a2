//! Bytes that should be zero.
ghost use Rattle.std.specs.Prelude.{◌≡◌, ℕ, ◌+◌, ◌<◌, ◌≤◌, ◌==◌, if◌then◌else◌, length, slice_index, Option, Some, None};
ghost use Rattle.spec_record.specs.Field.{field};
ghost use Rattle.spec_record.specs.Tests.{first_set};

use crate::field::get_at;

/// How many bytes are looked at in one step.
const WORD: usize = 8;

/// Goes on past words of zeros: to one that isn't, or to the last bytes, which make no word.
fn past_zeros(bytes: &[u8], offset: usize, end: usize) -> usize
    requires { (offset ≤ end) × (end ≤ length bytes.now) }
    ensures within { (offset ≤ result) × (result ≤ end) }
    ensures zeros { (k : ℕ) → offset ≤ k → k < result → slice_index bytes.now k ≡ 0 }
{
    let mut place = offset;
    while end - place >= WORD {
        if get_at(bytes, place, WORD) != 0 {
            break;
        }
        place += WORD;
    }
    place
}

/// The first byte that isn't zero among `width` bytes from `offset` on, counted from the start of
/// `bytes`.
pub fn find_set(bytes: &[u8], offset: usize, width: usize) -> Option<u64>
    requires { offset + width ≤ length bytes.now }
    ensures { let zero = field bytes.now offset width == 0 in
        result ≡ (if zero then None else Some (first_set bytes.now offset)) }
{
    let end = offset + width;
    for place in past_zeros(bytes, offset, end)..end {
        if bytes[place] != 0 {
            return Some(place as u64);
        }
    }
    None
}
