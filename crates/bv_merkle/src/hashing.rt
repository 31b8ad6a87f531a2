//! The digest of one block.

ghost use Rattle.std.specs.Prelude.{◌≡◌, ℕ, ◌+◌, ◌*◌, ◌%◌, ◌^◌, ◌<◌, ◌≤◌, length, replicate, ◌++◌, List};
ghost use Rattle.spec_tree.specs.Tree as T;
ghost use Rattle.sha2.specs.Hashers.{Holds256};

use crate::BLOCK_LEN;
use sha2::{Digest as _, Sha256};
use spec_tree::Digest;

// Adds zeros to the message.
fn update_zeros(hasher: &mut Sha256, count: usize)
    requires { count ≤ 8192 }
    ensures { (m : List ℕ) → Holds256 hasher.old m → Holds256 hasher.new (m ++ replicate count 0) }
{
    let zeros = [0u8; BLOCK_LEN];
    hasher.update(&zeros[..count]);
}

/// The digest of the block with these bytes, at a level and a byte offset within it.
///
/// Level 0 is the data. A block without bytes is hashed as that of the empty blob, whatever its
/// offset.
pub fn block_digest(level: u32, offset: u64, bytes: &[u8]) -> Digest
    requires level { level < 8 }
    requires offset { offset % 8192 ≡ 0 }
    requires data { length bytes.now ≤ 8192 }
    requires digests { 0 < level → length bytes.now ≡ 8192 }
    ensures { result ≡ T.block_digest level offset bytes.now }
{
    let (place, padding) = if bytes.is_empty() {
        (0, 0)
    } else {
        (offset | level as u64, BLOCK_LEN - bytes.len())
    };
    let count = bytes.len() as u32;
    let mut hasher = Sha256::new();
    hasher.update(&place.to_le_bytes());
    hasher.update(&count.to_le_bytes());
    hasher.update(bytes);
    update_zeros(&mut hasher, padding);
    Digest(hasher.finalize())
}
