//! Laws of the definitions: what each function here ensures holds of all values.

ghost use Rattle.std.specs.Prelude.{◌≡◌, ℕ, ◌+◌, ◌*◌, ◌^◌, ◌<◌, ◌≤◌, List, [], ◌∷◌, length, replicate};
ghost use Rattle.std.specs.Int.{div_ceil};
ghost use Rattle.sha2.specs.Sha256.{sha256};
ghost use Rattle.spec_tree.specs.declared.Digest.{Digest};
ghost use Rattle.spec_tree.specs.Tree.{block_digest, level_above, level_of, levels_of, root_of, data_blocks, need_of};

/// A level above n digests has a digest for each 256 of them, the last for those that are left.
pub fn a_level_above_has_one_digest_for_256()
    ensures { (level : ℕ) (digests : List Digest)
        → length (level_above level digests) ≡ div_ceil (length digests) 256 }
{}

/// The root is all that the highest level has.
pub fn the_highest_level_is_the_root()
    ensures { (bytes : List ℕ) → level_of bytes (levels_of (length bytes)) ≡ root_of bytes ∷ [] }
{}

/// The number of levels is how often the level above is taken until one digest is left.
pub fn each_level_below_has_more_digests_than_one()
    ensures { (bytes : List ℕ) (level : ℕ)
        → level < levels_of (length bytes) → 1 < length (level_of bytes level) }
{}

/// The root of at most one block is that block's digest.
pub fn the_root_of_one_block_is_its_digest()
    ensures { (bytes : List ℕ) → length bytes ≤ 8192 → root_of bytes ≡ block_digest 0 0 bytes }
{}

/// At level 0 a block without data is hashed as the empty blob, whatever its offset.
pub fn a_block_without_data_is_hashed_as_the_empty_blob()
    ensures { (offset : ℕ) → (block_digest 0 offset []).0 ≡ sha256 (replicate 12 0) }
{}

/// A digest has the 32 bytes of SHA-256.
pub fn a_digest_has_32_bytes()
    ensures { (level offset : ℕ) (bytes : List ℕ)
        → length (block_digest level offset bytes).0 ≡ 32 }
{}

/// A size that fits 64 bits has at most seven levels above its data.
pub fn seven_levels_are_enough()
    ensures { (size : ℕ) → size < 2 ^ 64 → levels_of size ≤ 7 }
{}

/// A compact tree takes no more blocks than a padded one.
pub fn a_compact_tree_takes_no_more()
    ensures { (size : ℕ) → need_of 2 size ≤ need_of 1 size }
{}

/// A tree takes no more blocks than its data.
pub fn a_tree_takes_no_more_than_its_data()
    ensures { (version size : ℕ) → need_of version size ≤ 2 * data_blocks size }
{}
