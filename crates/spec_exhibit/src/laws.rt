//! Laws of names: what each function here ensures holds of all values.

ghost use Rattle.std.specs.Prelude.{◌≡◌, ◌≢◌, ◌<◌, ◌⊎◌, ℕ, List, [], ◌∷◌, length, slice_get};
ghost use Rattle.sha2.specs.Sha256.{sha256};
ghost use Rattle.spec_tree.specs.Tree.{digests_at, level_of, levels_of, root_of};
ghost use Rattle.spec_exhibit.specs.Exhibit.{AreBytes, TreesCollide, message_at};

/// Each digest in a blob's tree is SHA-256 of its block's message.
pub fn a_digest_is_sha_256_of_its_message()
    ensures { (blob : List ℕ) (level index : ℕ) → index < digests_at (length blob) level
        → slice_get (level_of blob level) index
        ≡ Some (record { 0 = sha256 (message_at blob level index) }) }
{}

/// A blob's root is SHA-256 of the message of the one block at the highest level.
pub fn a_root_is_sha_256_of_the_highest_message()
    ensures { (blob : List ℕ)
        → (root_of blob).0 ≡ sha256 (message_at blob (levels_of (length blob)) 0) }
{}

/// Two blobs of one length with one root are the same, or at one place in both trees unlike
/// messages with one SHA-256 are hashed.
pub fn one_root_has_one_blob()
    ensures { (a b : List ℕ) → AreBytes a → AreBytes b → length a ≡ length b
        → root_of a ≡ root_of b → (a ≡ b) ⊎ TreesCollide a b }
{}

/// Unlike blobs of one length, whose trees collide nowhere, have unlike roots.
pub fn trees_that_collide_nowhere_have_unlike_roots()
    ensures { (a b : List ℕ) → AreBytes a → AreBytes b → length a ≡ length b
        → a ≢ b → ¬ TreesCollide a b → root_of a ≢ root_of b }
{}

/// A tree collides nowhere with itself.
pub fn a_tree_collides_nowhere_with_itself()
    ensures { (blob : List ℕ) → ¬ TreesCollide blob blob }
{}

/// Unlike blobs need not collide: the trees of one byte 0 and of one byte 1 do so nowhere, and thus
/// have unlike roots.
pub fn the_trees_of_two_bytes_collide_nowhere()
    ensures nowhere { ¬ TreesCollide (0 ∷ []) (1 ∷ []) }
    ensures unlike { root_of (0 ∷ []) ≢ root_of (1 ∷ []) }
{}
