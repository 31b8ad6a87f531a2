//! Values put at the end of vectors that have room for them.

ghost use Rattle.std.specs.Prelude.{◌≡◌, ◌≤◌, ◌+◌, ◌++◌, ◌∷◌, [], length, vec_len, vec_capacity};

use bv_store::Block;

/// Adds bytes, for which there is room.
pub(crate) fn push_bytes(out: &mut Vec<u8>, bytes: &[u8])
    requires { vec_len out.old + length bytes.now ≤ vec_capacity out.old }
    ensures items { out.new.items ≡ out.old.items ++ bytes.now }
    ensures len { vec_len out.new ≡ vec_len out.old + length bytes.now }
    ensures room { vec_capacity out.old ≤ vec_capacity out.new }
{
    match out.extend_from_slice(bytes) {
        Ok(()) => (),
        Err(_) => prove!(false),
    }
}

/// Adds a block, for which there is room.
pub(crate) fn push_block(out: &mut Vec<Block>, block: Block)
    requires { vec_len out.old + 1 ≤ vec_capacity out.old }
    ensures items { out.new.items ≡ out.old.items ++ block ∷ [] }
    ensures len { vec_len out.new ≡ vec_len out.old + 1 }
    ensures room { vec_capacity out.old ≤ vec_capacity out.new }
{
    match out.push(block) {
        Ok(()) => (),
        Err(_) => prove!(false),
    }
}
