//! The bytes of a data word, and the root of a name.

ghost use Rattle.std.specs.Prelude.{◌≡◌, ◌≤◌, IfOk, length, map};
ghost use Rattle.std.specs.List.{range_with_len};
ghost use Rattle.spec_script.specs.Limits.{name_len, word_len};
ghost use Rattle.spec_script.specs.Tasks.{name_root, seq_byte, word_bytes};

use bv_merkle::root;
use spec_script::{Name, Word};
use spec_tree::Digest;
use std::alloc::{AllocError, Global};

/// The bytes of a block, after which a `seq:` word counts one more.
const BLOCK_LEN: u64 = 8192;

/// The bytes that a data word of at most 4 MiB stands for.
#[tactic(auto, unfolding(spec_script::specs::Tasks::word_bytes))]
pub fn bytes_of(alloc: Global, word: &Word) -> Result<Vec<u8>, AllocError>
    requires { word_len word.now ≤ 4194304 }
    ensures bytes { IfOk result (λ bytes. bytes.items ≡ word_bytes word.now) }
    ensures len { IfOk result (λ bytes. length bytes.items ≡ word_len word.now) }
{
    match word {
        Word::Hex(bytes) => Vec::from_slice(alloc, bytes.as_slice()),
        Word::Fill { byte, len } => vec![in alloc; *byte; *len as usize],
        Word::Seq { base, len } => seq_bytes(alloc, *base, *len),
    }
}

// The bytes of a `seq:` word.
fn seq_bytes(alloc: Global, base: u8, len: u64) -> Result<Vec<u8>, AllocError>
    requires { len ≤ 4194304 }
    ensures bytes { IfOk result (λ bytes. bytes.items ≡ map (seq_byte base) (range_with_len 0 len)) }
    ensures len { IfOk result (λ bytes. length bytes.items ≡ len) }
{
    let mut bytes = Vec::with_capacity(alloc, len as usize)?;
    for i in 0..len {
        bytes.push(byte_at(base, i))?;
    }
    Ok(bytes)
}

// Byte i of a `seq:` word.
fn byte_at(base: u8, i: u64) -> u8
    requires { i ≤ 4194304 }
    ensures { result ≡ seq_byte base i }
{
    ((base as u64 + i + i / BLOCK_LEN) % 256) as u8
}

/// The root that a name stands for, whose data word has at most 4 MiB.
pub fn root_of_name(alloc: Global, name: &Name) -> Result<Digest, AllocError>
    requires { name_len name.now ≤ 4194304 }
    ensures { IfOk result (λ root. root ≡ name_root name.now) }
{
    match name {
        Name::Root(root) => Ok(*root),
        Name::Of(word) => {
            let bytes = bytes_of(alloc, word)?;
            Ok(root(&bytes))
        }
    }
}
