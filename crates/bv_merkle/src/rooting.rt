//! The root of bytes in memory.

ghost use Rattle.std.specs.Prelude.{◌≡◌, ◌^◌, ◌≤◌, length};
ghost use Rattle.spec_tree.specs.Tree.{root_of};

use crate::{RootHasher, WINDOW_LEN};
use spec_tree::Digest;

/// The root of the bytes. It takes no memory.
pub fn root(bytes: &[u8]) -> Digest
    requires { length bytes.now ≤ 2 ^ 40 }
    ensures { result ≡ root_of bytes.now }
{
    let mut hasher = RootHasher::new();
    let whole = bytes.len() / WINDOW_LEN;
    for i in 0..whole {
        let window = &bytes[i * WINDOW_LEN..(i + 1) * WINDOW_LEN];
        hasher.window(window);
    }
    let rest = &bytes[whole * WINDOW_LEN..];
    hasher.window(rest);
    hasher.finish()
}
