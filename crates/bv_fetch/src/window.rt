//! A window of a blob, with its path.

ghost use Rattle.std.specs.Prelude.{◌≡◌, ◌≤◌, ◌<◌, length, vec_len, vec_capacity, All, OnOk, IfOk};
ghost use Rattle.spec_tree.specs.Tree as T;
ghost use Rattle.spec_window.specs.Window as W;
ghost use Rattle.bv_fetch.specs.Reading.{AreOfBlobs, OnlyReads, SeesNow};
ghost use Rattle.bv_fetch.specs.Windows.{HasRoom, Holds, HasLengths};

use crate::data::read_data;
use crate::places::{data_among, tree_among};
use crate::tree::read_path;
use bv_merkle::levels;
use bv_proof::{RawWindow, window_bytes};
use bv_store::{Failed, Store};
use spec_tree::Blob;
use std::alloc::{AllocError, Global};

/// An empty window with room for this one of a blob of so many bytes.
pub fn room_for(alloc: Global, size: u64, window: u64) -> Result<RawWindow, AllocError>
    requires { window < T.windows_of size }
    ensures { IfOk result (HasRoom size window) }
{
    let bytes = Vec::with_capacity(alloc, window_bytes(size, window) as usize)?;
    let path = Vec::with_capacity(alloc, levels(size) as usize)?;
    Ok(RawWindow {
        window,
        bytes,
        path,
    })
}

/// Reads a window of a blob whose blocks are at these places, in order, and its path, into `raw`,
/// which has room for it. The data is cut to the blob's size.
pub fn read_window<S: Store>(
    store: &mut S,
    places: &[u64],
    blob: Blob,
    raw: &mut RawWindow,
) -> Result<(), Failed>
    requires window { raw.old.window < T.windows_of blob.size }
    requires need { length places.now ≡ T.need_of blob.version blob.size }
    requires within { All (λ b. b < (S.seen store.old).geometry.blocks) places.now }
    requires blobs { AreOfBlobs (S.seen store.old) places.now }
    requires room { HasRoom blob.size raw.old.window raw.old }
    ensures reads { OnlyReads result (S.seen store.old) (S.seen store.new) (S.both store.old)
        (S.both store.new) (S.held store.old) (S.held store.new) }
    ensures lengths { OnOk result (HasLengths blob.size raw.old.window raw.new) }
    ensures now { OnOk result (SeesNow (S.seen store.old)
        (Holds (S.seen store.old).geometry places.now blob raw.new)) }
{
    let content = data_among(places, blob.version, blob.size);
    let tree = tree_among(places, blob.version, blob.size);
    read_path(
        store,
        tree,
        blob.version,
        blob.size,
        raw.window,
        &mut raw.path,
    )?;
    read_data(store, content, blob.size, raw.window, &mut raw.bytes)
}
