//! The data of a window, read block by block.

ghost use Rattle.std.specs.Prelude.{◌≡◌, ◌≤◌, ◌<◌, ◌+◌, ◌++◌, take, length, vec_len, vec_capacity, All, Contains, OnOk};
ghost use Rattle.spec_disk.specs.Disk.{block};
ghost use Rattle.spec_record.specs.Geometry.{block_at};
ghost use Rattle.spec_tree.specs.Tree.{data_blocks, windows_of};
ghost use Rattle.spec_window.specs.Window as W;
ghost use Rattle.bv_device.specs.Told.{now_of};
ghost use Rattle.bv_store.specs.Stored.{blocks_in, blocks_on};
ghost use Rattle.bv_fetch.specs.Reading.{AreOfBlobs, OnlyReads, SeesNow};
ghost use Rattle.bv_fetch.specs.Windows.{data_window};

use crate::BLOCK_LEN;
use crate::places::are_whole;
use crate::pushing::push_bytes;
use bv_proof::window_bytes;
use bv_store::{Failed, Store};

/// Reads a data block, and adds so many of its bytes to `out`, which has room for them.
fn add_piece<S: Store>(
    store: &mut S,
    at: u64,
    count: usize,
    out: &mut Vec<u8>,
) -> Result<(), Failed>
    requires at { at < (S.seen store.old).geometry.blocks }
    requires blob { Contains (blocks_in (S.seen store.old).placed) at }
    requires count { count ≤ 8192 }
    requires room { vec_len out.old + count ≤ vec_capacity out.old }
    ensures reads { OnlyReads result (S.seen store.old) (S.seen store.new) (S.both store.old)
        (S.both store.new) (S.held store.old) (S.held store.new) }
    ensures len { OnOk result (vec_len out.new ≡ vec_len out.old + count) }
    ensures room { OnOk result (vec_capacity out.old ≤ vec_capacity out.new) }
    ensures adds { OnOk result (SeesNow (S.seen store.old) (λ d. out.new.items ≡ out.old.items
        ++ take count (block (now_of d) (block_at (S.seen store.old).geometry at)))) }
{
    let mut block = [0; BLOCK_LEN];
    store.read(at, &mut block)?;
    push_bytes(out, &block[..count]);
    Ok(())
}

/// Reads the data of a window of a blob whose data blocks are at these places, cut to the blob's size, into
/// `out`, which is empty and has room for it.
pub(crate) fn read_data<S: Store>(
    store: &mut S,
    content: &[u64],
    size: u64,
    window: u64,
    out: &mut Vec<u8>,
) -> Result<(), Failed>
    requires window { window < windows_of size }
    requires count { length content.now ≡ data_blocks size }
    requires within { All (λ b. b < (S.seen store.old).geometry.blocks) content.now }
    requires blobs { AreOfBlobs (S.seen store.old) content.now }
    requires empty { vec_len out.old ≡ 0 }
    requires room { W.window_bytes size window ≤ vec_capacity out.old }
    ensures reads { OnlyReads result (S.seen store.old) (S.seen store.new) (S.both store.old)
        (S.both store.new) (S.held store.old) (S.held store.new) }
    ensures len { OnOk result (vec_len out.new ≡ W.window_bytes size window) }
    ensures now { OnOk result (SeesNow (S.seen store.old) (λ d. out.new.items
        ≡ data_window size window (blocks_on (S.seen store.old).geometry d content.now))) }
{
    are_whole(store, content);
    let bytes = window_bytes(size, window);
    for k in 0..bytes.div_ceil(BLOCK_LEN as u64) {
        let count = (bytes - BLOCK_LEN as u64 * k).min(BLOCK_LEN as u64);
        let at = content[(8 * window + k) as usize];
        add_piece(store, at, count as usize, out)?;
    }
    Ok(())
}
