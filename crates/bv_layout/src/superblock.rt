//! The superblock read and written.
ghost use Rattle.std.specs.Prelude.{◌≡◌, ◌<◌, ◌≤◌, ◌^◌, ℕ, take, IfOk, Ok};
ghost use Rattle.spec_record.specs.Field.{fields};
ghost use Rattle.spec_record.specs.Geometry.{total_blocks};
ghost use Rattle.spec_record.specs.Superblock.{super_or_fault, super_widths, super_bytes, IsSuper};
ghost use Rattle.spec_record.specs.Laws.{SpellsSuper};
ghost use Rattle.bv_layout.specs.Table.{numbers};

use crate::counts::{has_blocks, has_journal, has_nodes};
use crate::table::{Row, block_of, row_of};
use bv_bytes::{Block, ensure, find_set};
use spec_record::{FieldName, Geometry, Super, SuperFault};

/// The bytes `blobvol` and a zero byte.
const MAGIC: u64 = 0x006c_6f76_626f_6c62;

/// The bytes `profile1`.
const SECOND_MAGIC: u64 = 0x3165_6c69_666f_7270;

/// Refuses a count where its test fails.
macro_rules! ensure_count {
    ($test:expr => $field:ident = $value:expr) => {
        ensure!($test => SuperFault::Counts { field: FieldName::$field, value: $value })
    };
}

/// Refuses a field, by its offset and width, that isn't zero.
macro_rules! ensure_zero {
    ($block:ident from $offset:literal, $width:literal) => {
        if let Some(offset) = find_set($block, $offset, $width) {
            return Err(SuperFault::Zero { offset });
        }
    };
}

/// The value of a block with these rows, or the first row that fails.
#[tactic(auto, unfolding(spec_record::specs::Superblock::super_or_fault))]
fn tested(row: &Row, block: &Block, device_blocks: u64) -> Result<Super, SuperFault>
    requires rows { numbers row.now ≡ take 12 (fields 0 super_widths block.now) }
    requires version { row.now.version < 2 ^ 32 }
    ensures { result ≡ super_or_fault block.now device_blocks }
{
    ensure!(row.magic == MAGIC && row.second_magic == SECOND_MAGIC => SuperFault::Magic);
    let version = row.version as u32;
    ensure!(version == 1 || version == 2 => SuperFault::Version(version));
    let geometry = Geometry {
        blocks: row.blocks,
        nodes: row.nodes,
        journal: row.journal,
        version,
    };
    ensure_count!(has_blocks(geometry) => Blocks = row.blocks);
    ensure_count!(has_nodes(geometry) => Nodes = row.nodes);
    ensure_count!(has_journal(geometry) => Journal = row.journal);
    ensure_count!(row.bitmap_blocks == geometry.bitmap() => BitmapBlocks = row.bitmap_blocks);
    ensure_count!(row.node_blocks == geometry.node_map() => NodeBlocks = row.node_blocks);
    ensure_count!(row.blobs <= row.nodes => Blobs = row.blobs);
    let used_blocks = row.used_blocks;
    ensure_count!(1 <= used_blocks && used_blocks <= row.blocks => UsedBlocks = used_blocks);
    ensure_count!(row.used_nodes <= row.nodes => UsedNodes = row.used_nodes);
    ensure_zero!(block from 20, 4);
    ensure_zero!(block from 88, 8104);
    let wanted = geometry.total();
    ensure!(wanted <= device_blocks => SuperFault::ShortDevice { wanted, has: device_blocks });
    Ok(Super {
        geometry,
        blobs: row.blobs,
        used_blocks,
        used_nodes: row.used_nodes,
    })
}

/// Reads the superblock of a device of so many blocks from its block 0.
pub fn read_super(block: &Block, device_blocks: u64) -> Result<Super, SuperFault>
    ensures value { result ≡ super_or_fault block.now device_blocks }
    ensures ok { IfOk result (λ sup. SpellsSuper block.now device_blocks sup) }
{
    tested(&row_of(block), block, device_blocks)
}

/// Writes a superblock.
pub fn write_super(sup: &Super) -> Block
    requires { IsSuper sup.now }
    ensures bytes { result ≡ super_bytes sup.now }
    ensures read { (device_blocks : ℕ) → total_blocks sup.now.geometry ≤ device_blocks
        → super_or_fault result device_blocks ≡ Ok sup.now }
{
    let geometry = sup.geometry;
    block_of(&Row {
        magic: MAGIC,
        second_magic: SECOND_MAGIC,
        version: geometry.version as u64,
        reserved: 0,
        blocks: geometry.blocks,
        nodes: geometry.nodes,
        journal: geometry.journal,
        bitmap_blocks: geometry.bitmap(),
        node_blocks: geometry.node_map(),
        blobs: sup.blobs,
        used_blocks: sup.used_blocks,
        used_nodes: sup.used_nodes,
    })
}
