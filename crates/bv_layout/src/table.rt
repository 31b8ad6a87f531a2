//! The table of the superblock.
ghost use Rattle.std.specs.Prelude.{◌≡◌, ◌<◌, ◌^◌, ◌++◌, ◌∷◌, [], take};
ghost use Rattle.spec_record.specs.Field.{fields, AllFit};
ghost use Rattle.spec_record.specs.Superblock.{super_widths};
ghost use Rattle.bv_layout.specs.Table.{numbers};

use bv_bytes::{Block, fields};

/// The numbers in the table's rows. The last row, the zeros of the rest, is too wide for one.
#[derive(Drop)]
pub(crate) struct Row {
    pub magic: u64,
    pub second_magic: u64,
    pub version: u64,
    pub reserved: u64,
    pub blocks: u64,
    pub nodes: u64,
    pub journal: u64,
    pub bitmap_blocks: u64,
    pub node_blocks: u64,
    pub blobs: u64,
    pub used_blocks: u64,
    pub used_nodes: u64,
}

macro_rules! table {
    ($($what:tt)*) => {
        fields! {
            $($what)*;
            0 8 magic;
            8 8 second_magic;
            16 4 version;
            20 4 reserved;
            24 8 blocks;
            32 8 nodes;
            40 8 journal;
            48 8 bitmap_blocks;
            56 8 node_blocks;
            64 8 blobs;
            72 8 used_blocks;
            80 8 used_nodes;
        }
    };
}

pub(crate) fn row_of(block: &Block) -> Row
    ensures rows { numbers result ≡ take 12 (fields 0 super_widths block.now) }
    ensures version { result.version < 2 ^ 32 }
{
    table!(get Row from block)
}

/// The block with these rows, zeros in its rest.
pub(crate) fn block_of(row: &Row) -> Block
    requires { AllFit (take 12 super_widths) (numbers row.now) }
    ensures { fields 0 super_widths result ≡ numbers row.now ++ 0 ∷ [] }
{
    let mut block = [0; 8192];
    table!(put row into &mut block);
    block
}
