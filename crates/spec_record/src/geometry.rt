//! The counts that fix where each region of a volume lies.

ghost use Rattle.std.specs.Prelude.{◌≡◌, ◌<◌};
ghost use Rattle.spec_record.specs.Geometry.{
  IsGeometry,
  bitmap_blocks,
  node_blocks,
  meta_blocks,
  ring_slots,
  info_at,
  slot_at,
  block_at,
  total_blocks,
};

/// The counts of a volume.
///
/// The limits of the counts and the place of each region stand in `specs/Geometry.antt`.
#[derive(Clone, Copy, Debug, PartialEq, Eq)]
pub struct Geometry {
    /// The data blocks. Data block 0 belongs to no blob.
    pub blocks: u64,
    /// The nodes of the node map.
    pub nodes: u64,
    /// The journal's blocks: the info block and the ring.
    pub journal: u64,
    /// The version of the format, 1 or 2.
    pub version: u32,
}

/// Numbers of blocks, and blocks of the device, counted from 0.
impl Geometry {
    /// The blocks of the bitmap.
    pub fn bitmap(&self) -> u64
        ensures { result ≡ bitmap_blocks self.now }
    {
        self.blocks.div_ceil(65536)
    }

    /// The blocks of the node map.
    pub fn node_map(&self) -> u64
        ensures { result ≡ node_blocks self.now }
    {
        self.nodes / 128
    }

    /// The metadata blocks: the superblock, the bitmap and the node map.
    pub fn meta(&self) -> u64
        ensures { result ≡ meta_blocks self.now }
    {
        1 + self.bitmap() + self.node_map()
    }

    /// The slots of the ring.
    pub fn ring(&self) -> u64
        requires { IsGeometry self.now }
        ensures { result ≡ ring_slots self.now }
    {
        self.journal - 1
    }

    /// Where the info block is.
    pub fn info_at(&self) -> u64
        ensures { result ≡ info_at self.now }
    {
        self.meta()
    }

    /// Where a slot of the ring is.
    pub fn slot_at(&self, slot: u64) -> u64
        requires limits { IsGeometry self.now }
        requires slot { slot < ring_slots self.now }
        ensures { result ≡ slot_at self.now slot }
    {
        self.meta() + 1 + slot
    }

    /// Where a data block is.
    pub fn block_at(&self, block: u64) -> u64
        requires limits { IsGeometry self.now }
        requires block { block < self.now.blocks }
        ensures { result ≡ block_at self.now block }
    {
        self.meta() + self.journal + block
    }

    /// The blocks that a device needs.
    pub fn total(&self) -> u64
        requires { IsGeometry self.now }
        ensures { result ≡ total_blocks self.now }
    {
        self.meta() + self.journal + self.blocks
    }
}
