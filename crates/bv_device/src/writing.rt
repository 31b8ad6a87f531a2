//! Writes of several blocks.

ghost use Rattle.std.specs.Prelude.{◌<◌, ◌≤◌, ◌+◌, ◌^◌, length, replicate};
ghost use Rattle.bv_device.specs.Plan.{writes};
ghost use Rattle.bv_device.specs.Seen.{Performs};

use crate::{Block, Device, Failed};

/// Writes these blocks from block `at` on, one place after another, until one fails.
pub fn write_all<D: Device>(dev: &mut D, at: u64, blocks: &[Block]) -> Result<(), Failed>
    requires fits { at + length blocks.now < 2 ^ 64 }
    requires within { at + length blocks.now ≤ (D.seen dev.old).block_count }
    ensures { Performs result (writes at blocks.now) (D.seen dev.old) (D.seen dev.new) }
{
    let mut place = at;
    for block in blocks {
        dev.write(place, block)?;
        place += 1;
    }
    Ok(())
}

/// Writes one block to `count` places from block `at` on, until one write fails.
pub fn write_copies<D: Device>(
    dev: &mut D,
    at: u64,
    count: u64,
    block: &Block,
) -> Result<(), Failed>
    requires fits { at + count < 2 ^ 64 }
    requires within { at + count ≤ (D.seen dev.old).block_count }
    ensures { Performs result (writes at (replicate count block.now))
        (D.seen dev.old) (D.seen dev.new) }
{
    for done in 0..count {
        dev.write(at + done, block)?;
    }
    Ok(())
}
