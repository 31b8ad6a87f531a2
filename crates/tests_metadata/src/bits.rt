//! The bits of a bitmap of two blocks.

use bv_bitmap::Bits;
use std::test::Fail;

/// A bit, and where it stands: a block, a byte and the byte's value with that bit alone.
const PLACES: [(u64, usize, usize, u8); 7] = [
    (0, 0, 0, 0x01),
    (7, 0, 0, 0x80),
    (8, 0, 1, 0x01),
    (65_535, 0, 8_191, 0x80),
    (65_536, 1, 0, 0x01),
    (65_546, 1, 1, 0x04),
    (65_599, 1, 7, 0x80),
];

#[test]
fn a_bit_is_set_and_cleared_at_its_place_alone(rt: HostRuntime) -> Result<(), Fail> {
    let blocks = [[0; 8192]; 2];
    for (bit, block, byte, value) in PLACES {
        let mut bits = Bits::from_blocks(rt.alloc(), &blocks, 65_600)?;
        assert!(rt; bit < 65_600 && !bits.get(bit));
        bits.set(bit);
        assert!(rt; bits.get(bit));
        let mut wanted = blocks;
        wanted[block][byte] = value;
        assert!(rt; [bits.to_block(0), bits.to_block(1)] == wanted, "{bit}");
        bits.clear(bit);
        assert!(rt; [bits.to_block(0), bits.to_block(1)] == blocks, "{bit}");
    }
    Ok(())
}

#[test]
fn a_clear_leaves_each_other_bit_set(rt: HostRuntime) -> Result<(), Fail> {
    let blocks = [[0xff; 8192]; 2];
    for (bit, block, byte, value) in PLACES {
        let mut bits = Bits::from_blocks(rt.alloc(), &blocks, 65_600)?;
        assert!(rt; bit < 65_600);
        bits.clear(bit);
        let mut wanted = blocks;
        wanted[block][byte] = !value;
        assert!(rt; [bits.to_block(0), bits.to_block(1)] == wanted, "{bit}");
    }
    Ok(())
}
