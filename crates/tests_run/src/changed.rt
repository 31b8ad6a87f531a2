//! A blob of which a byte was changed behind the volume's back, in memory and on a device that lies.

use crate::runs::{Change, begins, changed, prints};
use bv_device::{LyingDevice, MemDevice};
use bv_run::Status;
use std::test::Fail;

/// The blocks of the device.
const BLOCKS: u64 = 83;

/// Two windows of one byte's value.
const ADD: &str = "0 add fill:41:131072";

const READS: &str = "0 open 0 fill:41:131072
0 read 0 0 1
0 read 0 65536 1
";

/// The digest of data block 3 as it was, and of what is found.
const ANSWERS: &str = "session 0
1 open 0 36ff6267b8f2a0958f89b01a1b7b75b33371f238b6eb8d1cb97bfce39aab04d3 opened 131072
2 read 0 0 1 mismatch 0 24576 454a16aa72ec0ba7cd65a00d59213b7d72614e8645aa7dbe27bcdeb18aced9a4 d479bba9cb685ded6252afeb50b5644257968532504291e6cb59a7477c86488e
3 read 0 65536 1 bytes 1 41
history
";

const DAMAGED: &str = "damaged 36ff6267b8f2a0958f89b01a1b7b75b33371f238b6eb8d1cb97bfce39aab04d3
faults 1
";

const CLEAN: &str = "check: clean
blobs 1
bytes 131072
stale 0
";

/// The data begins at device block 19, and a blob's at the second of these. In version 1 a block of
/// digests comes first.
const VOLUMES: [(&str, Change); 2] = [
    ("fresh 64 128 16", (24, 0, 0x40)),
    ("fresh2 64 128 16", (23, 0, 0x40)),
];

#[test]
fn a_changed_byte_is_told_on_any_device_and_by_a_check(rt: HostRuntime) -> Result<(), Fail> {
    let alloc = rt.alloc();
    for (volume, change) in VOLUMES {
        let dev = MemDevice::new(alloc, BLOCKS)?;
        let dev = begins(&rt, alloc, dev, (volume, ADD), Status::Ok, "session 0")?;
        let mut dev = prints(&rt, alloc, dev, ("check", ""), Status::Ok, CLEAN)?;
        let blocks = changed(alloc, &mut dev, BLOCKS, &[change])?;
        let lies = LyingDevice::new(alloc, blocks, Vec::new(alloc));
        begins(&rt, alloc, lies, ("script", READS), Status::Damage, ANSWERS)?;
        let blocks = changed(alloc, &mut dev, BLOCKS, &[change])?;
        let told = MemDevice::from_blocks(alloc, blocks);
        let told = begins(&rt, alloc, told, ("script", READS), Status::Damage, ANSWERS)?;
        prints(&rt, alloc, told, ("check", ""), Status::Damage, DAMAGED)?;
    }
    Ok(())
}
