//! Two sessions of which each goes on only once the other came as far. Sessions that ran one after
//! another, or a lock that was held while an add is planned, its blocks are claimed or a window is
//! verified, would wait in vain.

use crate::order::Call::{self, Pass, Work};
use crate::order::Order;
use crate::runs::printed;
use bv_device::MemDevice;
use std::test::Fail;

/// The words that make a volume, which needs 83 blocks: 3 of metadata, 16 of the journal and 64 of
/// data.
const FRESH: &str = "fresh 64 128 16";

/// Session 0 begins its second line no sooner than session 1 comes to its own, and 1 its third no
/// sooner than 0 does.
const LINES: [(Call, Call); 2] = [(Pass(0, 2), Pass(1, 2)), (Pass(1, 3), Pass(0, 3))];

const SYNCS: &str = "0 sync
1 sync
0 sync
1 sync
0 sync
1 sync
";

const SYNCED: &str = "session 0
1 sync synced
3 sync synced
5 sync synced
session 1
2 sync synced
4 sync synced
6 sync synced
history
";

#[test]
fn sessions_run_beside_one_another(rt: HostRuntime) -> Result<(), Fail> {
    let alloc = rt.alloc();
    let order = Order::new(&LINES);
    let dev = MemDevice::new(alloc, 83)?;
    let (text, _) = printed(&rt, alloc, dev, FRESH, SYNCS, &order)?;
    assert!(rt; text.starts_with(SYNCED), "{text}");
    assert_eq!(rt; order.late(), 0);
    Ok(())
}

/// Session 0 plans an add, claims its blocks, and verifies a window. Session 1 does a line in each
/// of these.
const WORKS: [(Call, Call); 6] = [
    (Pass(1, 1), Work(0, 1)),
    (Work(0, 1), Pass(1, 2)),
    (Pass(1, 2), Work(0, 2)),
    (Work(0, 2), Pass(1, 3)),
    (Pass(1, 3), Work(0, 3)),
    (Work(0, 3), Pass(1, 4)),
];

const AN_ADD: &str = "0 add hex:6869
0 open 0 hex:6869
1 sync
1 sync
1 sync
";

/// A begun add waits while its blocks are claimed: a sync comes before its begin, behind it, and
/// behind the fetch.
const BETWEEN: &str = "session 0
1 add df6d2bb7dac8a27c99a0ac498fabc106e94eab93dc88d40b2e313aeae33cb5a6 published
2 open 0 df6d2bb7dac8a27c99a0ac498fabc106e94eab93dc88d40b2e313aeae33cb5a6 opened 2
session 1
3 sync synced
4 sync synced
5 sync synced
history
1 1 3 sync synced
2 0 1 begin df6d2bb7dac8a27c99a0ac498fabc106e94eab93dc88d40b2e313aeae33cb5a6 2 granted
3 1 4 sync synced
4 0 1 admit df6d2bb7dac8a27c99a0ac498fabc106e94eab93dc88d40b2e313aeae33cb5a6 admitted
5 0 1 put 0 written
6 0 1 settle df6d2bb7dac8a27c99a0ac498fabc106e94eab93dc88d40b2e313aeae33cb5a6 published
7 0 2 open 0 df6d2bb7dac8a27c99a0ac498fabc106e94eab93dc88d40b2e313aeae33cb5a6 opened 2
8 0 2 fetch 0 0 fetched
9 1 5 sync synced
10 16 0 unmount unmounted
";

#[test]
fn an_add_is_worked_on_outside_the_lock(rt: HostRuntime) -> Result<(), Fail> {
    let alloc = rt.alloc();
    let order = Order::new(&WORKS);
    let dev = MemDevice::new(alloc, 83)?;
    let (text, _) = printed(&rt, alloc, dev, FRESH, AN_ADD, &order)?;
    assert_eq!(rt; text.as_str(), BETWEEN);
    assert_eq!(rt; (order.works(0), order.late()), (3, 0));
    Ok(())
}

/// Session 1 adds while session 0 claims the blocks of its add.
const WHILE_CLAIMED: [(Call, Call); 2] = [(Pass(1, 1), Work(0, 2)), (Work(0, 2), Pass(1, 2))];

/// The blob that session 0 adds is added by session 1, too.
const SAME: &str = "0 add hex:6869
1 add hex:6869
";

const IN_FLIGHT: &str = "session 0
1 add df6d2bb7dac8a27c99a0ac498fabc106e94eab93dc88d40b2e313aeae33cb5a6 published
session 1
2 add df6d2bb7dac8a27c99a0ac498fabc106e94eab93dc88d40b2e313aeae33cb5a6 in-flight
history
1 0 1 begin df6d2bb7dac8a27c99a0ac498fabc106e94eab93dc88d40b2e313aeae33cb5a6 2 granted
2 1 2 begin df6d2bb7dac8a27c99a0ac498fabc106e94eab93dc88d40b2e313aeae33cb5a6 2 in-flight
3 0 1 admit df6d2bb7dac8a27c99a0ac498fabc106e94eab93dc88d40b2e313aeae33cb5a6 admitted
4 0 1 put 0 written
5 0 1 settle df6d2bb7dac8a27c99a0ac498fabc106e94eab93dc88d40b2e313aeae33cb5a6 published
6 16 0 unmount unmounted
";

/// Session 0 adds a blob that takes all 63 blocks, and session 1 another one.
const ALL: &str = "0 add fill:41:507904
1 add hex:00
";

const NO_SPACE: &str = "session 0
1 add ed32d79ec78a30ea75468e94ba2cee712e284264070b60d10e3e56b69f4b6b74 published
session 1
2 add 0c9eefda90e39f8de79af6fe069eda5d43205f7d3e626d5bd80edf7463f3f4a5 no-space 1 0
history
1 0 1 begin ed32d79ec78a30ea75468e94ba2cee712e284264070b60d10e3e56b69f4b6b74 507904 granted
2 1 2 begin 0c9eefda90e39f8de79af6fe069eda5d43205f7d3e626d5bd80edf7463f3f4a5 1 no-space 1 0
3 0 1 admit ed32d79ec78a30ea75468e94ba2cee712e284264070b60d10e3e56b69f4b6b74 admitted
";

#[test]
fn an_add_under_way_keeps_its_name_and_its_blocks(rt: HostRuntime) -> Result<(), Fail> {
    let alloc = rt.alloc();
    for (script, wanted) in [(SAME, IN_FLIGHT), (ALL, NO_SPACE)] {
        let order = Order::new(&WHILE_CLAIMED);
        let dev = MemDevice::new(alloc, 83)?;
        let (text, _) = printed(&rt, alloc, dev, FRESH, script, &order)?;
        assert!(rt; text.starts_with(wanted), "{text}");
        assert_eq!(rt; order.late(), 0);
    }
    Ok(())
}
