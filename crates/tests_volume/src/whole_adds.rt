//! Whole adds by one caller, who holds the volume alone.

ghost use Rattle.std.specs.Prelude.{◌≡◌, None, OnOk};
ghost use Rattle.bv_volume.specs.Sessions.{own_add};

use crate::answers::{Answer, answer_of};
use crate::device::made;
use bv_adder::add_whole;
use bv_claims::Claims;
use bv_device::Device;
use bv_mount::inspect;
use bv_mounted::mount;
use bv_store::Store;
use bv_volume::Volume;
use bv_writer::Adding;
use spec_core::Who;
use std::alloc::Global;
use std::process::Abort;
use std::test::Fail;

const WHO: Who = Who {
    session: 0,
    line: 1,
};

/// What an add of these bytes answers.
fn adds<R: Abort, S: Store>(
    rt: &R,
    alloc: Global,
    volume: &mut Volume<'_, S>,
    claims: &Claims,
    bytes: &[u8],
) -> Result<Answer, Fail>
    requires table { volume.old.space.claims ≡ claims.now }
    requires version { volume.old.history.version ≡ 1 }
    requires idle { own_add volume.old.history 0 ≡ None }
    ensures table { OnOk result (volume.new.space.claims ≡ claims.now) }
    ensures version { OnOk result (volume.new.history.version ≡ 1) }
    ensures idle { OnOk result (own_add volume.new.history 0 ≡ None) }
{
    let adding = Adding::plan(alloc, Vec::from_slice(alloc, bytes)?)?;
    assert!(rt; adding.need() <= 65_535);
    let answered = add_whole(alloc, volume, claims, WHO, &adding)?;
    Ok(answer_of(&answered))
}

/// Adds a blob, the same again, and one for which there is no room.
fn add_three<R: Abort, S: Store>(
    rt: &R,
    alloc: Global,
    volume: &mut Volume<'_, S>,
    claims: &Claims,
) -> Result<(), Fail>
    requires table { volume.old.space.claims ≡ claims.now }
    requires version { volume.old.history.version ≡ 1 }
    requires idle { own_add volume.old.history 0 ≡ None }
{
    let large = vec![in alloc; 7u8; 600_000]?;
    assert_eq!(rt; adds(rt, alloc, volume, claims, b"hi")?, ("published", 0));
    assert_eq!(rt; adds(rt, alloc, volume, claims, b"hi")?, ("exists", 0));
    // 74 data blocks and one of their tree.
    assert_eq!(rt; adds(rt, alloc, volume, claims, &large)?, ("no-space", 75));
    Ok(())
}

#[test]
fn a_whole_add_answers_as_its_line_does(rt: HostRuntime) -> Result<(), Fail> {
    let alloc = rt.alloc();
    let mut dev = made(&rt, alloc, 1)?;
    let Ok(inspected) = inspect(alloc, &mut dev) else {
        return Err(Fail::from("a volume"));
    };
    assert!(rt; inspected.geometry.version == 1 && inspected.geometry.blocks == 64);
    let (claims, boss) = Claims::new(alloc, 64)?;
    let Ok(mut volume) = mount(alloc, dev, inspected, &claims, boss) else {
        return Err(Fail::from("a mount"));
    };
    let added = add_three(&rt, alloc, &mut volume, &claims);
    let (history, store) = volume.give_up();
    added?;
    // Begin, admit, put and settle, and two that were refused.
    assert_eq!(rt; history.events().len(), 6);
    let dev = store.into_device();
    assert_eq!(rt; dev.faults(), 0);
    Ok(())
}
