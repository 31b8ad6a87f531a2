//! The puts of an add, in the order of its blocks.

ghost use Rattle.std.specs.Prelude.{◌<◌, ◌+◌, IfErr, OnErr, OnOk};
ghost use Rattle.spec_core.specs.declared.act.Act.TheVariants.{Put};
ghost use Rattle.spec_session.specs.Lines.{puts};
ghost use Rattle.spec_tree.specs.Tree.{need_of};
ghost use Rattle.bv_adder.specs.Goes.{Goes};
ghost use Rattle.bv_adder.specs.Steps.{HasPuts, StopsPuts, add_by, own};
ghost use Rattle.bv_session.specs.Adds.{HasPut};
ghost use Rattle.bv_session.specs.Sessions.{Since};
ghost use Rattle.bv_volume.specs.Answers.{put_reply};
ghost use Rattle.bv_volume.specs.Events.{Happens};
ghost use Rattle.bv_volume.specs.Seen.{IsSafe};
ghost use Rattle.bv_writer.specs.Blocks.{IsBlobOf};

use bv_store::Store;
use bv_volume::{Admitted, PutFault, Volume};
use bv_writer::Adding;
use spec_core::Who;

/// Puts the next block.
fn put_next<S: Store>(
    volume: &mut Volume<'_, S>,
    who: Who,
    adding: &Adding,
    add: &mut Admitted,
    index: u64,
) -> Result<(), PutFault>
    requires puts { HasPuts adding.now index who.session volume.old add.old }
    requires low { index < need_of adding.now.version adding.now.size }
    requires blob { IsBlobOf adding.now.version adding.now.root adding.now.size adding.now.blocks }
    ensures happens { Happens volume.old volume.new who (Put index) (put_reply result) }
    ensures ok { OnOk result (HasPuts adding.now (index + 1) who.session volume.new add.new) }
    ensures err { OnErr result (HasPut adding.now index (add_by add.new) (own who.session volume.new)) }
    ensures crash { IsSafe volume.new }
{
    let _before = volume.history();
    let block = adding.block(index);
    let answer = volume.put(who, add, &block);
    let _after = volume.history();
    answer
}

/// Puts all blocks, up to the first that is refused.
pub(crate) fn put_all<S: Store>(
    volume: &mut Volume<'_, S>,
    who: Who,
    adding: &Adding,
    add: &mut Admitted,
) -> Result<(), PutFault>
    requires puts { HasPuts adding.now 0 who.session volume.old add.old }
    requires blob { IsBlobOf adding.now.version adding.now.root adding.now.size adding.now.blocks }
    ensures goes { Goes volume.old volume.new }
    ensures ok { OnOk result (HasPuts adding.now (need_of adding.now.version adding.now.size)
        who.session volume.new add.new) }
    ensures since { OnOk result (Since who (puts (need_of adding.now.version adding.now.size))
        volume.old.history.events volume.new.history.events) }
    ensures err { IfErr result (λ fault. StopsPuts adding.now who fault add.new
        volume.old volume.new) }
    ensures crash { IsSafe volume.new }
{
    for index in 0..adding.need() {
        match put_next(volume, who, adding, add, index) {
            Err(fault) => return Err(fault),
            Ok(()) => (),
        }
    }
    let _after = volume.history();
    Ok(())
}
