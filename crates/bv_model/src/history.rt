//! The history of a mount.

ghost use Rattle.std.specs.Prelude.{◌≡◌, ◌-◌, ◌+◌, ◌≤◌, ◌<◌, ◌^◌, ◌++◌, ◌∷◌, [], OnOk, OnErr, vec_len, vec_capacity};
ghost use Rattle.spec_core.specs.History.{setting_of};
ghost use Rattle.bv_model.specs.Noted.{with_noted};

use spec_core::{CoreEvent, Setting};
use spec_tree::Digest;
use std::alloc::{AllocError, Global};
use std::marker::Model;

/// The events of a mount, and what it began with: the blobs of the opening map as root, size and
/// version, which a legal history has in the order of the roots' bytes. Contracts see the `history`, as the rules speak
/// of it, and `spare`, the number of events that it has room for.
#[derive(Drop)]
pub struct History {
    opening: Vec<(Digest, u64, u32)>,
    setting: Setting,
    events: Vec<CoreEvent>,
    spare: u64,
}

impl Model for History {
    ghost use Rattle.bv_model.specs.Noted.{Noted};

    ghost Value = { Noted };

    ghost use Rattle.bv_model.specs.Kept.{noted_of, HasRoom};

    ghost view = { noted_of };

    ghost invariant = { HasRoom };
}

impl History {
    /// The history that a mount begins with, without an event.
    pub fn new(alloc: Global, setting: Setting, opening: Vec<(Digest, u64, u32)>) -> History
        ensures opening { result.history.opening ≡ opening.items }
        ensures blocks { result.history.blocks ≡ setting.blocks }
        ensures nodes { result.history.nodes ≡ setting.nodes }
        ensures version { result.history.version ≡ setting.version }
        ensures events { result.history.events ≡ [] }
        ensures spare { result.spare ≡ 0 }
    {
        History {
            opening,
            setting,
            events: Vec::new(alloc),
            spare: 0,
        }
    }

    /// The opening map: root, size and version of each blob.
    pub fn opening(&self) -> &[(Digest, u64, u32)]
        ensures { result.now ≡ self.now.history.opening }
    {
        self.opening.as_slice()
    }

    /// The numbers of the volume.
    pub fn setting(&self) -> Setting
        ensures { result ≡ setting_of self.now.history }
    {
        self.setting
    }

    /// The events so far.
    pub fn events(&self) -> &[CoreEvent]
        ensures { result.now ≡ self.now.history.events }
    {
        self.events.as_slice()
    }

    /// How many events there is room for.
    pub fn spare(&self) -> u64
        ensures { result ≡ self.now.spare }
    {
        self.spare
    }

    /// Makes room for so many events.
    pub fn reserve(&mut self, _alloc: Global, events: u64) -> Result<(), AllocError>
        requires { events < 2 ^ 62 }
        ensures history { self.new.history ≡ self.old.history }
        ensures ok { OnOk result (events ≤ self.new.spare) }
        ensures kept { self.old.spare ≤ self.new.spare }
        ensures err { OnErr result (self.new ≡ self.old) }
    {
        if self.spare < events {
            self.events.reserve(events as usize)?;
            self.spare = events;
        }
        Ok(())
    }

    /// Notes an event at the end.
    pub fn note(&mut self, event: CoreEvent)
        requires { 1 ≤ self.old.spare }
        ensures { self.new ≡ with_noted self.old event }
    {
        push_event(&mut self.events, event);
        self.spare -= 1;
    }
}

/// Puts an event at the end, where there is room.
fn push_event(events: &mut Vec<CoreEvent>, event: CoreEvent)
    requires { vec_len events.old < vec_capacity events.old }
    ensures items { events.new.items ≡ events.old.items ++ event ∷ [] }
    ensures len { vec_len events.new ≡ vec_len events.old + 1 }
    ensures capacity { vec_capacity events.old ≤ vec_capacity events.new }
{
    match events.push(event) {
        Ok(()) => (),
        Err(_) => prove!(false),
    }
}
