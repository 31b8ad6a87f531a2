//! Laws of the definitions: what each function here ensures holds of all values.

ghost use Rattle.std.specs.Prelude.{◌≡◌, ◌≤◌, ◌++◌, ℕ, List, [], length, take, replicate, Err};
ghost use Rattle.spec_disk.specs.declared.event.Event.{Event};
ghost use Rattle.spec_disk.specs.Disk.{Blocks, block};
ghost use Rattle.spec_disk.specs.Images.{IsImage};
ghost use Rattle.spec_image.specs.Chance.{NoChance};
ghost use Rattle.spec_core.specs.History.{History, Legal, opening_map, log_of, with_event};
ghost use Rattle.spec_core.specs.declared.event.CoreEvent.{CoreEvent};
ghost use Rattle.spec_record.specs.declared.super_fault.SuperFault.TheVariants.{Magic};
ghost use Rattle.spec_record.specs.Superblock.{super_or_fault};
ghost use Rattle.spec_core.specs.Log.{changed};
ghost use Rattle.spec_core.specs.Synced.{synced_by, logged_by};
ghost use Rattle.spec_crash.specs.Crash.{HoldsWhole, CrashPrefix, StopsWithin};
ghost use Rattle.spec_crash.specs.Format.{head};
ghost use Rattle.spec_crash.specs.Timing.{IsTimed, TimesOne};

/// In a history that keeps the theorem, while nothing is logged, every image in which no torn entry
/// matches by chance holds the opening map.
pub fn an_empty_log_keeps_the_opening_map()
    ensures { (base j : Blocks) (events : List Event) (h : History) (n : ℕ)
        → log_of h ≡ [] → CrashPrefix base events h → n ≤ length events
        → IsImage base (take n events) j → NoChance base (take n events) j
        → HoldsWhole j (opening_map h) }
{}

/// In a history that keeps the theorem, where the whole log was durable by then, every image in
/// which no torn entry matches by chance holds the map after all of it.
pub fn a_synced_log_is_in_every_image()
    ensures { (base j : Blocks) (events : List Event) (h : History) (n : ℕ)
        → synced_by h n ≡ length (log_of h) → CrashPrefix base events h → n ≤ length events
        → IsImage base (take n events) j → NoChance base (take n events) j
        → HoldsWhole j (changed (opening_map h) (log_of h)) }
{}

/// In a legal, timed history, what is durable after so many calls of the device was logged by then.
pub fn what_is_synced_was_logged()
    ensures { (events : List Event) (h : History) (next calls : ℕ)
        → Legal h next → IsTimed events h → synced_by h calls ≤ logged_by h calls }
{}

/// A mount that has done nothing, of a disk whose blobs are whole, keeps the theorem.
pub fn a_fresh_mount_keeps_its_blobs()
    ensures { (base : Blocks) (h : History)
        → h.events ≡ [] → HoldsWhole base (opening_map h) → CrashPrefix base [] h }
{}

/// A head of zeros is refused by its magic.
pub fn a_head_of_zeros_is_refused()
    ensures { (j : Blocks) (blocks : ℕ)
        → head j ≡ replicate 512 0 → super_or_fault (block j 0) blocks ≡ Err Magic }
{}

/// An event that follows on the device's events so far, with those that it made, keeps a history
/// timed.
pub fn one_event_more_is_timed()
    ensures { (events more : List Event) (h : History) (e : CoreEvent)
        → IsTimed events h → TimesOne events more e → IsTimed (events ++ more) (with_event h e) }
{}

/// A mount keeps the theorem over one event more, if each stop within the event keeps it.
pub fn one_event_more_keeps_the_theorem()
    ensures { (base : Blocks) (events more : List Event) (h : History) (e : CoreEvent)
        → CrashPrefix base events h → TimesOne events more e
        → StopsWithin base events more (with_event h e)
        → CrashPrefix base (events ++ more) (with_event h e) }
{}
