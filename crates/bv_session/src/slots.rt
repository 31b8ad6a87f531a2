//! The pages of a session's open slots.

ghost use Rattle.std.specs.Prelude.{◌≡◌, ◌<◌, vec_len, IfOk, None, Some, replicate};
ghost use Rattle.bv_session.specs.Pages.{SameBut, reader_at};

use bv_pager::Reader;
use std::alloc::{AllocError, Global};

/// How many slots a session has.
const SLOTS: u32 = 64;

/// The pages of each slot, where it has some.
#[derive(Drop)]
pub struct Slots {
    pages: Vec<Option<Reader>>,
    ghost all: { vec_len pages ≡ 64 },
}

impl Slots {
    /// No slot has pages.
    pub fn new(alloc: Global) -> Result<Slots, AllocError>
        ensures { IfOk result (λ s. s.pages.items ≡ replicate 64 None) }
    {
        let mut pages = Vec::with_capacity(alloc, SLOTS as usize)?;
        for _ in 0..SLOTS {
            pages.push_reserved(None);
        }
        Ok(Slots { pages })
    }

    /// Takes the pages of a slot out.
    pub fn take(&mut self, slot: u32) -> Option<Reader>
        requires { slot < 64 }
        ensures taken { result ≡ reader_at self.old.pages.items slot }
        ensures none { reader_at self.new.pages.items slot ≡ None }
        ensures others { SameBut slot self.old.pages.items self.new.pages.items }
    {
        self.pages[slot as usize].take()
    }

    /// Puts the pages of a slot in.
    pub fn put(&mut self, slot: u32, pages: Reader)
        requires { slot < 64 }
        ensures here { reader_at self.new.pages.items slot ≡ Some pages }
        ensures others { SameBut slot self.old.pages.items self.new.pages.items }
    {
        self.pages[slot as usize] = Some(pages);
    }
}
