//! What a thread does with its share, and how a turn begins and ends.
ghost use Rattle.std.specs.Prelude.{◌≡◌, ℕ, ◌^◌, ◌<◌, ◌≤◌, true, false, [], ◌∷◌, ◌++◌, length, map, Some, None, IfOk, IfErr, IfSome, All, vec_len, vec_capacity};
ghost use Rattle.std.specs.List.{flat_map, AllByRecursion};
ghost use Rattle.bv_turn.specs.Kinds.{Idle, Waits, Took};
ghost use Rattle.bv_turn.specs.Rule.{Closed};
ghost use Rattle.bv_turn.specs.Tokens.{IsOf, IsIdle, IsOut, KnowsEntries, KnowsBasis, MayPass, Gains, HasShare, AreFresh, seats_of, first_of, session_of, list_of, basis_of, held_entries};
ghost use Rattle.bv_turn.specs.Views.{fresh};

use crate::bells;
use crate::keeps::Keeps;
use crate::rule::{About, Draw, Look, Merge, Note, Pass, Peel};
use crate::turn::{Held, Share, Turn};
use crate::view::View;
use atomic_table::{Refused, Seat, Table};
use std::alloc::{AllocError, Global};
use std::hint::spin_loop;
use std::snapshot::Snapshot;
use std::sync::Wait;
use std::sync::atomic::Ordering::SeqCst;

/// The word with the next ticket.
const TICKET: usize = 0;
/// The word with the ticket that is served.
const SERVING: usize = 1;
/// The word with the number of entries.
const NOTES: usize = 2;
/// How often a share tries to draw its ticket before it sleeps.
const LOOKS: u32 = 1_000;
/// The slot of the value.
const VALUE: usize = 0;

impl<T: Keeps> Share<T> {
    /// The session whose token this is, from 0.
    pub fn session(&self) -> u32
        ensures { result ≡ session_of self.now }
    {
        self.session
    }
}

impl<T: Keeps> Turn<T> {
    /// A turn over this value, and the share of each session, at the place of its number.
    ///
    /// For want of memory the value comes back.
    pub fn new(
        alloc: Global,
        value: T,
        seats: u32,
    ) -> Result<(Turn<T>, Vec<Share<T>>), (T, AllocError)>
        requires seats { (0 < seats) × (seats ≤ 16) }
        requires empty { T.entries value ≡ [] }
        ensures count { IfOk result (λ r. (seats_of r.0 ≡ seats) × (vec_len r.1 ≡ seats)) }
        ensures shares { IfOk result (λ r. AreFresh r.0 (T.basis value) r.1.items) }
        ensures err { IfErr result (λ r. r.0 ≡ value) }
    {
        let Ok(mut shares) = Vec::with_capacity(alloc, seats as usize) else {
            return Err((value, AllocError));
        };
        let Ok(mut slots) = Vec::with_capacity(alloc, 1) else {
            return Err((value, AllocError));
        };
        let about = About {
            seats,
            first: Snapshot::of(&value),
        };
        slots.push_reserved(Some(value));
        match Table::new(alloc, &[0, 0, 0], slots, &about) {
            Ok((table, mut seat)) => {
                let bells = bells::new();
                let turn = Turn { table, bells };
                share_out(&turn, &mut seat, seats, &mut shares);
                Ok((turn, shares))
            }
            Err(Refused { mut slots }) => {
                let Some(Some(value)) = slots.pop() else {
                    unreachable!()
                };
                slots.destroy_empty();
                Err((value, AllocError))
            }
        }
    }

    /// Waits until the share's ticket is served, and hands the value out.
    pub fn hold<R: Wait>(&self, rt: &R, share: &mut Share<T>) -> Held<T>
        requires this { IsOf self.now share.old }
        requires idle { IsIdle share.old }
        ensures this { IsOf self.now share.new × (session_of share.new ≡ session_of share.old) }
        ensures out { IsOut share.new × (held_entries share.new ≡ T.entries result.value) }
        ensures same { list_of share.new ≡ list_of share.old }
        ensures list { KnowsEntries share.new result.value }
        ensures basis { (basis_of share.new ≡ basis_of share.old)
            × KnowsBasis share.new result.value }
    {
        let ticket = self.draw(rt, share);
        self.wait(rt, share, ticket);
        self.take(share)
    }

    /// Gives the value back, with at most one entry more, and serves the next ticket.
    pub fn pass(&self, share: &mut Share<T>, held: Held<T>)
        requires this { IsOf self.now share.old }
        requires out { IsOut share.old }
        requires entries { MayPass share.old held.value }
        requires basis { KnowsBasis share.old held.value }
        ensures this { IsOf self.now share.new × (session_of share.new ≡ session_of share.old) }
        ensures idle { IsIdle share.new }
        ensures gained { Gains share.old share.new held.value }
        ensures list { KnowsEntries share.new held.value }
        ensures basis { basis_of share.new ≡ basis_of share.old }
    {
        let Held { value } = held;
        let count = value.count();
        let shared = &self.table.shared;
        // The value lies in the slot before its entries are counted and the next ticket is served.
        let old = shared.exchange(&mut share.seat, VALUE, Some(value));
        let None = old else { unreachable!() };
        shared.store::<Note<T>>(&mut share.seat, NOTES, count);
        let served = shared.fetch_add::<Pass<T>>(&mut share.seat, SERVING, 1);
        // Another bell is the first each time, so that no sleeper is always found last.
        bells::ring(&self.bells, served);
    }

    /// The value. All shares of the turn are given back for it.
    pub fn close(self, shares: Vec<Share<T>>) -> T
        requires this { All (λ s. IsOf self s × IsIdle s) shares.items }
        requires all { vec_len shares ≡ seats_of self }
        ensures lists { All (λ s. KnowsEntries s result) shares.items }
        ensures owned { All (HasShare shares.items) (T.entries result) }
        ensures basis { All (λ s. KnowsBasis s result) shares.items }
    {
        let all = gather(&self, shares);
        self.finish(all)
    }

    fn draw<R: Wait>(&self, rt: &R, share: &mut Share<T>) -> u64
        requires this { IsOf self.now share.old }
        requires idle { IsIdle share.old }
        ensures this { IsOf self.now share.new × (session_of share.new ≡ session_of share.old) }
        ensures drawn { Waits result share.old.seat.me.0 share.new.seat.me }
    {
        for _ in rt.forever() {
            if let Some(ticket) = self.draw_soon(share) {
                return ticket;
            }
            let bell = bells::of(&self.bells, share.session);
            bell.store(1, SeqCst);
            // Whoever passes the value on from here on finds the bell set.
            if let Some(ticket) = self.draw_now(share) {
                // So that no ring goes to a share that is awake while another sleeps.
                bell.store(0, SeqCst);
                return ticket;
            }
            bell.park(rt, 1);
        }
        unreachable!()
    }

    // Tries for a while.
    fn draw_soon(&self, share: &mut Share<T>) -> Option<u64>
        requires this { IsOf self.now share.old }
        requires idle { IsIdle share.old }
        ensures this { IsOf self.now share.new × (session_of share.new ≡ session_of share.old) }
        ensures drawn { IfSome result (λ ticket. Waits ticket share.old.seat.me.0 share.new.seat.me) }
        ensures not { result ≡ None → share.new.seat.me ≡ share.old.seat.me }
    {
        for _ in 0..LOOKS {
            if let Some(ticket) = self.draw_now(share) {
                return Some(ticket);
            }
            spin_loop();
        }
        None
    }

    // Draws a ticket where no other is out, so that it is the one that is served.
    fn draw_now(&self, share: &mut Share<T>) -> Option<u64>
        requires this { IsOf self.now share.old }
        requires idle { IsIdle share.old }
        ensures this { IsOf self.now share.new × (session_of share.new ≡ session_of share.old) }
        ensures drawn { IfSome result (λ ticket. Waits ticket share.old.seat.me.0 share.new.seat.me) }
        ensures not { result ≡ None → share.new.seat.me ≡ share.old.seat.me }
    {
        let shared = &self.table.shared;
        let serving = shared.peek(SERVING);
        // A look costs less than an exchange.
        if shared.peek(TICKET) != serving {
            return None;
        }
        let next = serving.wrapping_add(1);
        let found = shared.compare_exchange::<Draw<T>>(&mut share.seat, TICKET, serving, next);
        if found == serving { Some(found) } else { None }
    }

    fn look(&self, share: &mut Share<T>, ticket: u64) -> bool
        requires this { IsOf self.now share.old }
        requires waits { Waits ticket share.old.seat.me.0 share.old.seat.me }
        ensures this { IsOf self.now share.new × (session_of share.new ≡ session_of share.old) }
        ensures took { result ≡ true
            → Took T.session T.entries T.basis share.old.seat.me share.new.seat.me }
        ensures not { result ≡ false → share.new.seat.me ≡ share.old.seat.me }
    {
        let serving = self.table.shared.load::<Look<T>>(&mut share.seat, SERVING);
        serving == ticket
    }

    // No ticket was out when this one was drawn: so the first look finds it served.
    fn wait<R: Wait>(&self, rt: &R, share: &mut Share<T>, ticket: u64)
        requires this { IsOf self.now share.old }
        requires waits { Waits ticket share.old.seat.me.0 share.old.seat.me }
        ensures this { IsOf self.now share.new × (session_of share.new ≡ session_of share.old) }
        ensures took { Took T.session T.entries T.basis share.old.seat.me share.new.seat.me }
    {
        for _ in rt.forever() {
            if self.look(share, ticket) {
                return;
            }
        }
        unreachable!()
    }

    fn take(&self, share: &mut Share<T>) -> Held<T>
        requires this { IsOf self.now share.old }
        requires out { (x : T) × (share.old.seat.me.1 ≡ (0, Some x) ∷ []) }
        ensures this { IsOf self.now share.new × (session_of share.new ≡ session_of share.old) }
        ensures value { share.old.seat.me.1 ≡ (0, Some result.value) ∷ [] }
        ensures view { share.new.seat.me ≡ (share.old.seat.me.0, (0, None) ∷ []) }
    {
        let shared = &self.table.shared;
        let Some(value) = shared.exchange(&mut share.seat, VALUE, None) else {
            unreachable!()
        };
        Held { value }
    }

    // The table is closed by one seat with all sessions: no view waits, so the value is at home.
    fn finish(self, seat: Seat<Option<T>, View<T::Entry, T::Basis>>) -> T
        requires this { seat.table_id ≡ self.table.shared.table_id }
        requires idle { seat.me.0.ticket ≡ None }
        requires all { length seat.me.0.parts ≡ seats_of self }
        ensures { Closed T.session T.entries T.basis seat.me.0.parts result }
    {
        let Turn { table, bells: _ } = self;
        let mut closed = table.close_with(seat);
        let Some(value) = closed.take(VALUE) else {
            unreachable!()
        };
        closed.free();
        value
    }
}

fn seat_of<T: Keeps>(share: Share<T>) -> Seat<Option<T>, View<T::Entry, T::Basis>>
    ensures same { result ≡ share.seat }
    ensures one { map (λ p. p.session) share.seat.me.0.parts ≡ share.session ∷ [] }
{
    let Share { seat, .. } = share;
    seat
}

// Joins all shares into one seat with all sessions.
fn gather<T: Keeps>(
    turn: &Turn<T>,
    shares: Vec<Share<T>>,
) -> Seat<Option<T>, View<T::Entry, T::Basis>>
    requires this { AllByRecursion (λ s. IsOf turn.now s × IsIdle s) shares.items }
    requires some { 0 < length shares.items }
    ensures this { result.table_id ≡ turn.now.table.shared.table_id }
    ensures idle { Idle result.me }
    ensures parts { result.me.0.parts ≡ flat_map (λ s. s.seat.me.0.parts) shares.items }
{
    let mut left = shares;
    let Some(last) = left.pop() else {
        unreachable!()
    };
    let mut all = seat_of(last);
    while let Some(share) = left.pop() {
        let seat = seat_of(share);
        turn.table.shared.join_seat::<Merge>(&mut all, seat);
    }
    left.destroy_empty();
    all
}

// Splits a share of each session off the first seat.
fn share_out<T: Keeps>(
    turn: &Turn<T>,
    seat: &mut Seat<Option<T>, View<T::Entry, T::Basis>>,
    seats: u32,
    shares: &mut Vec<Share<T>>,
)
    requires this { seat.old.table_id ≡ turn.now.table.shared.table_id }
    requires parts { seat.old.me.0.parts ≡ fresh 0 seats (T.basis (first_of turn.now)) }
    requires idle { Idle seat.old.me }
    requires room { (shares.old.items ≡ []) × (seats ≤ vec_capacity shares.old) }
    ensures count { vec_len shares.new ≡ seats }
    ensures new { AreFresh turn.now (T.basis (first_of turn.now)) shares.new.items }
{
    for session in 0..seats {
        let one = turn.table.shared.split_seat::<Peel>(seat);
        shares.push_reserved(Share { seat: one, session });
    }
}
