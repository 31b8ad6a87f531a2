//! What the seats of a turn know, as plain data. No value of these types is made.

use std::collections::LinkedList;

/// One session: what its turn's value stands on, and the session's entries, each with its number
/// in the whole history, from 0.
pub struct Part<E, B> {
    pub session: u32,
    pub basis: B,
    pub entries: LinkedList<(u64, E)>,
}

/// The view of one seat: its sessions, its ticket while it waits or holds, and the entries that
/// the value had when the seat's turn came, from then until it passes the value on.
pub struct View<E, B> {
    pub parts: LinkedList<Part<E, B>>,
    pub ticket: Option<u64>,
    pub taken: Option<LinkedList<E>>,
}
