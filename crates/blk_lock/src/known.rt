//! What passes know. No value of these types is made: they stand in clauses alone.
use blk_base::Room;
use std::collections::LinkedList;

/// An entry of the history beside the name of the pass that made it.
/// Of the entries that one turn made, the first has the room that the turn took.
pub struct Stamped<E> {
    pub entry: E,
    pub maker: LinkedList<u64>,
    pub took: Option<Room>,
}

/// What a pass has seen and made.
pub struct View<E, O> {
    /// That which was named when the lock was made. Only a spent pass has none.
    pub opening: Option<O>,
    /// The numbers of the splits that led from the first pass to this one.
    pub name: LinkedList<u64>,
    /// How often it was split.
    pub splits: u64,
    /// Its name, and those of the passes joined into it.
    pub names: LinkedList<LinkedList<u64>>,
    /// A beginning of the history.
    pub seen: LinkedList<Stamped<E>>,
    pub room: Room,
    pub shares: u64,
    pub actors: LinkedList<u64>,
    /// While its turn is out, the room that the value had to spare when it was taken.
    pub turn: Option<Room>,
}

/// What one of two passes had seen when they were joined.
pub struct Side<E> {
    pub names: LinkedList<LinkedList<u64>>,
    pub actors: LinkedList<u64>,
    pub seen: LinkedList<Stamped<E>>,
}

/// Where a pass stands between two atomic steps.
pub enum Stage<E> {
    /// It was joined into another.
    Spent,
    /// It was split off, and has not looked at the history since.
    Fresh,
    /// Another was joined into it, and it has not looked at the history since.
    Joined(Side<E>, Side<E>),
    Rest,
    /// It has drawn this ticket.
    Waiting(u64),
    /// The value is out with it.
    Out(u64),
    /// The value is still out, and its entries stand in the history.
    Counted(u64),
}

pub struct Known<E, O> {
    pub stage: Stage<E>,
    pub view: View<E, O>,
}
