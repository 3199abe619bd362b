//! What a pass knows.

use histories::Entry;
use std::collections::LinkedList;

/// A pass that was joined into another one: its number, and its calls.
pub struct Joined<A, R> {
    pub number: u32,
    pub calls: LinkedList<Entry<A, R>>,
}

/// What a pass knows. No value of it is made: it stands in contracts and in the rule of the turns alone.
pub struct View<P, A, R> {
    /// True, unless the pass was joined into another one.
    pub live: bool,
    /// 0 for the first pass, else the number that its split drew.
    pub number: u32,
    /// How many passes were split from it.
    pub splits: u32,
    /// The parts that the table opened with.
    pub opening: LinkedList<P>,
    /// The beginning of the history that it has seen.
    pub seen: LinkedList<Entry<A, R>>,
    /// While another pass is being joined into it: what the one of the two had seen that had seen less. Else nothing.
    pub shorter: LinkedList<Entry<A, R>>,
    /// Its own entries of the history.
    pub made: LinkedList<Entry<A, R>>,
    /// The act in flight, from its beginning on.
    pub flight: Option<A>,
    /// Whether that act was committed.
    pub committed: bool,
    /// The numbers of the parts that it may take, or has taken and not given back.
    pub may: LinkedList<u8>,
    /// The parts whose turn it holds, each with its named value, the last one taken first.
    pub held: LinkedList<(u8, P)>,
    /// The parts whose turn word a try of its own found at 1, in their order.
    pub busy: LinkedList<u8>,
    /// The passes that were joined into it.
    pub joined: LinkedList<Joined<A, R>>,
}
