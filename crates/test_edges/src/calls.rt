//! Calls of a keeper.

use edge_traits::{Keeper, KeeperFail, Kept, Pair};
use test_steps::first_wrong;

/// A call of a keeper, and what it comes to.
pub enum Call {
    Puts(&'static [u8], &'static [u8], Kept),
    Removes(&'static [u8], Kept),
    /// The records can't be loaded.
    Refuses,
    /// The records are these, in order, each a key and its bytes.
    Loads(Records),
}

/// Keys with their bytes.
pub type Records = &'static [(&'static [u8], &'static [u8])];

/// Calls of a keeper. They ensure nothing, so that nothing above them is proved over what a keeper does.
fn put<K: Keeper>(keeper: &mut K, key: &[u8], bytes: &[u8]) -> Kept {
    keeper.put(key, bytes)
}

fn remove<K: Keeper>(keeper: &mut K, key: &[u8]) -> Kept {
    keeper.remove(key)
}

fn is_refused<K: Keeper>(keeper: &mut K) -> bool {
    matches!(keeper.load(), Err(KeeperFail::Failed))
}

fn loads<K: Keeper>(keeper: &mut K, records: Records) -> bool {
    match keeper.load() {
        Ok(pairs) => are_kept(&pairs, records),
        Err(_) => false,
    }
}

/// Whether the pairs are these records, in order.
pub fn are_kept(pairs: &[Pair], records: Records) -> bool {
    for (place, (key, bytes)) in records.iter().enumerate() {
        match pairs.get(place) {
            Some(pair) if pair.key.as_slice() == *key && pair.bytes.as_slice() == *bytes => {}
            _ => return false,
        }
    }
    pairs.len() == records.len()
}

fn is_as_said<K: Keeper>(keeper: &mut K, call: &Call) -> bool {
    match call {
        Call::Puts(key, bytes, wanted) => put(keeper, key, bytes) == *wanted,
        Call::Removes(key, wanted) => remove(keeper, key) == *wanted,
        Call::Refuses => is_refused(keeper),
        Call::Loads(records) => loads(keeper, records),
    }
}

/// The place of the first call that comes to something else, if one does.
pub fn first_failing<K: Keeper>(keeper: &mut K, calls: &[Call]) -> Option<usize> {
    first_wrong!(calls, |call| is_as_said(keeper, call))
}
