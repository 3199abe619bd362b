//! Changes of items, and the loops that carry them out.
ghost use Rattle.std.specs.Prelude.{◌≡◌, ◌≤◌, map, vec_capacity, vec_len};
ghost use Rattle.std.specs.List.{filter};

use crate::predicates::Predicate;

/// Something that is done to an item, with one outcome for each item.
pub trait Change<T> {
    /// What an item is afterwards.
    ghost changed: { Self → T → T };

    /// Changes `item`.
    fn change(&self, item: &mut T)
        ensures { item.new ≡ changed self.now item.old };
}

/// Changes each item of `items`.
pub(crate) fn change_each<T, C: Change<T>>(items: &mut [T], change: &C)
    ensures { items.new ≡ map (C.changed change.now) items.old }
{
    for item in items.iter_mut() {
        change.change(item);
    }
}

/// Keeps the items that pass `test`, in their order, and the block that they lie in.
pub(crate) fn retain<T: Drop, P: Predicate<T>>(items: &mut Vec<T>, test: &P)
    ensures kept { items.new.items ≡ filter (P.passes test.now) items.old.items }
    ensures bound { vec_len items.new ≤ vec_len items.old }
    ensures capacity { vec_capacity items.new ≡ vec_capacity items.old }
{
    items.retain(|item| test.passes(item));
}
