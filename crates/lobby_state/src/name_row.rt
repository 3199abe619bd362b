//! A member's name among the names in order.
ghost use Rattle.std.specs.Prelude.{◌≡◌, ◌≤◌, ◌==◌, None, OnErr, OnOk, bytes_eq, length, not};
ghost use Rattle.std.specs.Cmp.Lexicographic.{slice_cmp};
ghost use Rattle.std.specs.List.{find, insert};
ghost use Rattle.std.specs.Ordering.{is_lt, nat_cmp};
ghost use Rattle.fics_words.specs.Handle.{key_of};
ghost use Rattle.lobby_state.specs.Names.{AreRowsInOrder, with_row};
ghost use Rattle.tables.specs.Rows.{has_key};

use collections::Predicate;
use fics_words::{Handle, HandleKey};
use memory::NoMemory;
use tables::{Keyed, Table};

/// Whose name it is.
#[derive(Clone, Copy)]
pub(crate) struct NameRow {
    pub(crate) name: Handle,
    pub(crate) session: u32,
}

impl Keyed<HandleKey> for NameRow {
    ghost key_of = { λ row. key_of row.name };

    fn key(&self) -> HandleKey {
        self.name.key()
    }
}

/// A name of another session.
#[derive(Clone, Copy)]
pub(crate) struct OfAnother(pub(crate) u32);

impl Predicate<NameRow> for OfAnother {
    ghost passes = { λ test row. not (test.0 == row.session) };

    fn passes(&self, row: &NameRow) -> bool {
        self.0 != row.session
    }
}

/// Puts a new name among others that stand in the order of their keys. Running out of memory changes nothing.
pub(crate) fn put_name(
    names: &mut Table<HandleKey, NameRow>,
    name: Handle,
    session: u32,
) -> Result<(), NoMemory>
    requires order { AreRowsInOrder names.old }
    requires new { find (has_key (λ row. key_of row.name) bytes_eq (key_of name)) names.old ≡ None }
    ensures ok { OnOk result (names.new ≡ with_row (record { name = name; session = session }) names.old) }
    ensures err { OnErr result (names.new ≡ names.old) }
{
    let place = place_of(name, session, names.as_slice());
    names.insert(place, NameRow { name, session })
}

/// Where the name belongs among others that stand in the order of their keys, which is found by halves.
fn place_of(name: Handle, session: u32, names: &[NameRow]) -> usize
    requires { AreRowsInOrder names.now }
    ensures within { result ≤ length names.now }
    ensures place { insert names.now result (record { name = name; session = session })
        ≡ with_row (record { name = name; session = session }) names.now }
{
    let key = name.key();
    names.partition_point(
        |other: &NameRow| -> bool
            ensures { result ≡ not (is_lt (slice_cmp nat_cmp key (key_of other.now.name))) }
        { !is_key_before(key, other) },
    )
}

/// Whether this key comes before that of the row.
fn is_key_before(key: HandleKey, other: &NameRow) -> bool
    ensures { result ≡ is_lt (slice_cmp nat_cmp key (key_of other.now.name)) }
{
    key.cmp(&other.key()).is_lt()
}
