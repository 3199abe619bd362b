//! Squares by their files and ranks, and the ways between them.
ghost use Rattle.std.specs.Prelude.{◌≡◌, ◌<◌};
ghost use Rattle.chess_model.specs.Squares.{files_apart, ranks_apart, distance, toward, along};

use chess_model::Square;

/// The square of a number that is known to be one.
pub(crate) fn numbered(n: u8) -> Square
    requires { n < 64 }
    ensures { result ≡ n }
{
    Square::on(n % 8, n / 8)
}

/// The square as an index into the 64 squares.
pub(crate) fn index_of(s: Square) -> usize
    ensures value { result ≡ s }
    ensures within { result < 64 }
{
    s.number() as usize
}

pub(crate) fn files_between(a: Square, b: Square) -> u8
    ensures value { result ≡ files_apart a b }
    ensures within { result < 8 }
{
    a.file().abs_diff(b.file())
}

pub(crate) fn ranks_between(a: Square, b: Square) -> u8
    ensures value { result ≡ ranks_apart a b }
    ensures within { result < 8 }
{
    a.rank().abs_diff(b.rank())
}

/// How many steps a king needs from a to b on an empty board.
pub(crate) fn steps_between(a: Square, b: Square) -> u8
    ensures value { result ≡ distance a b }
    ensures within { result < 8 }
{
    files_between(a, b).max(ranks_between(a, b))
}

fn toward_by(from: u8, to: u8, k: u8) -> u8
    requires from { from < 8 }
    requires to { to < 8 }
    requires steps { k < 8 }
    ensures value { result ≡ toward from to k }
    ensures within { result < 8 }
{
    from.saturating_sub(k).max((from + k).min(to))
}

/// The square k steps from a toward b.
pub(crate) fn stepped(a: Square, b: Square, k: u8) -> Square
    requires { k < 8 }
    ensures { result ≡ along a b k }
{
    Square::on(
        toward_by(a.file(), b.file(), k),
        toward_by(a.rank(), b.rank(), k),
    )
}
