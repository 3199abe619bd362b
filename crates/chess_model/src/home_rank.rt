//! The home ranks of Fischer random, by their numbers.

ghost use Rattle.std.specs.Prelude.{◌≡◌, ◌<◌};
ghost use Rattle.chess_model.specs.Limits.{arrays};
ghost use Rattle.chess_model.specs.FischerArrays.{on_free, with_bishops, with_king, with_knights, with_queen};

use crate::man::Kind;

/// A home rank while it is set up, from file a to file h: the kind on each file that isn't free any more.
pub(crate) type Files = [Option<Kind>; 8];

/// On which two of five free files the knights stand.
const KNIGHT_PAIRS: [(u16, u16); 10] = [
    (0, 1),
    (0, 2),
    (0, 3),
    (0, 4),
    (1, 2),
    (1, 3),
    (1, 4),
    (2, 3),
    (2, 4),
    (3, 4),
];

/// The home rank of the array of that number.
pub(crate) fn home_rank(number: u16) -> Files
    requires { number < arrays }
    ensures { result ≡ with_king number }
{
    let files = on_free(Kind::Rook, 0, knights_set(number));
    let files = on_free(Kind::King, 0, files);
    on_free(Kind::Rook, 0, files)
}

fn bishops_set(number: u16) -> Files
    ensures { result ≡ with_bishops number }
{
    let mut files = [None; 8];
    files[(2 * (number % 4) + 1) as usize] = Some(Kind::Bishop);
    files[(2 * (number / 4 % 4)) as usize] = Some(Kind::Bishop);
    files
}

fn queen_set(number: u16) -> Files
    ensures { result ≡ with_queen number }
{
    on_free(Kind::Queen, number / 16 % 6, bishops_set(number))
}

fn knights_set(number: u16) -> Files
    requires { number < arrays }
    ensures { result ≡ with_knights number }
{
    let (first, second) = KNIGHT_PAIRS[(number / 96) as usize];
    let files = on_free(Kind::Knight, second, queen_set(number));
    on_free(Kind::Knight, first, files)
}

/// The free file of that index, counted from file a and from 0, gets a man of this kind.
fn on_free(kind: Kind, index: u16, files: Files) -> Files
    ensures { result ≡ on_free kind index files }
{
    let mut set = files;
    let mut left = index;
    for file in 0..8 {
        if set[file].is_none() {
            if left == 0 {
                set[file] = Some(kind);
                return set;
            }
            left -= 1;
        }
    }
    set
}
