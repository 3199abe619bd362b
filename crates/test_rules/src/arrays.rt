//! The arrays of Fischer random, against the ranks that the numbering gives by hand and what the Laws ask of each.

use chess_model::{Kind, Man, Variant, array_for, file_of_king, file_of_rook};
use std::alloc::{AllocError, Global};
use std::test::Fail;

/// Arrays by number, from file a to file h.
const RANKS: &[(u16, &str)] = &[
    (0, "BBQNNRKR"),
    (1, "BQNBNRKR"),
    (4, "QBBNNRKR"),
    (16, "BBNQNRKR"),
    (96, "BBQNRNKR"),
    (468, "RBBNNKRQ"),
    (518, "RNBQKBNR"),
    (681, "QRKBBNNR"),
    (959, "RKRNNQBB"),
];

fn letter(man: Option<Man>) -> char {
    match man {
        Some(man) => match man.kind {
            Kind::Pawn => 'P',
            Kind::Knight => 'N',
            Kind::Bishop => 'B',
            Kind::Rook => 'R',
            Kind::Queen => 'Q',
            Kind::King => 'K',
        },
        None => '-',
    }
}

/// Whether eight men in a row have these letters.
fn are_spelled(men: &[Option<Man>], letters: &str) -> bool {
    men.iter().map(|man| letter(*man)).eq(letters.chars())
}

fn has_ranks(number: u16, letters: &str) -> bool {
    let array = array_for(Variant::Fischer(number));
    are_spelled(&array[..8], letters)
        && are_spelled(&array[56..], letters)
        && are_spelled(&array[8..16], "PPPPPPPP")
        && are_spelled(&array[16..24], "--------")
        && are_spelled(&array[48..56], "PPPPPPPP")
}

#[test]
fn numbers_have_their_ranks(rt: HostRuntime) {
    for (number, letters) in RANKS {
        assert!(rt; has_ranks(*number, letters), "{number} {letters}");
    }
}

/// The files of a home rank that hold a man of that letter, added up, and how many there are.
fn files_of(rank: &[Option<Man>], wanted: char) -> (usize, u32) {
    let mut sum: usize = 0;
    let mut found: u32 = 0;
    for (file, man) in rank.iter().enumerate() {
        if letter(*man) == wanted {
            sum = sum.saturating_add(file);
            found = found.saturating_add(1);
        }
    }
    (sum, found)
}

fn is_on(rank: &[Option<Man>], file: u8, wanted: char) -> bool {
    match rank.get(usize::from(file)) {
        Some(man) => letter(*man) == wanted,
        None => false,
    }
}

/// Whether a rank has one king between two rooks, at their homes, two bishops on squares of different colours, two
/// knights and a queen.
fn is_fair(variant: Variant, rank: &[Option<Man>]) -> bool {
    let king = file_of_king(variant);
    let long = file_of_rook(variant, true);
    let short = file_of_rook(variant, false);
    let (bishops, two) = files_of(rank, 'B');
    if long >= king || king >= short || two != 2 || bishops % 2 != 1 {
        return false;
    }
    if !is_on(rank, king, 'K') || !is_on(rank, long, 'R') || !is_on(rank, short, 'R') {
        return false;
    }
    files_of(rank, 'K').1 == 1
        && files_of(rank, 'R').1 == 2
        && files_of(rank, 'N').1 == 2
        && files_of(rank, 'Q').1 == 1
}

/// A number that tells ranks apart.
fn mark_of(rank: &[Option<Man>]) -> u64 {
    let mut mark: u64 = 0;
    for man in rank {
        mark = mark.wrapping_mul(128).wrapping_add(letter(*man) as u64);
    }
    mark
}

/// The first number from 0 to 959 whose array isn't fair or is that of a lesser number, if one is.
fn first_unfair(alloc: Global) -> Result<Option<u16>, AllocError> {
    let mut marks: Vec<u64> = Vec::new(alloc);
    for number in 0..960 {
        let variant = Variant::Fischer(number);
        let array = array_for(variant);
        let mark = mark_of(&array[..8]);
        if !is_fair(variant, &array[..8]) || marks.contains(&mark) {
            return Ok(Some(number));
        }
        marks.push(mark)?;
    }
    Ok(None)
}

#[test]
fn all_arrays_are_fair_and_differ(rt: HostRuntime) -> Result<(), Fail> {
    assert_eq!(rt; first_unfair(rt.alloc())?, None);
    Ok(())
}
