//! The names of guests.

use memory::NoMemory;
use std::alloc::Global;

/// The letters of the alphabet.
const LETTERS: [&str; 26] = [
    "A", "B", "C", "D", "E", "F", "G", "H", "I", "J", "K", "L", "M", "N", "O", "P", "Q", "R", "S",
    "T", "U", "V", "W", "X", "Y", "Z",
];

/// The name of the guest at that place: the names are given in the order of the alphabet.
pub fn name_of(alloc: Global, place: usize) -> Result<String, NoMemory> {
    let third = letter(place / 26);
    let fourth = letter(place % 26);
    Ok(format!(in alloc; "GuestAA{third}{fourth}")?)
}

fn letter(place: usize) -> &'static str {
    match LETTERS.get(place) {
        Some(letter) => *letter,
        None => "?",
    }
}
