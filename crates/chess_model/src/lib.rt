//! The rules of chess, crazyhouse, bughouse and Fischer random as definitions. The values that boards and players speak
//! of stand beside them.
//!
//! `specs/` says what a placement, a move, an attack, a right, a hand and an allowed move are, once, for all
//! variants and for one or two boards: a game is the list of its half-moves, and everything else is said of that
//! list. The calls of `laws` show what these definitions mean in the words of the game.
//!
//! The contract: squares, colours, kinds, men, moves, words, hands and texts are the values of which the definitions
//! speak, each call on one of them is the definition that its contract names, and each law holds.
#![tactic(auto)]

mod array;
mod drops;
mod face;
mod hand;
mod home_files;
mod home_rank;
mod homes;
mod laws;
mod limits;
mod man;
mod material;
mod moves;
mod rights;
mod square;
mod states;
mod text;
mod variant;
mod variant_words;
mod why;

pub use array::array_for;
pub use drops::has_drops;
pub use face::Face;
pub use hand::Hand;
pub use homes::{file_of_king, file_of_rook};
pub use laws::{
    attack_goes_both_ways, census_stays, colours_alternate, each_square_is_known,
    fischer_arrays_are_set_up, homes_are_in_the_array, legal_lists_grow, legal_positions_are_sound,
    moves_are_listed, no_men_are_made, other_board_stays, quiet_moves_are_counted,
    rights_never_come_back, states_are_told, tests_say_the_rules, third_times_are_counted,
    words_are_answered, worked_claims, worked_examples, worked_moves, worked_results, worked_words,
};
pub use limits::{ARRAYS, MOST_HALVES, MOST_TIME};
pub use man::{Colour, Kind, Man};
pub use material::{material_of, materials};
pub use moves::{Move, MoveWord, Rejection};
pub use rights::Rights;
pub use square::Square;
pub use states::{Shown, State};
pub use text::MoveText;
pub use variant::{Terms, Variant};
pub use variant_words::{read_variant, variant_word};
pub use why::Why;
