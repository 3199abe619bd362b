//! What written move words stand for, over any board. It is asked for its men and its rules.
//!
//! The contract: `answer` gives a word its one allowed move or the first cause why it has none, as `WordAnswer` and
//! `Answer` of chess_model say, in the position for which an `AskedBoard` stands. Boards differ in how they tell their
//! men and try a half-move; what words mean is said and proved here once.
#![tactic(auto)]

mod asked;
mod drops;
mod homes;
mod men;
mod named;
mod promotions;
mod words;

pub use asked::AskedBoard;
pub use drops::{has_drops, may_drop_on};
pub use homes::{end_of_king, end_of_rook, home_of_king, home_of_rook, last_rank_of};
pub use men::{is_held_as_kind, is_held_by};
pub use promotions::is_promotion;
pub use words::{answer, castling_of};
