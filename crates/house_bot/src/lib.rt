//! The house's player: the best move by search.
//!
//! The contract: `best` gives the value of a position so many half-moves ahead, as `specs/Value.antt` defines it
//! without bounds or cuts, and the first of the allowed moves that reaches it; `answer_text` writes both as
//! `specs/AnswerText.antt` says. The position is afterwards as it was before.
#![tactic(auto)]

mod answer;
mod chosen;
mod search;
mod worth;

pub use answer::answer_text;
pub use chosen::best;
