//! The laws of every server of parts. Each call does nothing: what it says is its contract.

ghost use Rattle.std.specs.Prelude.{List};
ghost use Rattle.histories.specs.Laws.{KeepsLength, LeavesOthers, RepliesLocally, ChangesLocally, RepliesCommute, StatesCommute, StepsOnce, GrowsLegally, BeginsLegally, StaysWhole, HoldsInEveryState, HoldsOfEachPart};

use crate::served::Served;

/// One act: it keeps the number of parts, leaves all parts that it doesn't touch, and depends on those that it touches
/// alone.
pub fn acts_locally<S: Served>()
    ensures keeps_length { KeepsLength S.core }
    ensures leaves_others { LeavesOthers S.core }
    ensures replies_locally { RepliesLocally S.core }
    ensures changes_locally { ChangesLocally S.core }
{}

/// Two acts that touch no common part: in either order the replies are the same, and so is the state after both.
pub fn acts_commute<S: Served>()
    ensures replies { RepliesCommute S.core }
    ensures states { StatesCommute S.core }
{}

/// A history and its beginnings: one entry more, and what is legal and whole.
pub fn histories_grow<S: Served>()
    ensures one_more { StepsOnce S.core }
    ensures grows { GrowsLegally S.core }
    ensures begins { BeginsLegally S.core }
    ensures whole { StaysWhole S.core }
{}

/// A fact of whole states that each act keeps.
pub trait KeptFact<S: Served> {
    ghost use Rattle.std.specs.Prelude.{List};
    ghost use Rattle.histories.specs.Laws.{EachActKeeps};

    ghost holds: { List S.Part → Type 0 };

    ghost kept: { EachActKeeps S.core holds };
}

/// What each act keeps holds in every state of every legal history that opens with it.
pub fn every_state<S: Served, K: KeptFact<S>>()
    ensures { HoldsInEveryState S.core K.holds }
{}

/// A fact of single parts that each act keeps of the parts that it changes.
pub trait KeptOfParts<S: Served> {
    ghost use Rattle.histories.specs.Laws.{FirstKeeps, SecondKeeps};

    ghost holds: { S.Part → Type 0 };

    ghost first: { FirstKeeps S.core holds };

    ghost second: { SecondKeeps S.core holds };
}

/// Such a fact holds of each part in every state of every legal history that opens with it.
pub fn every_part<S: Served, K: KeptOfParts<S>>()
    ensures { HoldsOfEachPart S.core K.holds }
{}
