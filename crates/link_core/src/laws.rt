//! What holds of every link that was served, as calls that do nothing: what each ensures is the law.
ghost use Rattle.link_core.specs.Laws.{AnswersEachLine, FaultsAreCounted, IsGreeted, KeepsItsSigns};

/// A link is said to have failed only where it counted a fault; it comes back with what it had to give, taken or left,
/// so links can't be exchanged; and unless a write failed or memory ran out it was written the opening.
pub fn served_links_are_their_own()
    ensures counted { FaultsAreCounted }
    ensures signs { KeepsItsSigns }
    ensures greeted { IsGreeted }
{}

/// On a link that counted no fault, and where memory was enough, everything that the link had to give was answered in
/// full, up to its end or up to an answered quit, by the acts of the session's course for it.
#[tactic(auto, using(crate::proofs::Answering::answers_each_line))]
pub fn each_line_is_answered()
    ensures { AnswersEachLine }
{}
