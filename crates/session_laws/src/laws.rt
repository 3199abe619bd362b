//! Who tells save orders as saved, as a call that does nothing: what it ensures is the law.
ghost use Rattle.session_laws.specs.WhoSaves.{LinksNeverSave, OnlyTheStewardSaves};

/// The entries by which a session served a link tell no orders as saved, also where memory ran out and the session was
/// cut short or left in part. In a history whose sessions from 1 on each served a link, no session but 0 tells any.
pub fn only_the_steward_saves()
    ensures links { LinksNeverSave }
    ensures others { OnlyTheStewardSaves }
{}
