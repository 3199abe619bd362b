//! What the next server opens with, as a call that does nothing: what it ensures is the law.
ghost use Rattle.restart_laws.specs.Good.{LeavesGood};
ghost use Rattle.restart_laws.specs.Restart.{OpensBehind, RestartRestores};

/// Two servers, one after the other, over a keeper that tells its table. Where the first one ended well, the second one
/// opens with the accounts and the adjourned games of the first one's last state, and each game that is resumed from
/// there on goes on as it was left. However the first one ended: what the second one opens with becomes, by the save
/// orders that stood in the last state, the accounts and the games of that state.
pub fn restart_restores()
    ensures restores { RestartRestores }
    ensures behind { OpensBehind }
{}

/// Where a server ended well over a keeper that tells its table, and the names and digests in its last lobby are such
/// as the types have, the table is a good store: the next server that loads it finds no bad record.
pub fn a_good_store_is_left()
    ensures { LeavesGood }
{}
