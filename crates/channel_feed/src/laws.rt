//! What the rules of channels and of name lists mean, as calls that do nothing: each says by its contract what was
//! proved.
ghost use Rattle.channel_feed.specs.Laws.{Joins, Leaves, LeavesAll, NamesComeAndGo};

use crate::channels::Channels;
use crate::names::NameList;
use fics_words::HandleKey;

/// Who joins a channel is in it, and is in no other than before; nobody else is moved.
#[tactic(auto, using(crate::proofs::Meaning::joins))]
pub fn joining_is_being_in(channels: &Channels, who: u32, channel: u8)
    ensures { Joins channels.now who channel }
{}

/// Who leaves a channel isn't in it; nobody else is moved, nor this player in another channel.
pub fn leaving_is_being_out(channels: &Channels, who: u32, channel: u8)
    ensures { Leaves channels.now who channel }
{}

/// Who leaves all channels is in none; nobody else is moved.
#[tactic(auto, using(crate::proofs::Meaning::leaves_all))]
pub fn leaving_all_is_being_in_none(channels: &Channels, who: u32)
    ensures { LeavesAll channels.now who }
{}

/// A name that is added is on the list, and one that is removed isn't; every other is as before.
pub fn names_come_and_go(names: &NameList, key: HandleKey)
    ensures { NamesComeAndGo names.now key }
{}
