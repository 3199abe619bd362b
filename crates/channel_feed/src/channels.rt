//! Who is in which channel.
ghost use Rattle.std.specs.Prelude.{◌==◌, not};

use crate::counts::{ChannelCount, count_down, count_of, count_up};
use collections::Predicate;
use fics_words::{Fail, Refusal};
use memory::NoMemory;
use std::alloc::Global;
use std::marker::Model;
use tables::{Keyed, Table};

/// The most channels that a player is in.
pub(crate) const MOST: u8 = 20;

/// A player, by its session, in a channel.
#[derive(Clone, Copy, PartialEq, Eq, Hash)]
pub struct Membership {
    pub who: u32,
    pub channel: u8,
}

/// A membership is found by itself.
impl Keyed<Membership> for Membership {
    ghost key_of = { λ row. row };

    fn key(&self) -> Membership {
        *self
    }
}

/// Every row but those of this player.
#[derive(Clone, Copy)]
struct WithoutPlayer(u32);

impl Predicate<Membership> for WithoutPlayer {
    ghost passes = { λ test row. not (row.who == test.0) };

    fn passes(&self, row: &Membership) -> bool {
        row.who != self.0
    }
}

/// The channels, numbered 0 to 255, with the players that are in them, and beside these in how many each player is.
/// Contracts see the list of memberships, in the order of joining.
#[derive(Drop)]
pub struct Channels {
    rows: Table<Membership, Membership>,
    counts: Table<u32, ChannelCount>,
}

impl Model for Channels {
    ghost use Rattle.std.specs.Prelude.{List};
    ghost use Rattle.channel_feed.specs.Counts.{AreCounted};
    ghost use Rattle.channel_feed.specs.declared.channels.Membership.{Membership};

    ghost Value = { List Membership };

    ghost view = { λ channels. channels.rows };

    ghost invariant = { λ channels. AreCounted channels.counts channels.rows };
}

impl Channels {
    ghost use Rattle.std.specs.Prelude.{◌≡◌, []};
    ghost use Rattle.fics_words.specs.Effect.{Takes, answer_of, state_of};
    ghost use Rattle.channel_feed.specs.Channels.{is_in, is_same, joining, leaving_channel, without_player};
    ghost use Rattle.tables.specs.Rows.{AreApart};

    /// Nobody is in a channel; takes no memory.
    pub fn new(alloc: Global) -> Channels
        ensures { result ≡ [] }
    {
        Channels {
            rows: Table::new(alloc),
            counts: Table::new(alloc),
        }
    }

    /// Whether the player is in the channel.
    pub fn has(&self, who: u32, channel: u8) -> bool
        ensures { result ≡ is_in self.now who channel }
    {
        self.rows.has(Membership { who, channel })
    }

    /// Who is in which channel, in the order of joining. No two rows say the same.
    pub fn rows(&self) -> &[Membership]
        ensures rows { result.now ≡ self.now }
        ensures apart { AreApart is_same (λ row. row) self.now }
    {
        self.rows.as_slice()
    }

    /// The player joins the channel. Refuses with `OnList` where it is in it, and else with `ListFull` where it is in
    /// 20 channels.
    pub fn join(&mut self, who: u32, channel: u8) -> Result<(), Fail>
        ensures { Takes (joining self.old who channel) self.old self.new result }
    {
        if self.has(who, channel) {
            return Err(Fail::Refused(Refusal::OnList));
        }
        if count_of(&self.counts, who) >= MOST {
            return Err(Fail::Refused(Refusal::ListFull));
        }
        count_up(&mut self.counts, who)?;
        if let Err(NoMemory) = self.rows.push(Membership { who, channel }) {
            count_down(&mut self.counts, who);
            return Err(Fail::Memory);
        }
        Ok(())
    }

    /// The player leaves the channel; takes no memory. Refuses with `NotInChannel` where it isn't in it.
    pub fn leave(&mut self, who: u32, channel: u8) -> Result<(), Refusal>
        ensures answer { result ≡ answer_of (leaving_channel self.old who channel) }
        ensures after { self.new ≡ state_of self.old (leaving_channel self.old who channel) }
    {
        if !self.has(who, channel) {
            return Err(Refusal::NotInChannel);
        }
        // The slice is what says that no two rows are the same.
        let _rows = self.rows.as_slice();
        count_down(&mut self.counts, who);
        self.rows.remove(Membership { who, channel });
        Ok(())
    }

    /// The player leaves all channels; takes no memory. Where it is in none, no membership is looked at.
    pub fn forget(&mut self, who: u32)
        ensures { self.new ≡ without_player who self.old }
    {
        if self.counts.remove(who).is_none() {
            return;
        }
        self.rows.retain(&WithoutPlayer(who));
    }
}
