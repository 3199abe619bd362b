//! In how many channels each player is, so that a join goes over no memberships.
ghost use Rattle.std.specs.Prelude.{◌≡◌, ◌+◌, ◌<◌, ◌==◌, ℕ, cond, OnErr, OnOk};
ghost use Rattle.channel_feed.specs.Counts.{count_of};

use crate::channels::MOST;
use collections::Change;
use memory::NoMemory;
use tables::{Keyed, Table};

/// A player, by its session, and in how many channels it is.
#[derive(Clone, Copy)]
pub(crate) struct ChannelCount {
    who: u32,
    channels: u8,
}

impl Keyed<u32> for ChannelCount {
    ghost key_of = { λ row. row.who };

    fn key(&self) -> u32 {
        self.who
    }
}

/// In so many channels from here on.
#[derive(Clone, Copy)]
struct Counted(u8);

impl Change<ChannelCount> for Counted {
    ghost changed = { λ counted row. record row { channels = counted.0 } };

    fn change(&self, row: &mut ChannelCount) {
        row.channels = self.0;
    }
}

/// In how many channels the player is.
pub(crate) fn count_of(counts: &Table<u32, ChannelCount>, who: u32) -> u8
    ensures { result ≡ count_of counts.now who }
{
    match counts.get(who) {
        Some(row) => row.channels,
        None => 0,
    }
}

/// The player is in one channel more. Running out of memory changes nothing.
pub(crate) fn count_up(counts: &mut Table<u32, ChannelCount>, who: u32) -> Result<(), NoMemory>
    requires { count_of counts.old who < MOST }
    ensures ok { OnOk result
        ((other : ℕ) → count_of counts.new other ≡ count_of counts.old other + cond (who == other) 1 0) }
    ensures err { OnErr result (counts.new ≡ counts.old) }
{
    let Some(row) = counts.get(who) else {
        counts.push(ChannelCount { who, channels: 1 })?;
        return Ok(());
    };
    let counted = Counted(row.channels + 1);
    counts.change(who, &counted);
    Ok(())
}

/// The player is in one channel fewer, and has no row where that was its last. Takes no memory.
pub(crate) fn count_down(counts: &mut Table<u32, ChannelCount>, who: u32)
    requires { 0 < count_of counts.old who }
    ensures { (other : ℕ) → count_of counts.old other ≡ count_of counts.new other + cond (who == other) 1 0 }
{
    let count = count_of(counts, who);
    if count == 1 {
        counts.remove(who);
    } else {
        counts.change(who, &Counted(count - 1));
    }
}
