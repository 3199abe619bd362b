//! Half-moves as they lie in memory.
ghost use Rattle.std.specs.Prelude.{◌≡◌};

use crate::stored_game::Half;
use chess_model::Move;
use clock_ledger::Charge;
use std::marker::Model;
use std::mem::size_of;

/// What a half-move took off its player's clock.
#[derive(Clone, Copy)]
enum Charging {
    /// Nothing.
    Free,
    /// The time between two moments of the server.
    Plain,
    /// The same, with the client's stamps.
    Stamped,
}

/// A half-move of a stored game, which contracts see as the `Half` that it is. It takes two thirds of the room of a
/// `Half`, since a full store has 24 million of them.
#[derive(Drop)]
pub struct PackedHalf {
    /// The moments and the stamps of the charge; they mean nothing where it has none.
    begin: u64,
    end: u64,
    stamps: (u32, u32),
    charging: Charging,
    board: u8,
    what: Move,
}

const _: () = prove!(size_of::<PackedHalf>() == 32);

impl Model for PackedHalf {
    ghost use Rattle.game_records.specs.declared.stored_game.Half.{Half};

    ghost Value = { Half };

    ghost use Rattle.game_records.specs.Packed.{charge_of};

    ghost view = { λ packed. record {
      board = packed.board;
      what = packed.what;
      charge = charge_of packed.charging packed.begin packed.end packed.stamps;
    } };
}

impl PackedHalf {
    /// The half-move, packed.
    pub(crate) fn of(half: &Half) -> PackedHalf
        ensures { result ≡ half.now }
    {
        let Some(charge) = half.charge else {
            return PackedHalf {
                begin: 0,
                end: 0,
                stamps: (0, 0),
                charging: Charging::Free,
                board: half.board,
                what: half.what,
            };
        };
        match charge.client {
            None => PackedHalf {
                begin: charge.begin,
                end: charge.end,
                stamps: (0, 0),
                charging: Charging::Plain,
                board: half.board,
                what: half.what,
            },
            Some(stamps) => PackedHalf {
                begin: charge.begin,
                end: charge.end,
                stamps,
                charging: Charging::Stamped,
                board: half.board,
                what: half.what,
            },
        }
    }

    /// The half-move.
    pub fn unpacked(&self) -> Half
        ensures { result ≡ self.now }
    {
        Half {
            board: self.board,
            what: self.what,
            charge: self.charge(),
        }
    }

    /// The number of its board: 1, or 2 for the second board of a pair.
    pub fn board(&self) -> u8
        ensures { result ≡ self.now.board }
    {
        self.board
    }

    pub fn what(&self) -> Move
        ensures { result ≡ self.now.what }
    {
        self.what
    }

    /// What it took off its player's clock, where it took anything.
    fn charge(&self) -> Option<Charge>
        ensures { result ≡ self.now.charge }
    {
        match self.charging {
            Charging::Free => None,
            Charging::Plain => Some(Charge {
                begin: self.begin,
                end: self.end,
                client: None,
            }),
            Charging::Stamped => Some(Charge {
                begin: self.begin,
                end: self.end,
                client: Some(self.stamps),
            }),
        }
    }
}
