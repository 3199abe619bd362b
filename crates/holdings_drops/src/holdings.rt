//! A player's men in hand, counted by kind.
ghost use Rattle.std.specs.Prelude.{◌≡◌, ◌≢◌, ◌+◌, ◌-◌, ◌<◌, cond};
ghost use Rattle.chess_model.specs.Holdings.{count_in, hand_of};
ghost use Rattle.chess_model.specs.Men.{same_kind};
ghost use Rattle.chess_model.specs.declared.man.Kind.TheVariants.{King};

use chess_model::{Hand, Kind};
use std::marker::Model;

/// How many men of each kind but the king a player may drop. Contracts see the hand that these counts are.
#[derive(Clone, Copy, PartialEq, Eq)]
pub struct Holdings {
    hand: Hand,
}

impl Model for Holdings {
    ghost use Rattle.chess_model.specs.declared.hand.Hand.{Hand};

    ghost Value = { Hand };

    ghost view = { λ h. h.hand };

    ghost inverse = { λ hand. record { hand = hand } };
}

impl Holdings {
    /// Nothing in hand.
    pub fn empty() -> Holdings
        ensures { result ≡ hand_of (λ k. 0) }
    {
        Holdings {
            hand: Hand::empty(),
        }
    }

    /// How many men of a kind are in hand; of kings always none.
    pub fn count(&self, k: Kind) -> u8
        ensures { result ≡ count_in self.now k }
    {
        self.hand.count(k)
    }

    /// The counts by their names.
    pub fn hand(&self) -> Hand
        ensures { result ≡ self.now }
    {
        self.hand
    }

    /// One man more of a kind that isn't the king, where there are less than 255 of it.
    pub fn give(&mut self, k: Kind)
        requires not_king { k ≢ King }
        requires room { count_in self.old k < 255 }
        ensures { self.new ≡ hand_of (λ j. count_in self.old j + cond (same_kind k j) 1 0) }
    {
        match k {
            Kind::Pawn => self.hand.pawns += 1,
            Kind::Knight => self.hand.knights += 1,
            Kind::Bishop => self.hand.bishops += 1,
            Kind::Rook => self.hand.rooks += 1,
            Kind::Queen => self.hand.queens += 1,
            Kind::King => {}
        }
    }

    /// One man less of a kind that is in hand.
    pub fn take(&mut self, k: Kind)
        requires held { 0 < count_in self.old k }
        ensures { self.new ≡ hand_of (λ j. count_in self.old j - cond (same_kind k j) 1 0) }
    {
        match k {
            Kind::Pawn => self.hand.pawns -= 1,
            Kind::Knight => self.hand.knights -= 1,
            Kind::Bishop => self.hand.bishops -= 1,
            Kind::Rook => self.hand.rooks -= 1,
            Kind::Queen => self.hand.queens -= 1,
            Kind::King => {}
        }
    }

    /// The hand with one man more, where there are less than 255 of its kind; a king isn't counted.
    pub fn with_one_more(self, k: Kind) -> Holdings
        requires { count_in self k < 255 }
        ensures { result ≡ hand_of (λ j. count_in self j + cond (same_kind k j) 1 0) }
    {
        let mut more = self.hand;
        match k {
            Kind::Pawn => more.pawns += 1,
            Kind::Knight => more.knights += 1,
            Kind::Bishop => more.bishops += 1,
            Kind::Rook => more.rooks += 1,
            Kind::Queen => more.queens += 1,
            Kind::King => {}
        }
        Holdings { hand: more }
    }

    /// The hand with one man less, where there is one of the kind.
    pub fn with_one_less(self, k: Kind) -> Holdings
        ensures { result ≡ hand_of (λ j. count_in self j - cond (same_kind k j) 1 0) }
    {
        let mut less = self.hand;
        match k {
            Kind::Pawn => less.pawns = less.pawns.saturating_sub(1),
            Kind::Knight => less.knights = less.knights.saturating_sub(1),
            Kind::Bishop => less.bishops = less.bishops.saturating_sub(1),
            Kind::Rook => less.rooks = less.rooks.saturating_sub(1),
            Kind::Queen => less.queens = less.queens.saturating_sub(1),
            Kind::King => {}
        }
        Holdings { hand: less }
    }
}
