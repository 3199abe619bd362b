//! Placements as sets, with figures by hand: bit s of a set stands for square s, a1 is 0 and h8 is 63.

use bitboard_core::Bits;
use chess_model::{Colour, Kind, Man, Square, Variant};
use holdings_drops::Holdings;
use rules_plain::PlainBoard;
use std::process::Abort;

fn man(colour: Colour, kind: Kind) -> Man {
    Man {
        colour,
        kind,
        promoted: false,
    }
}

fn square(rt: &impl Abort, n: u8) -> Square {
    Square::of(n).expect(rt, "a square")
}

/// What a man on an occupied square reaches.
fn reach_of(rt: &impl Abort, bits: &Bits, n: u8) -> u64 {
    let s = square(rt, n);
    assert!(rt; bits.man(s).is_some(), "a man stands there");
    bits.reach(s)
}

#[test]
fn sets_of_the_start(rt: HostRuntime) {
    let sets = Bits::of(PlainBoard::start(Variant::Chess).men()).sets();
    let expected: [u64; 12] = [
        0xFF00,
        0x42,
        0x24,
        0x81,
        0x08,
        0x10,
        0x00FF_0000_0000_0000,
        0x4200_0000_0000_0000,
        0x2400_0000_0000_0000,
        0x8100_0000_0000_0000,
        0x0800_0000_0000_0000,
        0x1000_0000_0000_0000,
    ];
    assert!(rt; sets.men == expected, "twelve sets");
    assert!(rt; sets.promoted == 0, "nobody is promoted");
    assert!(rt; sets.occupied == 0xFFFF_0000_0000_FFFF, "four ranks");
}

#[test]
fn reach_at_the_start(rt: HostRuntime) {
    let bits = Bits::of(PlainBoard::start(Variant::Chess).men());
    assert!(rt; reach_of(&rt, &bits, 0) == 0, "Ra1 is shut in");
    assert!(rt; reach_of(&rt, &bits, 1) == 0x0005_0000, "Nb1: a3, c3");
    assert!(rt; reach_of(&rt, &bits, 12) == 0x1010_0000, "e2: e3, e4");
    assert!(rt;
        reach_of(&rt, &bits, 52) == 0x0000_1010_0000_0000,
        "e7: e6, e5"
    );
}

#[test]
fn rays_stop_at_men(rt: HostRuntime) {
    let mut bits = Bits::empty();
    let d4 = square(&rt, 27);
    bits.place(d4, Some(man(Colour::White, Kind::Queen)));
    bits.place(square(&rt, 43), Some(man(Colour::White, Kind::Pawn)));
    bits.place(square(&rt, 25), Some(man(Colour::Black, Kind::Rook)));
    bits.place(square(&rt, 54), Some(man(Colour::Black, Kind::King)));
    // d5; e4 to h4; d3, d2, d1; c4, b4; e5, f6, g7; c5, b6, a7; e3, f2, g1; c3, b2, a1
    let expected: u64 = 1 << 35
        | 0xF000_0000
        | 0x0008_0808
        | 0x0600_0000
        | 1 << 36
        | 1 << 45
        | 1 << 54
        | 1 << 34
        | 1 << 41
        | 1 << 48
        | 1 << 20
        | 1 << 13
        | 1 << 6
        | 1 << 18
        | 1 << 9
        | 1;
    assert!(rt;
        reach_of(&rt, &bits, 27) == expected,
        "a queen's eight ways"
    );
    assert!(rt;
        bits.attackers(square(&rt, 54), Colour::White) == 1 << 27,
        "the king on g7 is in check"
    );
    assert!(rt;
        bits.attackers(square(&rt, 26), Colour::Black) == 1 << 25,
        "c4 is struck by the rook"
    );
    assert!(rt;
        bits.attackers(square(&rt, 28), Colour::Black) == 0,
        "e4 lies behind the queen"
    );
}

#[test]
fn promoted_men_come_and_go(rt: HostRuntime) {
    let mut bits = Bits::empty();
    let e8 = square(&rt, 60);
    let queen = Man {
        colour: Colour::White,
        kind: Kind::Queen,
        promoted: true,
    };
    bits.place(e8, Some(queen));
    assert!(rt; bits.sets().promoted == 1 << 60, "the mark is kept");
    assert!(rt; bits.sets().men[4] == 1 << 60, "it is a queen");
    bits.place(e8, Some(man(Colour::Black, Kind::Pawn)));
    assert!(rt; bits.sets().promoted == 0, "the mark has gone");
    assert!(rt; bits.sets().men[4] == 0, "and the queen");
    assert!(rt;
        bits.duplicate().sets().men[6] == 1 << 60,
        "a black pawn stands there"
    );
}

#[test]
fn hands_are_counted(rt: HostRuntime) {
    let mut hand = Holdings::empty();
    hand.give(Kind::Pawn);
    assert!(rt; hand.count(Kind::Knight) < 255, "there is room");
    hand.give(Kind::Knight);
    assert!(rt; hand.count(Kind::Knight) == 1, "one knight");
    hand.take(Kind::Knight);
    assert!(rt; hand.count(Kind::Knight) == 0, "none");
    assert!(rt; hand.count(Kind::Pawn) == 1, "the pawn stays");
    assert!(rt; hand.count(Kind::King) == 0, "no king");
}
