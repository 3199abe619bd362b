//! The seat line of a replay script.

ghost use Rattle.std.specs.Prelude.{◌≡◌, ◌≢◌, ◌↔◌, ◌∷◌, ◌++◌, ℕ, List, All, Any, IfOk, IfSome, IfNone, IsTrue, codes};
ghost use Rattle.chess_model.specs.declared.variant.Terms.{Terms};
ghost use Rattle.fics_words.specs.Handle.{IsHandle, key_of};
ghost use Rattle.replay_core.specs.SeatLine.{AreDifferent, AreSeatTerms, IsSeatLine, NamesMayPlay, players_wanted, seat_text, terms_text};
ghost use Rattle.fics_words.specs.Blank.{blank};
ghost use Rattle.replay_core.specs.Words.{words_before};
ghost use Rattle.replay_core.specs.declared.seat_line.SeatLine.{SeatLine};

use crate::words::{cut_handle, cut_number};
use chess_model::{Colour, MOST_TIME, Terms, Variant, read_variant};
use collections::Listed;
use fics_words::{Handle, Line};
use memory::NoMemory;
use std::alloc::Global;

/// The most minutes, and the most seconds of increment, that a line gives.
const MOST: u64 = MOST_TIME as u64;

/// Who plays what at the start of a script.
#[derive(Drop)]
pub struct SeatLine {
    /// White and Black of board 1, and in bughouse then White and Black of board 2. Session 1 has the first name,
    /// session 2 the second, and so on.
    pub names: Listed<Handle>,
    /// What the first player offers the second: minutes and increment are at most 600, and the colour is White.
    pub terms: Terms,
}

/// Reads a seat line: `seat A B M I V`, where V is `chess`, `crazyhouse` or `fischer N`, N from 0 to 959, or
/// `seat A B C D M I bughouse`. It gives the line exactly where these bytes are its one spelling, and no two names
/// differ in case alone.
pub fn read_seat(alloc: Global, line: &Line) -> Result<Option<SeatLine>, NoMemory>
    ensures spelled { IfOk result (λ read. IfSome read (λ seat. line.now ≡ seat_text seat)) }
    ensures in_range { IfOk result (λ read. IfSome read IsSeatLine) }
    ensures none { IfOk result (λ read. IfNone read ((seat : SeatLine) → IsSeatLine seat → line.now ≢ seat_text seat)) }
{
    let Some(rest) = after_seat(line.bytes()) else {
        return Ok(None);
    };
    let (names, rest) = cut_handles(alloc, rest)?;
    let Some(terms) = seat_terms(names.as_slice(), rest) else {
        return Ok(None);
    };
    Ok(Some(SeatLine { names, terms }))
}

/// What these players play, by what stands behind their names.
fn seat_terms(names: &[Handle], rest: &[u8]) -> Option<Terms>
    ensures spelled { IfSome result (λ terms. rest.now ≡ terms_text terms) }
    ensures in_range { IfSome result (NamesMayPlay names.now) }
    ensures none { IfNone result ((terms : Terms) → NamesMayPlay names.now terms → rest.now ≢ terms_text terms) }
{
    let terms = read_terms(rest)?;
    if names.len() != players(terms.variant) {
        return None;
    }
    if !are_different(names) {
        return None;
    }
    Some(terms)
}

/// What stands behind the first word of a seat line.
fn after_seat(bytes: &[u8]) -> Option<&[u8]>
    ensures rest { IfSome result (λ rest. bytes.now ≡ codes "seat" ++ blank ∷ rest.now) }
    ensures none { IfNone result ((rest : List ℕ) → bytes.now ≢ codes "seat" ++ blank ∷ rest) }
{
    match bytes {
        [b's', b'e', b'a', b't', b' ', rest @ ..] => Some(rest),
        _ => None,
    }
}

/// The handles at the front, each with a blank behind it, and what follows them.
fn cut_handles(alloc: Global, bytes: &[u8]) -> Result<(Listed<Handle>, &[u8]), NoMemory>
    ensures parts { IfOk result (λ parts. bytes.now ≡ words_before parts.0 parts.1.now) }
    ensures handles { IfOk result (λ parts. All IsHandle parts.0) }
    ensures end { IfOk result (λ parts. (name more : List ℕ) → IsHandle name → parts.1.now ≢ name ++ blank ∷ more) }
{
    let mut names = Listed::new(alloc);
    let mut rest = bytes;
    while let Some((name, after)) = cut_handle(rest) {
        names.push(name)?;
        rest = after;
    }
    Ok((names, rest))
}

/// What stands behind the names.
fn read_terms(bytes: &[u8]) -> Option<Terms>
    ensures spelled { IfSome result (λ terms. bytes.now ≡ terms_text terms) }
    ensures in_range { IfSome result AreSeatTerms }
    ensures none { IfNone result ((terms : Terms) → AreSeatTerms terms → bytes.now ≢ terms_text terms) }
{
    let Some((minutes, rest)) = cut_number(bytes, MOST) else {
        return None;
    };
    let Some((increment, rest)) = cut_number(rest, MOST) else {
        return None;
    };
    let Some(variant) = read_variant(rest) else {
        return None;
    };
    Some(Terms {
        minutes: minutes as u16,
        increment: increment as u16,
        variant,
        colour: Some(Colour::White),
    })
}

/// How many players a game has.
fn players(variant: Variant) -> usize
    ensures { result ≡ players_wanted variant }
{
    match variant {
        Variant::Chess | Variant::Crazyhouse => 2,
        Variant::Bughouse => 4,
        Variant::Fischer(_) => 2,
    }
}

/// Whether no two names are one player's.
fn are_different(names: &[Handle]) -> bool
    ensures { IsTrue result ↔ AreDifferent names.now }
{
    for (place, name) in names.iter().enumerate() {
        if has_player(&names[..place], *name) {
            return false;
        }
    }
    true
}

/// Whether one of the names is this player's.
fn has_player(names: &[Handle], player: Handle) -> bool
    ensures { IsTrue result ↔ Any (λ name. key_of name ≡ key_of player) names.now }
{
    names.iter().any(|name| name.key() == player.key())
}
