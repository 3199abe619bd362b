//! Charges in records.
ghost use Rattle.std.specs.Prelude.{◌≡◌, ◌++◌, ◌↔◌, IsTrue, OnOk};
ghost use Rattle.clock_ledger.specs.Charges.{AreStamps, IsChargeable};
ghost use Rattle.game_records.specs.Bounds.{IsCharge};
ghost use Rattle.game_records.specs.Reading.{charge_in, charge_behind, charge_length, behind_charge};
ghost use Rattle.game_records.specs.Spelling.{charge_mark, charge_text, stamps_text};

use crate::numbers::{behind, byte_at, eight_in, four_in, write_eight, write_four};
use clock_ledger::{Charge, LAST_MOMENT, STAMP_CYCLE};
use memory::NoMemory;

/// The mark of a half-move without a charge.
const NONE: u8 = 0;

/// The mark of a charge without stamps.
const PLAIN: u8 = 1;

/// The mark of a charge with the client's stamps.
const STAMPED: u8 = 2;

/// Appends a charge, or that there is none.
pub(crate) fn write_charge(out: &mut Vec<u8>, charge: &Option<Charge>) -> Result<(), NoMemory>
    ensures { OnOk result (out.new.items ≡ out.old.items ++ charge_text charge.now) }
{
    let Some(charge) = charge else {
        out.push(NONE)?;
        return Ok(());
    };
    out.push(mark_of(charge.client))?;
    write_eight(out, charge.begin)?;
    write_eight(out, charge.end)?;
    write_stamps(out, charge.client)
}

/// Whether a charge has the client's stamps, as a byte.
fn mark_of(client: Option<(u32, u32)>) -> u8
    ensures { result ≡ charge_mark client }
{
    match client {
        None => PLAIN,
        Some(_) => STAMPED,
    }
}

/// Appends the stamps, if there are any.
fn write_stamps(out: &mut Vec<u8>, client: Option<(u32, u32)>) -> Result<(), NoMemory>
    ensures { OnOk result (out.new.items ≡ out.old.items ++ stamps_text client) }
{
    let Some((begin, end)) = client else {
        return Ok(());
    };
    write_four(out, begin)?;
    write_four(out, end)
}

/// The charge that the bytes begin with, if they do with one.
#[tactic(auto, unfolding(crate::specs::Reading::charge_in))]
pub(crate) fn charge_in(bytes: &[u8]) -> Option<Charge>
    ensures { result ≡ charge_in bytes.now }
{
    charge_behind(byte_at(bytes, 0), behind(bytes, 1))
}

/// The charge behind its mark.
fn charge_behind(mark: u8, bytes: &[u8]) -> Option<Charge>
    ensures { result ≡ charge_behind mark bytes.now }
{
    if mark == NONE {
        return None;
    }
    let begin = eight_in(bytes);
    let end = eight_in(behind(bytes, 8));
    if mark == PLAIN {
        return Some(Charge {
            begin,
            end,
            client: None,
        });
    }
    let stamps = (four_in(behind(bytes, 16)), four_in(behind(bytes, 20)));
    Some(Charge {
        begin,
        end,
        client: Some(stamps),
    })
}

/// The bytes behind the first charge.
#[tactic(auto, unfolding(crate::specs::Reading::behind_charge))]
pub(crate) fn behind_charge(bytes: &[u8]) -> &[u8]
    ensures { result.now ≡ behind_charge bytes.now }
{
    behind(behind(bytes, 1), charge_length(byte_at(bytes, 0)))
}

/// How many bytes a charge has behind its mark.
fn charge_length(mark: u8) -> usize
    ensures { result ≡ charge_length mark }
{
    match mark {
        NONE => 0,
        PLAIN => 16,
        _ => 24,
    }
}

/// Whether a clock may have the charge.
pub(crate) fn is_charge(charge: &Option<Charge>) -> bool
    ensures { IsTrue result ↔ IsCharge charge.now }
{
    match charge {
        None => true,
        Some(charge) => is_chargeable(charge),
    }
}

fn is_chargeable(charge: &Charge) -> bool
    ensures { IsTrue result ↔ IsChargeable charge.now }
{
    charge.begin <= charge.end && charge.end <= LAST_MOMENT && are_stamps(charge.client)
}

fn are_stamps(client: Option<(u32, u32)>) -> bool
    ensures { IsTrue result ↔ AreStamps client }
{
    match client {
        None => true,
        Some((begin, end)) => begin < STAMP_CYCLE && end < STAMP_CYCLE,
    }
}
