//! The clocks of both colours, as half-moves come and go.
ghost use Rattle.std.specs.Prelude.{◌≡◌, ◌<◌, ◌≤◌, ◌++◌, IfSome, length};
ghost use Rattle.std.specs.Option.{option_to_list};
ghost use Rattle.clock_ledger.specs.Charges.{IsChargeable};
ghost use Rattle.game_board.specs.Charges.{charge_to};
ghost use Rattle.game_board.specs.TakeBack.{without_end};

use chess_model::Colour;
use clock_ledger::{Charge, ClockLedger, MAX_CHARGES};

/// Records a charge on the clock of the colour that moved, where there is one.
pub(crate) fn charge_clocks(
    white: &mut ClockLedger,
    black: &mut ClockLedger,
    mover: Colour,
    charge: Option<Charge>,
)
    requires white_room { mover ≡ Colour.White → length white.old.charges < MAX_CHARGES }
    requires black_room { mover ≡ Colour.Black → length black.old.charges < MAX_CHARGES }
    requires sound { IfSome charge IsChargeable }
    ensures white { white.new ≡ record white.old
        { charges = white.old.charges ++ charge_to Colour.White mover charge } }
    ensures black { black.new ≡ record black.old
        { charges = black.old.charges ++ charge_to Colour.Black mover charge } }
{
    match mover {
        Colour::White => charge_clock(white, charge),
        Colour::Black => charge_clock(black, charge),
    }
}

/// Records a charge, where there is one.
fn charge_clock(clock: &mut ClockLedger, charge: Option<Charge>)
    requires room { length clock.old.charges < MAX_CHARGES }
    requires sound { IfSome charge IsChargeable }
    ensures { clock.new ≡ record clock.old { charges = clock.old.charges ++ option_to_list charge } }
{
    if let Some(charge) = charge {
        clock.charge(charge);
    }
}

/// Takes the charge of a half-move, where it has one, off the clock of the colour that made it: the last one there.
pub(crate) fn take_charge_off(
    white: &mut ClockLedger,
    black: &mut ClockLedger,
    mover: Colour,
    charge: Option<Charge>,
)
    requires white_has { length (charge_to Colour.White mover charge) ≤ length white.old.charges }
    requires black_has { length (charge_to Colour.Black mover charge) ≤ length black.old.charges }
    ensures white { white.new ≡ record white.old
        { charges = without_end (charge_to Colour.White mover charge) white.old.charges } }
    ensures black { black.new ≡ record black.old
        { charges = without_end (charge_to Colour.Black mover charge) black.old.charges } }
{
    match mover {
        Colour::White => take_off(white, charge),
        Colour::Black => take_off(black, charge),
    }
}

/// Takes a charge, where there is one, off the end.
fn take_off(clock: &mut ClockLedger, charge: Option<Charge>)
    requires { length (option_to_list charge) ≤ length clock.old.charges }
    ensures { clock.new ≡ record clock.old { charges = without_end (option_to_list charge) clock.old.charges } }
{
    if charge.is_some() {
        clock.back();
    }
}
