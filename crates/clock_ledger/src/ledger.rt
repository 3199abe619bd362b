//! The clock of one player at one board.
ghost use Rattle.std.specs.Prelude.{◌≡◌, ◌+◌, ◌*◌, ◌^◌, ◌<◌, ◌≤◌, [], length, IfOk, pos, ◌-ℤ◌};
ghost use Rattle.clock_ledger.specs.Charges.{IsChargeable};
ghost use Rattle.clock_ledger.specs.Clock.{timed, start_of, remaining, charged, is_next_charged, taken_back};

use crate::charges::Charge;
use collections::Roomy;
use memory::NoMemory;
use std::alloc::Global;
use std::marker::Model;

/// How many charges a ledger has room for: a colour's share of the half-moves that a board may see.
pub const MAX_CHARGES: usize = 600;

/// The charges of one clock under its terms. Contracts see the terms and the list of the charges.
#[derive(Drop)]
pub struct ClockLedger {
    minutes: u16,
    increment: u16,
    charges: Roomy<Charge, MAX_CHARGES>,
    spent: u64,
}

impl Model for ClockLedger {
    ghost use Rattle.clock_ledger.specs.Clock.{Ledger, SumsUp};

    ghost Value = { Ledger };

    ghost view = { λ clock. record {
      minutes = clock.minutes;
      increment = clock.increment;
      charges = clock.charges;
    } };

    ghost invariant = { λ clock. SumsUp clock.charges clock.spent };
}

impl ClockLedger {
    /// The clock before its first charge. `minutes` are those at the start, `increment` the seconds for each charge;
    /// 0 and 0 is a game without clocks. Takes the memory for all its charges.
    pub fn start(alloc: Global, minutes: u16, increment: u16) -> Result<Self, NoMemory>
        ensures { IfOk result (λ clock. clock ≡ record { minutes = minutes; increment = increment; charges = [] }) }
    {
        Ok(ClockLedger {
            minutes,
            increment,
            charges: Roomy::new(alloc)?,
            spent: 0,
        })
    }

    /// Whether the game has clocks.
    pub fn timed(&self) -> bool
        ensures { result ≡ timed self.now }
    {
        self.minutes != 0 || self.increment != 0
    }

    /// Whether the player's next half-move is charged: the game has clocks, and the player has moved before.
    pub fn is_next_charged(&self, has_moved: bool) -> bool
        ensures { result ≡ is_next_charged self.now has_moved }
    {
        self.timed() && has_moved
    }

    /// The charges, in the order in which they were made.
    pub fn charges(&self) -> &[Charge]
        ensures value { result.now ≡ self.now.charges }
        ensures within { length self.now.charges ≤ MAX_CHARGES }
    {
        self.charges.as_slice()
    }

    /// Puts `charge` behind the others. Takes no memory.
    pub fn charge(&mut self, charge: Charge)
        requires room { length self.old.charges < MAX_CHARGES }
        requires sound { IsChargeable charge }
        ensures { self.new ≡ charged self.old charge }
    {
        self.spent += charge.amount();
        self.charges.push(charge);
    }

    /// Takes the last charge off.
    pub fn back(&mut self)
        requires { 0 < length self.old.charges }
        ensures { self.new ≡ taken_back self.old }
    {
        if let Some(last) = self.charges.pop() {
            self.spent -= last.amount();
        }
    }

    /// The milliseconds that remain, which may be below 0; 0 in a game without clocks.
    pub fn remaining(&self) -> i64
        ensures { result ≡ remaining self.now }
    {
        if !self.timed() {
            return 0;
        }
        let given = given_millis(self.minutes, self.increment, self.charges.len());
        difference(given, self.spent)
    }
}

/// What is left of `given` after `spent`, below 0 where more was spent.
fn difference(given: u64, spent: u64) -> i64
    requires given_small { given < 2 ^ 36 }
    requires spent_small { spent < 2 ^ 58 }
    ensures { result ≡ pos given -ℤ pos spent }
{
    given as i64 - spent as i64
}

/// The milliseconds that a clock with these terms was given by this many charges.
fn given_millis(minutes: u16, increment: u16, charges: usize) -> u64
    requires { charges ≤ MAX_CHARGES }
    ensures value { result ≡ start_of minutes increment + increment * 1000 * charges }
    ensures small { result < 2 ^ 36 }
{
    start_millis(minutes, increment) + u64::from(increment) * 1000 * charges as u64
}

/// The milliseconds at the start of a game with these terms.
fn start_millis(minutes: u16, increment: u16) -> u64
    ensures value { result ≡ start_of minutes increment }
    ensures small { result < 2 ^ 32 }
{
    match (minutes, increment) {
        (0, 0) => 0,
        (0, _) => 10_000,
        _ => u64::from(minutes) * 60_000,
    }
}
