//! The stamps that a client puts on its lines.
ghost use Rattle.std.specs.Prelude.{◌≡◌, ◌+◌, ◌%◌, ◌<◌};
ghost use Rattle.clock_ledger.specs.Span.{span};

/// A client's stamps count milliseconds and begin again at 0 when they have reached this number.
pub const STAMP_CYCLE: u32 = 10_000_000;

/// The milliseconds from the stamp `begin` on to the stamp `end`, where less than a whole round lies between.
pub fn span(begin: u32, end: u32) -> u32
    ensures value { result ≡ span begin end }
    ensures below_a_round { result < STAMP_CYCLE }
    ensures leads_to_end { (begin + result) % STAMP_CYCLE ≡ end % STAMP_CYCLE }
{
    (end % STAMP_CYCLE + STAMP_CYCLE - begin % STAMP_CYCLE) % STAMP_CYCLE
}
