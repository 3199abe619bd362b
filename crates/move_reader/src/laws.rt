//! Laws of the spellings.

ghost use Rattle.move_reader.specs.Spellings.{HasOneReading};

/// No text has two readings.
#[tactic(auto, using(crate::proofs::Readings::one_word))]
pub fn one_reading()
    ensures { HasOneReading }
{}
