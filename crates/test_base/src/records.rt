//! Tests of the records of the store and of their keys: tables whose bytes are written out by hand.

mod keys;
mod outcome;
mod spoiled;
mod texts;
mod values;
