//! Tests of the house's player. There is nothing else here: what is tested stands in `house_bot`, and a crate with
//! tests is proved twice.

mod found;
