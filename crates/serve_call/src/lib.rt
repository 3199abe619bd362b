//! The call that serves people who connect, from its words to the status at its end.
//!
//! `serve` loads the keeper's store, where its words ask to serve, and hands what was loaded to `serve_lobby` of
//! `serve_core`. The contract (`specs/Opening.antt`, and `specs/Serving.antt` of that crate): the hall opened with what
//! the table held, the status says how serving ended or why no hall was opened, and a fault is told only where it was
//! counted.
#![tactic(auto)]

mod serve_call;

pub use serve_call::serve;
