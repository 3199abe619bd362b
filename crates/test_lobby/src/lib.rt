//! Tests of the lobby's acts where no line of a player reaches. What players bring about by lines stands in
//! `test_evenings`. The expected answers are those of the rules of the server, and the expected lines are written out
//! by hand.
//!
//! A test is a table of steps with what each has to answer. The steps are carried out by functions without contracts,
//! so a test is proved quickly: what it shows is shown by running it.
#![tactic(auto)]

#[cfg(test)]
mod finding;
#[cfg(test)]
mod list_steps;
#[cfg(test)]
mod login_steps;
#[cfg(test)]
mod logins;
#[cfg(test)]
mod name_lists;
#[cfg(test)]
mod partner_steps;
#[cfg(test)]
mod partners;
#[cfg(test)]
mod paths;
#[cfg(test)]
mod refusals;
#[cfg(test)]
mod resuming;
#[cfg(test)]
mod resuming_steps;
#[cfg(test)]
mod saving;
#[cfg(test)]
mod seek_steps;
#[cfg(test)]
mod seeks;
#[cfg(test)]
mod simul_steps;
#[cfg(test)]
mod simuls;
#[cfg(test)]
mod steps;
#[cfg(test)]
mod talk_steps;
#[cfg(test)]
mod talking;
