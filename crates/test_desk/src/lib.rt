//! Tests of games at a desk, of the boards below it and of the texts that players see. The boards, games that are
//! played again and the texts have folders of their own. Tests of desks stand here where no line of a player reaches:
//! acts of another game's serial, at a vacant desk and of who has no seat, what is counted to its end, milliseconds,
//! and games as they lie in a store. What players bring about by lines stands in `test_evenings`.
#![tactic(auto)]

#[cfg(test)]
mod boards;
#[cfg(test)]
mod four;
#[cfg(test)]
mod kept;
#[cfg(test)]
mod offers;
#[cfg(test)]
mod played;
#[cfg(test)]
mod refused;
#[cfg(test)]
mod shown;
#[cfg(test)]
mod stages;
#[cfg(test)]
mod stamped;
#[cfg(test)]
mod stored;
#[cfg(test)]
mod table;
#[cfg(test)]
mod text;
#[cfg(test)]
mod watching;
