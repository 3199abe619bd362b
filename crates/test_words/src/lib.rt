//! Tests of the words that players type and of what stands behind a login: tables whose expected values come from the
//! standards of chess notation, from FIPS 180-4 and from the server's rules, written out by hand. In folders of their
//! own the lines of a script, and the words behind the program's name, beside another reader.
#![tactic(auto)]

#[cfg(test)]
mod aliases;
#[cfg(test)]
mod commands;
#[cfg(test)]
mod full_accounts;
#[cfg(test)]
mod job;
#[cfg(test)]
mod links;
#[cfg(test)]
mod lists;
#[cfg(test)]
mod logins;
#[cfg(test)]
mod offers;
#[cfg(test)]
mod resuming;
#[cfg(test)]
mod script;
#[cfg(test)]
mod simuls;
#[cfg(test)]
mod spellings;
#[cfg(test)]
mod watching;
