//! Partners of bughouse: who has asked whom, and who are partners.
//!
//! The contract: a `Partners` is two lists, the requests in the order of asking and the links in the order in which
//! they were made, and each call is a stated change of them. Nobody is in two links, and nobody is linked to itself.
//! So to be a partner goes both ways.
#![tactic(auto)]

mod laws;
mod pairs;
mod partners;

pub use laws::{asked_back_are_partners, forgotten_is_named_by_nobody, partners_are_mutual};
pub use pairs::{PartnerLink, PartnerRequest};
pub use partners::Partners;
