//! The commands whose arguments have a form of their own, each in a file of its own.

pub(crate) mod alias;
pub(crate) mod matching;
pub(crate) mod observe;
pub(crate) mod seek;
pub(crate) mod set;
pub(crate) mod style;
pub(crate) mod takeback;
pub(crate) mod tell;
pub(crate) mod unseek;
