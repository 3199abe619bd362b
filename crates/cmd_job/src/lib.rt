//! The words behind the program's name, and the job that they name.
//!
//! The contract: `read_job` gives a job exactly where the words name it, by the grammar of `specs/Jobs.antt` and
//! `specs/Options.antt`, and nothing but running out of memory stands in its place.
#![tactic(auto)]

mod chosen;
mod command_name;
mod job;
mod numbers;
mod options;
mod reading;
mod usage;

pub use command_name::CommandName;
pub use job::{Job, JobFail};
pub use options::JobOption;
pub use reading::read_job;
pub use usage::tell_usage;
