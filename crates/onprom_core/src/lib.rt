//! The top call: words in, a status out, and what is written on the way.
//!
//! [`run`] is the one call, and its contract is the promise of the tool: a clause for each command in plain words
//! (`headline` and `sound`, `checks`, `verifies`, `answers`, `rewrites`, `explains`, `lints`, `compares`, `makes`), over `specs/Headline`. `specs/Walk`
//! has what is read in which order, and `specs/Jobs` what is done with it.
#![tactic(auto)]

mod answering;
mod checking;
mod commands;
mod consistency;
mod containing;
mod deciding;
mod deliver;
mod explaining;
mod extraction;
mod halt;
mod lines;
mod linting;
mod making;
mod model_names;
mod naming;
mod output;
mod querying;
mod reading;
mod rewriting;
mod specifying;
mod status;
mod top;
mod verifying;
mod width;

pub use halt::Stopped;
pub use status::Status;
pub use top::run;
