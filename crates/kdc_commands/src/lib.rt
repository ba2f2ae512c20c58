//! What the program's words ask for, done over devices: questions about a directory, tickets explained, callers served, keys
//! derived.
#![tactic(auto)]

mod ask;
mod derive;
mod input;
mod job;
mod load;
mod question;
mod refusal;
mod reply;
mod run;
mod serving;
mod stop;
mod task;
mod words;

pub use run::run_words;
pub use words::read_port;
