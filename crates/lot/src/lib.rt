// A lot: a scheme over a register, drawn up, opened, closed and asked.
#![tactic(auto)]

mod calls;
mod faults;

pub use calls::{Answer, Call, CallFault, Verdict};
pub use faults::AskFault;
