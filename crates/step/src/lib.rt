// One command with actual places, judged and run on any matrix and on any register.
#![tactic(auto)]

mod faults;
mod judges;
mod lists;
mod runs;
mod steps;

pub use faults::StepFault;
pub use judges::{Attempt, holds, is_apart, placed};
pub use lists::run_steps;
pub use runs::{enter_step, run_step};
pub use steps::Step;
