// Cases at the boundaries: each prints the answers to its lines. A point is a line that is done, a number is a refusal.
#![tactic(auto)]

mod answers;
mod bench;
mod schemes;
mod steps;
mod texts;

use schemes::scheme_cases;
use std::io;
use steps::step_cases;
use texts::text_cases;

fn main(rt: HostRuntime) -> io::Result<()> {
    println!(rt; "== Lines ==")?;
    text_cases(&rt)?;
    println!(rt)?;
    println!(rt; "== Schemes ==")?;
    scheme_cases(&rt)?;
    println!(rt)?;
    println!(rt; "== Steps ==")?;
    step_cases(&rt)
}
