ghost use Rattle.std.specs.Prelude.{map};
ghost use Rattle.scheme.specs.Rules.{rules_of};
ghost use Rattle.step.specs.Granting.{GrantingLaws};
ghost use Rattle.step.specs.Lists.{step_of, RunsAll};

use crate::runs::run_step;
use crate::{Step, StepFault};
use matrix::Register;
use refusals::FirstRefusal;
use scheme::Scheme;

// Runs steps one after the other, up to the first that is refused. Where every command only enters, what is permitted stays permitted when
// more is held, nothing held is lost, and a standing in which no permitted step enters anything new holds all that is reached from below it.
pub fn run_steps<R: Register>(
    scheme: &Scheme,
    register: &mut R,
    steps: &[Step],
) -> Result<(), FirstRefusal<StepFault>>
    ensures runs { RunsAll (rules_of scheme.now.table) (R.Matrix.means register.old) (map step_of steps.now) result (R.Matrix.means register.new) }
    ensures kept { R.Matrix.frame.keeps register.old register.new }
    ensures laws { GrantingLaws }
{
    // the loop of `matrix::enter_all` over steps; one loop with a closure would leave both their clauses, and each a proof of its closure
    for (position, step) in steps.iter().enumerate() {
        if let Err(fault) = run_step(scheme, register, step.command(), step.places()) {
            return Err(FirstRefusal { position, fault });
        }
    }
    Ok(())
}
