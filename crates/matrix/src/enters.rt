ghost use Rattle.matrix.specs.Enters.{EntersAll};

use crate::{Grant, Matrix, MatrixFault};
use refusals::FirstRefusal;

// Enters grants one after the other, up to the first that is refused.
pub fn enter_all<M: Matrix>(
    matrix: &mut M,
    grants: &[Grant],
) -> Result<(), FirstRefusal<MatrixFault>>
    ensures { EntersAll (M.means matrix.old) grants.now result (M.means matrix.new) }
{
    for (position, grant) in grants.iter().enumerate() {
        if let Err(fault) = matrix.enter(*grant) {
            return Err(FirstRefusal { position, fault });
        }
    }
    Ok(())
}
