ghost use Rattle.std.specs.Prelude.{◌≤◌, length};
ghost use Rattle.records.specs.Arrays.{elements};

use matrix::Grant;
use records::ArrayList;

pub mod calls;

// Rights laid over a matrix, which is never written: up to 512 of the trial's own.
#[derive(Drop)]
pub struct Trial<M> {
    below: M,
    own: ArrayList<Grant, 512>,
    ghost few: { length (elements own) ≤ 512 },
}
