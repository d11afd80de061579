// What a matrix of rights means, as traits that every kind of matrix and register implements.
#![tactic(auto)]

mod enters;
mod faults;
mod grants;
mod kinds;
mod tables;

pub use enters::enter_all;
pub use faults::{MatrixFault, MemoryFault};
pub use grants::{Grant, is_within, judge_cell};
pub use kinds::{Matrix, Register};
pub use tables::PlaceTable;
