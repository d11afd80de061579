// A register that keeps each cell as one number, a bit for each right.
#![tactic(auto)]

mod store;

pub use store::Grid;
