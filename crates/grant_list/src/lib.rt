// A register that keeps one record for each right held.
#![tactic(auto)]

mod store;

pub use store::GrantList;
