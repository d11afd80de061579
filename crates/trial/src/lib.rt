// A matrix over any other matrix: what stands below, together with up to 512 rights of its own.
#![tactic(auto)]

mod overlay;

pub use overlay::Trial;
