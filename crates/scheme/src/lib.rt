// Schemes of rights: how rights may travel, and a writer that accepts exactly the lawful schemes.
#![tactic(auto)]

mod commands;
mod faults;
mod judges;
mod lines;
mod parts;
mod rewrites;
mod schemes;
mod tables;
mod writers;

pub use commands::Command;
pub use faults::SchemeFault;
pub use lines::{Cell, Operation, TypeKind};
pub use rewrites::rewrite;
pub use schemes::Scheme;
pub use writers::SchemeWriter;
