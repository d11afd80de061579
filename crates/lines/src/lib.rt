// One line of a lot file, from bytes to a value.
#![tactic(auto)]

mod faults;
mod fields;
mod kinds;
mod reading;
mod values;

pub use faults::LineFault;
pub use kinds::Kind;
pub use reading::read_line;
pub use scheme::TypeKind;
pub use values::{Access, Line, Numbers};
