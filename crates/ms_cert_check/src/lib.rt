//! An automaton file and the certificate beside it: the certificate is made, and the file is checked by it.
#![tactic(auto)]

mod certifying;
mod checking;
mod examples;
mod file;
mod laws;
mod text;

pub use certifying::certify;
pub use checking::check;
pub use examples::worked_checks;
pub use file::cert_name;
pub use laws::laws_of_checks;
