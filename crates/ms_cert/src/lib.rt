//! Certificates that an automaton file has fewest states: their text, written and read, and whether one certifies a file.
#![tactic(auto)]

mod cert;
mod certifying;
mod checking;
mod difference;
mod examples;
mod growing;
mod images;
mod laid_out;
mod laws;
mod layout;
mod lengths;
mod letters;
mod levels;
mod line;
mod lines;
mod partition;
mod reading;
mod refinement;
mod room;
mod running;
mod separation;
mod shortest;
mod sign;
mod splitter;
mod tree;
mod tree_line;
mod word;
mod words;
mod writing;

pub use cert::{Cert, Proven, TreeLine};
pub use certifying::certificate;
pub use checking::checked;
pub use examples::{worked_certificates, worked_texts};
pub use laws::laws_of_certificates;
pub use levels::shortest_words;
pub use reading::read_cert;
pub use writing::write_cert;
