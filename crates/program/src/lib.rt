// The one loop of all programs that print a run file: it reads the file from a stream in pieces, and writes what is printed to another.
#![tactic(auto)]

mod run;

pub use buffers::Run;
pub use printing::Mode;
pub use run::{complain, print_file};
