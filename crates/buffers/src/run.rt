// A run of a program.
use pieces::Stretch;

// How far a program is: what it prints, how many bytes of a cut word lie at the front of the input, how many bytes were read, in how many reads, and how
// many handed to be written, whether the input has ended, whether it can't be read, and whether the output can't be written.
// Stays: three bools and no enum of states, since the last holds beside each of the others, and the laws of a piece (`Account`, `turns_in`) take the first as a bool.
#[derive(Clone, Copy)]
pub struct Run {
    pub stretch: Stretch,
    pub carried: usize,
    pub read: u64,
    pub reads: u64,
    pub written: u64,
    pub ended: bool,
    pub unread: bool,
    pub unwritten: bool,
}
