// A stretch of what a program prints: how far it is, and whether it goes on.
ghost use Rattle.std.specs.Prelude.{◌≡◌, ◌<◌, ◌^◌, length};
ghost use Rattle.pieces.specs.Stretch.{new_stretch, goes_on, turns_in};

use lines::SUMMARY_BYTES;
use runfile::word::WORD_BYTES;
use turns::{Printer, start};

// What one turn prints has at most so many bytes: a line, or a summary.
pub const TURN_BYTES: usize = SUMMARY_BYTES;

// How far a program is: its printer, the position of the next word in the lent bytes, the bytes of output used, and whether all is printed.
// Stays: a flag beside counts that all hold whether it is set or not: what was used is still to be written when all is printed.
#[derive(Clone, Copy)]
pub struct Stretch {
    pub printer: Printer,
    pub at: usize,
    pub used: usize,
    pub complete: bool,
}

// Before a file's first word.
pub fn begin() -> Stretch
    ensures { result ≡ new_stretch }
{
    Stretch {
        printer: start(),
        at: 0,
        used: 0,
        complete: false,
    }
}

// Whether a stretch goes on: it is not complete, and the output has room for a turn.
pub fn goes_on(out: &[u8], s: Stretch) -> bool
    ensures { result ≡ goes_on s (length out.now) }
{
    !s.complete && s.used.saturating_add(TURN_BYTES) <= out.len()
}

// How many turns the lent bytes have.
pub fn turns_in(src: &[u8], last: bool) -> usize
    ensures { (result ≡ turns_in src.now last) × (result < 2 ^ 63) }
{
    src.len() / WORD_BYTES + usize::from(last)
}
