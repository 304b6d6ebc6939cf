// The output, written.
ghost use Rattle.std.specs.Prelude.{◌≡◌, ℕ, ◌+◌, ◌≤◌, false, List, length, take};
ghost use Rattle.std.specs.Io.KnownBytes.{Appends};
ghost use Rattle.pieces.specs.Stretch.{turn_bytes};
ghost use Rattle.printing.specs.declared.printed.Mode.{Mode as Mode-as-Mode};
ghost use Rattle.buffers.specs.Kept.{Keeps, ReadsNothing, Remembers, FlushedTo};

use crate::run::Run;
use pieces::{Stretch, TURN_BYTES};
use std::io::Write;
use streams::write_all;

impl Run {
    // Hands what is used of the output to be written, and uses it anew.
    pub fn flush<W: Write>(self, to: &mut W, out: &[u8]) -> Run
        requires { self.stretch.used ≤ length out.now }
        ensures run { FlushedTo self result }
        ensures bytes { result.unwritten ≡ false → Appends (W.contents to.old) (W.contents to.new) (take self.stretch.used out.now) }
    {
        let used = self.stretch.used;
        let failed = write_all(to, &out[..used]).is_err();
        Run {
            stretch: Stretch {
                used: 0,
                ..self.stretch
            },
            written: self.written.wrapping_add(used as u64),
            unwritten: self.unwritten || failed,
            ..self
        }
    }

    // With room for a turn in the output.
    pub fn with_room<W: Write>(self, to: &mut W, out: &[u8]) -> Run
        requires { (turn_bytes ≤ length out.now) × (self.stretch.used ≤ length out.now) }
        ensures room { result.stretch.used + turn_bytes ≤ length out.now }
        ensures same { (result.stretch.at ≡ self.stretch.at) × (result.stretch.complete ≡ self.stretch.complete) × ReadsNothing self result × Remembers self result }
        ensures keeps { (m : Mode-as-Mode) (piece ws : List ℕ) → Keeps m self piece ws out.now result piece ws out.now }
    {
        if TURN_BYTES <= out.len() - self.stretch.used {
            return self;
        }
        self.flush(to, out)
    }
}
