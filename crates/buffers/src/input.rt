// The input: what a read brings behind the bytes that are carried over, from a piece to the next.
ghost use Rattle.std.specs.Prelude.{◌≡◌, ◌-◌, ◌%◌, ◌≤◌, length, drop, MatchResult};
ghost use Rattle.std.proofs.Math.Seq.{paste};
ghost use Rattle.runfile.specs.Words.{word_bytes};
ghost use Rattle.buffers.specs.Kept.{ReadsNothing, WritesNothing, at_start, Read, Fed, Unfed};

use crate::run::Run;
use pieces::Stretch;
use runfile::word::WORD_BYTES;
use std::io;

impl Run {
    // After a read, whatever it brought.
    fn counted(self) -> Run
        ensures count { Read self result }
        ensures same { (result.read ≡ self.read) × (result.ended ≡ self.ended) × (result.unread ≡ self.unread) }
    {
        Run {
            reads: self.reads.wrapping_add(1),
            ..self
        }
    }

    // After a read that brought `n` bytes. A read of no bytes is the end of the input.
    pub fn fed(self, n: usize) -> Run
        ensures { Fed self n result }
    {
        Run {
            read: self.read.wrapping_add(n as u64),
            ended: n == 0,
            ..self.counted()
        }
    }

    // After a read that failed: the input can't be read.
    fn unfed(self) -> Run
        ensures { Unfed self result }
    {
        Run {
            unread: true,
            ..self.counted()
        }
    }

    // After a read. The input can't be read where that failed, and nowhere else, so that no read that brought bytes is taken for a failed one.
    pub fn after(self, read: io::Result<usize>) -> Run
        ensures { MatchResult read (λ n. Fed self n result) (λ _. Unfed self result) }
    {
        match read {
            Ok(n) => self.fed(n),
            Err(_) => self.unfed(),
        }
    }

    // At the start of its next piece, with so many bytes carried over.
    pub fn next_piece(self, carried: usize) -> Run
        ensures stretch { result.stretch ≡ at_start self.stretch }
        ensures carried { result.carried ≡ carried }
        ensures reading { ReadsNothing self result }
        ensures writing { WritesNothing self result }
    {
        Run {
            stretch: Stretch {
                at: 0,
                ..self.stretch
            },
            carried,
            ..self
        }
    }
}

// The next piece starts with the bytes of the word that this one cuts; how many they are.
pub fn carry(src: &mut [u8], end: usize) -> usize
    requires { end ≤ length src.old }
    ensures cut { result ≡ end % word_bytes }
    ensures front { src.new ≡ paste src.old 0 (drop (end - end % word_bytes) src.old) (end % word_bytes) }
{
    let n = end % WORD_BYTES;
    src.copy_within(end - n..end, 0);
    n
}
