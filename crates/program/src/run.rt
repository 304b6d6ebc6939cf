// The loop over a file.
ghost use Rattle.std.specs.Prelude.{true, false, ◌≡◌, ◌+◌, ◌<◌, ◌≤◌, length};
ghost use Rattle.pieces.specs.Stretch.{turn_bytes};
ghost use Rattle.buffers.specs.Kept.{Remembers, most_reads};
ghost use Rattle.program.specs.Ran.{Left, over, new_run, Ran};

use buffers::{Run, carry};
use emit::print_piece;
use pieces::begin;
use printing::Mode;
use replay::lent_words;
use std::io::{Read, Write};
use streams::{BUFFER_BYTES, read_behind, write_all};

// Reads a piece and prints it.
// Stays: the three areas apart, and no struct of them: nothing else takes all three, and each is lent on by itself.
fn print_some<R: Read, W: Write>(
    from: &mut R,
    to: &mut W,
    words: &mut [u32],
    mode: Mode,
    run: Run,
    src: &mut [u8],
    out: &mut [u8],
) -> Run
    requires turn_bytes_in_bounds { (turn_bytes ≤ length out.old) × (run.stretch.used ≤ length out.old) × (run.stretch.at ≡ 0) }
    requires carried_in_bounds { (run.carried ≤ length src.old) × (run.ended ≡ false) × (run.reads < most_reads) }
    ensures inside { (result.stretch.used ≤ length out.old) × (result.ended ≡ false → (result.stretch.at ≡ 0) × (result.carried ≤ length src.old)) }
    ensures completes { result.ended ≡ true → result.stretch.complete ≡ true }
    ensures keeps { Left mode run src.old words.old out.old → Left mode result src.new words.new out.new }
    ensures counts { (result.reads ≡ run.reads + 1) × Remembers run result }
{
    let read = read_behind(from, src, run.carried);
    let piece = run.after(read);
    let Ok(n) = read else {
        return piece;
    };
    let end = run.carried + n;
    let printed = print_piece(to, words, mode, piece, &src[..end], out);
    if printed.ended {
        return printed;
    }
    let rest = carry(src, end);
    printed.next_piece(rest)
}

// Whether a run is over.
fn is_over(run: Run) -> bool
    ensures { result ≡ over run }
{
    run.stretch.complete || run.ended || run.unread || run.unwritten
}

// Before anything is read.
fn start() -> Run
    ensures { result ≡ new_run }
{
    Run {
        stretch: begin(),
        carried: 0,
        read: 0,
        reads: 0,
        written: 0,
        ended: false,
        unread: false,
        unwritten: false,
    }
}

// The program: all that it reads, printed.
pub fn print_file<R: Read, W: Write>(from: &mut R, to: &mut W, mode: Mode) -> Run
    ensures { Ran mode result }
{
    let mut words = lent_words();
    let mut src = [0u8; BUFFER_BYTES];
    let mut out = [0u8; BUFFER_BYTES];
    let mut run = start();
    // Nothing says that the input ends: there are as many reads as can be counted, which no run comes to.
    for _ in 0..u64::MAX {
        if is_over(run) {
            break;
        }
        run = print_some(from, to, &mut words, mode, run, &mut src, &mut out);
    }
    run.flush(to, &out)
}

// Writes a line of two parts. Where it can't be written, nothing can tell that.
fn tell<W: Write>(to: &mut W, name: &[u8], what: &[u8]) {
    let _ = write_all(to, name);
    let _ = write_all(to, what);
}

// Tells on a stream what could not be read or written.
pub fn complain<W: Write>(to: &mut W, run: Run, name: &[u8])
    ensures { run.unread ≡ false → run.unwritten ≡ false → W.contents to.new ≡ W.contents to.old }
{
    if run.unread {
        tell(to, name, b": cannot read standard input\n");
    }
    if run.unwritten {
        tell(to, name, b": cannot write standard output\n");
    }
}
