// A piece of the input, printed.
#![tactic(auto)]

ghost use Rattle.std.specs.Prelude.{false, true, ◌≡◌, ◌≤◌, length};
ghost use Rattle.pieces.specs.Stretch.{turn_bytes, turns_in, stretched, stretch_of};
ghost use Rattle.buffers.specs.Kept.{Keeps, ReadsNothing, WritesNothing, Remembers};

use buffers::Run;
use pieces::{print_words, turns_in};
use printing::Mode;
use std::io::Write;

// Prints on in a piece, while the output has room.
fn print_on(words: &mut [u32], mode: Mode, run: Run, src: &[u8], out: &mut [u8]) -> Run
    requires { run.stretch.used ≤ length out.old }
    ensures prints { stretched result.stretch words.new out.new ≡ stretch_of mode src.now run.ended (stretched run.stretch words.old out.old) }
    ensures same { ReadsNothing run result × WritesNothing run result }
    ensures inside { result.stretch.used ≤ length out.old }
{
    Run {
        stretch: print_words(words, mode, run.stretch, src, run.ended, out),
        ..run
    }
}

// Prints a piece, all of it: the output is written wherever it may lack room for a turn.
pub fn print_piece<W: Write>(
    to: &mut W,
    words: &mut [u32],
    mode: Mode,
    from: Run,
    src: &[u8],
    out: &mut [u8],
) -> Run
    requires { (turn_bytes ≤ length out.old) × (from.stretch.used ≤ length out.old) × (from.stretch.at ≡ 0) }
    ensures inside { result.stretch.used ≤ length out.old }
    ensures all { (result.stretch.complete ≡ false → result.stretch.at ≡ turns_in src.now from.ended) × (from.ended ≡ true → result.stretch.complete ≡ true) }
    ensures same { ReadsNothing from result × Remembers from result }
    ensures keeps { Keeps mode from src.now words.old out.old result src.now words.new out.new }
{
    let turns = turns_in(src, from.ended);
    let mut run = from;
    while !run.stretch.complete && run.stretch.at < turns {
        let roomy = run.with_room(to, out);
        run = print_on(words, mode, roomy, src, out);
    }
    run
}
