// The words of lent bytes, a turn for each, and what the turns print as text in lent output.
ghost use Rattle.std.specs.Prelude.{◌≡◌, ◌+◌, ◌<◌, ◌≤◌, ◌^◌, length};
ghost use Rattle.lines.specs.Area.{line_bytes};
ghost use Rattle.lines.specs.Lines.{line_of, numbers_of};
ghost use Rattle.printing.specs.Printings.{printed_text};
ghost use Rattle.turns.specs.Turn.{shown};
ghost use Rattle.pieces.specs.Stretch.{turn_bytes, put_at, stretched, stretch_turn, stretch_of};

use crate::stretch::{Stretch, goes_on, turns_in};
use lines::{Entry, LINE_BYTES, SUMMARY_BYTES, closing_text, entry_text, summary_text};
use printing::{Mode, Output, Printed, ends, print_end};
use turns::{Printer, Turn, turn_of};

// Puts a text at the start of `room`; how many bytes it has.
fn append(room: &mut [u8], text: &[u8]) -> usize
    requires { length text.now ≤ length room.old }
    ensures bytes { result ≡ length text.now }
    ensures text { room.new ≡ put_at room.old 0 text.now }
{
    room[..text.len()].copy_from_slice(text);
    text.len()
}

// Puts there the line of an entry.
fn append_line(room: &mut [u8], e: Entry) -> usize
    requires { line_bytes ≤ length room.old }
    ensures bytes { result ≡ length (line_of (numbers_of e)) }
    ensures text { room.new ≡ put_at room.old 0 (line_of (numbers_of e)) }
    ensures inside { result ≤ line_bytes }
{
    append(room, entry_text(&mut [0; LINE_BYTES], e))
}

// Puts there what is printed.
fn append_printed(room: &mut [u8], printed: Printed) -> usize
    requires { turn_bytes ≤ length room.old }
    ensures bytes { result ≡ length (printed_text printed) }
    ensures text { room.new ≡ put_at room.old 0 (printed_text printed) }
    ensures inside { result ≤ turn_bytes }
{
    match printed {
        Printed::Nothing => 0,
        Printed::Line(e) | Printed::Last(e) => append_line(room, e),
        Printed::Closing { held, worst } => {
            append(room, closing_text(&mut [0; LINE_BYTES], held, worst))
        }
        Printed::Totals(s) => append(room, summary_text(&mut [0; SUMMARY_BYTES], s)),
    }
}

// Puts there what a turn prints. What is printed of the file's end is made here, from what the printer counted.
fn append_output(room: &mut [u8], words: &[u32], mode: Mode, p: Printer, x: Output) -> usize
    requires { turn_bytes ≤ length room.old }
    ensures bytes { result ≡ length (printed_text (shown mode words.now p x)) }
    ensures text { room.new ≡ put_at room.old 0 (printed_text (shown mode words.now p x)) }
    ensures inside { result ≤ turn_bytes }
{
    match x {
        Output::Quiet => 0,
        Output::Line(e) | Output::Last(e) => append_line(room, e),
        Output::End(fault) => {
            append_printed(room, print_end(words, mode, p.tally, p.position, fault))
        }
    }
}

// One turn.
fn turn(words: &mut [u32], mode: Mode, s: Stretch, src: &[u8], out: &mut [u8]) -> Stretch
    requires at_bound { s.at < 2 ^ 63 }
    requires turn_bytes_in_bounds { s.used + turn_bytes ≤ length out.old }
    ensures out_after { stretched result words.new out.new ≡ stretch_turn mode src.now (stretched s words.old out.old) }
    ensures used_in_bounds { result.used ≤ length out.old }
{
    let Turn { printer, output } = turn_of(words, mode, s.printer, src, s.at);
    let bytes = append_output(&mut out[s.used..], words, mode, printer, output);
    Stretch {
        printer,
        at: s.at + 1,
        used: s.used + bytes,
        complete: ends(output),
    }
}

// Prints the words of `src` from the stretch's position on, into the output after what is used of it, until all is printed, the output
// may lack room for a turn, or the words end. Where `src` is the last of its file, the file's end is printed too.
// What is used lies inside the output, so that the caller can write it.
pub fn print_words(
    words: &mut [u32],
    mode: Mode,
    from: Stretch,
    src: &[u8],
    last: bool,
    out: &mut [u8],
) -> Stretch
    ensures prints { stretched result words.new out.new ≡ stretch_of mode src.now last (stretched from words.old out.old) }
    ensures inside { from.used ≤ length out.old → result.used ≤ length out.old }
{
    let turns = turns_in(src, last);
    let mut s = from;
    while s.at < turns && goes_on(out, s) {
        s = turn(words, mode, s, src, out);
    }
    s
}
