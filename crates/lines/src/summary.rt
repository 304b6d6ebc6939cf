// The lines of a summary.
ghost use Rattle.std.specs.Prelude.{◌≡◌, ◌+◌, ◌≤◌, length};
ghost use Rattle.lines.specs.Area.{put, put_last, used_part};
ghost use Rattle.lines.specs.Summary.{first_line, counts_lines, summary_text, first_line_bytes, summary_bytes};

use crate::tail::Tail;
use rules::numbers::STEP_LIMIT;
use rules::{Refusal, RefusalNumber};

// A summary's area: 20 digits of each of its 14 numbers and 104 bytes of templates are at most 384.
pub const SUMMARY_BYTES: usize = 512;

// What a summary says. `fault` is the fault that ended the file, if one did, or what stands for it, and `words` how many words are before it.
#[derive(Clone, Copy)]
pub struct Summary<R = Refusal> {
    pub fault: Option<R>,
    pub words: u64,
    pub puts: u64,
    pub takes: u64,
    pub empties: u64,
    pub fulls: u64,
    pub refused: u64,
    pub held: u32,
    pub worst: u32,
    pub bound: u32,
    pub lost: u64,
    pub steps: u32,
}

// Puts the lines of the counts.
fn put_counts<R: RefusalNumber>(lines: &mut Tail<'_>, s: Summary<R>)
    requires { summary_bytes ≤ length lines.old.room }
    ensures { lines.new ≡ put lines.old (counts_lines s) }
{
    lines.put_filled(
        b"words #\nput # taken # empty # full # refused #\nheld #\nworst # bound #\nlost #\nsteps # of #\n",
        &[
            s.words,
            s.puts,
            s.takes,
            s.empties,
            s.fulls,
            s.refused,
            s.held as u64,
            s.worst as u64,
            s.bound as u64,
            s.lost,
            s.steps as u64,
            STEP_LIMIT as u64,
        ],
    )
}

// Puts the first line.
fn put_first<R: RefusalNumber>(lines: &mut Tail<'_>, s: Summary<R>)
    requires { first_line_bytes ≤ length lines.old.room }
    ensures line { lines.new ≡ put lines.old (first_line R.number s) }
    ensures short { length (first_line R.number s) ≤ first_line_bytes }
{
    match s.fault {
        None => lines.put_text(b"whole\n"),
        Some(fault) => lines.put_filled(b"faulty # at #\n", &[u64::from(fault.number()), s.words]),
    }
}

// Puts a summary where there is room for the longest, and else nothing.
// Stays: beside `summary_text`, which lends the area on and so cannot say what the rest of it holds.
fn put_summary<R: RefusalNumber>(lines: &mut Tail<'_>, s: Summary<R>)
    ensures lines { lines.new ≡ put_last summary_bytes lines.old (summary_text R.number s) }
    ensures short { length lines.new.text ≤ length lines.old.text + summary_bytes }
{
    if lines.room() < SUMMARY_BYTES {
        return;
    }
    put_counts(lines, s);
    put_first(lines, s);
}

// A summary, as the used part of the area; nothing of an area of fewer than 512 bytes.
pub fn summary_text<'a, R: RefusalNumber>(area: &'a mut [u8], s: Summary<R>) -> &'a [u8]
    ensures text { result.now ≡ used_part summary_bytes area.old (summary_text R.number s) }
    ensures short { length result.now ≤ summary_bytes }
{
    let mut lines = Tail::new(area);
    put_summary(&mut lines, s);
    lines.text()
}
