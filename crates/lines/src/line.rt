// The lines of a listing: each fills the end of a lent area, and only the used part is handed back.
ghost use Rattle.std.specs.Prelude.{◌≡◌, ◌≤◌, length};
ghost use Rattle.lines.specs.Area.{line_bytes, put_last, used_part};
ghost use Rattle.lines.specs.Lines.{line_of, numbers_of, closing_of};

use crate::tail::Tail;
use rules::{Row, Stamp};

// A line's area. The longest line has 91 bytes: 20 digits of the position, 3 of the worker, 10 of each other number, and a byte after each.
pub const LINE_BYTES: usize = 96;

// The eight numbers of a line. A run file's worker is below 64, so a byte holds it; with 32 bits a line could pass the area.
// Stays: numbers, the answer's or the refusal's among them: a line prints these, and nothing else is asked of them.
#[derive(Clone, Copy, Default)]
pub struct Entry {
    pub position: u64,
    pub number: u32,
    pub worker: u8,
    pub value: u32,
    pub sub: u32,
    pub row: Row,
    pub stamp: Stamp,
    pub distance: u32,
}

// Puts the line of an entry where there is room for the longest, and else nothing.
// Stays: beside `entry_text`, which lends the area on and so cannot say what the rest of it holds.
fn put_entry(line: &mut Tail<'_>, e: Entry)
    ensures { line.new ≡ put_last line_bytes line.old (line_of (numbers_of e)) }
{
    if line.room() < LINE_BYTES {
        return;
    }
    line.put_line(&[
        e.position,
        e.number as u64,
        e.worker as u64,
        e.value as u64,
        e.sub as u64,
        e.row.0 as u64,
        e.stamp.0 as u64,
        e.distance as u64,
    ]);
}

// Puts the closing line, likewise.
fn put_closing(line: &mut Tail<'_>, held: u32, worst: u32)
    ensures { line.new ≡ put_last line_bytes line.old (closing_of held worst) }
{
    if line.room() < LINE_BYTES {
        return;
    }
    line.put_filled(b"held # worst #\n", &[held as u64, worst as u64]);
}

// The line of an entry, as the used part of the area; nothing of an area of fewer than 96 bytes.
pub fn entry_text<'a>(area: &'a mut [u8], e: Entry) -> &'a [u8]
    ensures text { result.now ≡ used_part line_bytes area.old (line_of (numbers_of e)) }
    ensures short { length result.now ≤ line_bytes }
{
    let mut line = Tail::new(area);
    put_entry(&mut line, e);
    line.text()
}

// The closing line, likewise.
pub fn closing_text<'a>(area: &'a mut [u8], held: u32, worst: u32) -> &'a [u8]
    ensures text { result.now ≡ used_part line_bytes area.old (closing_of held worst) }
    ensures short { length result.now ≤ line_bytes }
{
    let mut line = Tail::new(area);
    put_closing(&mut line, held, worst);
    line.text()
}
