// The straight runs of cells that hold a sub's rows: whatever goes through held cells goes through these.
ghost use Rattle.std.specs.Prelude.{◌≡◌, ◌%◌, ◌≤◌};
ghost use Rattle.bands.specs.Together.{TellsCell};
ghost use Rattle.rules.specs.Limits.{Bounds};
ghost use Rattle.ring.specs.Segments.{segment, only, segments_above};

use crate::reach::{Band, Reach};
use rules::{Segment, Segments, Settings};

// One segment alone.
fn only(start: u32, count: u32) -> Segments
    ensures { result ≡ only (segment start count) }
{
    Segments {
        first: Segment { start, count },
        ..Segments::default()
    }
}

// The cell of the row above `below`: as far on from that of the row above the lowest bottom as `below` is above that bottom, and on from the first cell behind
// the last. A remainder is taken only where that goes round twice.
fn cell_above(rows: u32, r: Reach, below: u32) -> u32
    requires some_rows { 1 ≤ rows }
    requires tells_cell { TellsCell rows r below }
    ensures { result ≡ below % rows }
{
    let at = r.cell + (below - r.bottom);
    if at < rows {
        return at;
    }
    let again = at - rows;
    if again < rows {
        return again;
    }
    at % rows
}

// Those of the cells of `held` rows above row `below`: up to the last cell, and on from the first. Where no row is held, no cell is looked for.
fn segments_above(rows: u32, r: Reach, below: u32, held: u32) -> Segments
    requires some_rows { 1 ≤ rows }
    requires tells_cell { TellsCell rows r below }
    ensures { result ≡ segments_above rows below held }
{
    if held == 0 {
        return Segments::default();
    }
    let start = cell_above(rows, r, below);
    let room = rows - start;
    if held <= room {
        return only(start, held);
    }
    Segments {
        first: Segment { start, count: room },
        second: Segment {
            start: 0,
            count: held - room,
        },
    }
}

// Those of a band. A stack's lies in its first cells.
pub fn band_segments(g: Settings, r: Reach, band: Band) -> Segments
    requires bounds { Bounds g }
    requires few_rows { band.rows ≤ g.rows }
    requires first_cells { 1 ≤ g.kind → band.below ≡ 0 }
    requires tells_cell { TellsCell g.rows r band.below }
    ensures { result ≡ segments_above g.rows band.below band.rows }
{
    if g.kind == 0 {
        return segments_above(g.rows, r, band.below, band.rows);
    }
    only(0, band.rows)
}
