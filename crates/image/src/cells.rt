// All that touches a cell: a value, and the stamp behind it.
ghost use Rattle.std.specs.Prelude.{◌≡◌, ◌<◌, ◌≤◌, length};
ghost use Rattle.rules.specs.Apply.{put_item, put_landed, stamp_in_cell};
ghost use Rattle.rules.specs.Held.{cell_item, item_at};
ghost use Rattle.rules.specs.Layout.{stamp_at, needed};
ghost use Rattle.rules.specs.Limits.{Bounds};

use crate::pair::put_pair;
use crate::places::{PUTS, cell_at};
use crate::sub::put_sub;
use rules::{Effect, Row, Settings, Stamp};

// The stamp's place in a cell.
const STAMP: usize = 1;

#[derive(Clone, Copy)]
pub struct Item {
    pub value: u32,
    pub stamp: Stamp,
}

// The item in the cell at a place, its value and its stamp.
pub fn cell_item(words: &[u32], cell: usize) -> Item
    requires { stamp_at cell < length words.now }
    ensures { (result.value ≡ (cell_item words.now cell).value) × (result.stamp ≡ record { 0 = (cell_item words.now cell).stamp }) }
{
    Item {
        value: words[cell],
        stamp: Stamp(words[cell + STAMP]),
    }
}

// The item in the cell of a row of sub `j`.
pub fn item_of(words: &[u32], g: Settings, j: u32, row: Row) -> Item
    requires bounds { Bounds g }
    requires g_in_bounds { (needed g ≤ length words.now) × (j < g.width) }
    ensures { (result.value ≡ (item_at words.now g j row.0).value) × (result.stamp ≡ stamp_in_cell words.now g j row) }
{
    cell_item(words, cell_at(g, j, row))
}

// Writes an item into the cell of its row.
#[tactic(auto, unfolding(rules::specs::Apply::put_item))]
pub fn put_item(words: &mut [u32], g: Settings, j: u32, value: u32, row: Row, stamp: Stamp)
    requires bounds { Bounds g }
    requires g_in_bounds { (needed g ≤ length words.old) × (j < g.width) }
    ensures { words.new ≡ put_item words.old g j value row stamp }
{
    put_pair(words, cell_at(g, j, row), value, stamp.0);
}

// Writes an item, the count of puts, and sub `j`.
#[tactic(auto, unfolding(rules::specs::Apply::put_landed))]
pub fn put_landed(
    words: &mut [u32],
    g: Settings,
    j: u32,
    value: u32,
    row: Row,
    stamp: Stamp,
    e: Effect,
)
    requires bounds { Bounds g }
    requires g_in_bounds { (needed g ≤ length words.old) × (j < g.width) }
    ensures { words.new ≡ put_landed words.old g j value row stamp e }
{
    put_item(words, g, j, value, row, stamp);
    words[PUTS] = e.puts;
    put_sub(words, j, e);
}
