// The distance of a take: the held items of all subs that it passes over, spacers not counted, each band of a sub in at most two straight
// runs of cells.
ghost use Rattle.std.specs.Prelude.{true, ◌≡◌, ◌+◌, ◌*◌, ◌≤◌, ◌<◌, length};
ghost use Rattle.bands.specs.Together.{TellsCell, Together};
ghost use Rattle.rules.specs.Fit.{FitPool};
ghost use Rattle.rules.specs.Held.{reported, count_items};
ghost use Rattle.rules.specs.Layout.{cell_words, sub_cells_at};
ghost use Rattle.rules.specs.Limits.{most_rows, most_live};
ghost use Rattle.ring.specs.Segments.{Within, up_from, segment_cells, segments_above, cells_of, cell_items, walked_sub, walked_distance};
ghost use Rattle.rules.specs.Windows.{has_windows};

use bands::{Band, Reach, band_segments, between, joined_from, reach_of, whole_band};
use image::{CELL_WORDS, Item, cell_item, sub_cells_at, sub_of};
use queue_windows::{live_of, nth_size};
use rules::{Segment, Segments, Settings, Stamp};

// Whether the distance of a take of stamp `s` counts an item: no spacer, and older in a queue, newer in a stack.
fn is_reported(kind: u32, s: Stamp, it: Item) -> bool
    ensures { result ≡ reported kind s.0 (record { value = it.value; stamp = it.stamp.0 }) }
{
    if it.value == 0 {
        return false;
    }
    if kind == 0 {
        it.stamp < s
    } else {
        s < it.stamp
    }
}

// How many items of the first `count` cells the distance of a take of stamp `s` counts. A cell's value and stamp are read together,
// before either is tested: where the test of one decides whether the other is read, the loop is not vector code.
fn cells_reported(cells: &[u32], count: usize, kind: u32, s: Stamp) -> u32
    requires { (cell_words * count ≤ length cells.now) × (count ≤ most_rows) }
    ensures { (result ≡ count_items (reported kind s.0) (cell_items cells.now 0 (up_from 0 count))) × (result ≤ count) }
{
    let mut n = 0;
    for k in 0..count {
        let it = cell_item(cells, CELL_WORDS * k);
        if is_reported(kind, s, it) {
            n += 1;
        }
    }
    n
}

// The same of a segment of sub `j`.
fn segment_reported(words: &[u32], g: Settings, j: u32, x: Segment, kind: u32, s: Stamp) -> u32
    requires fit_pool { FitPool g words.now }
    requires sub_in { j < g.width }
    requires cells_in { x.start + x.count ≤ g.rows }
    ensures { (result ≡ count_items (reported kind s.0) (cell_items words.now (sub_cells_at g j) (segment_cells x))) × (result ≤ x.count) }
{
    let at = sub_cells_at(g, j) + CELL_WORDS * (x.start as usize);
    cells_reported(&words[at..], x.count as usize, kind, s)
}

// The same of both segments. Whether the second has cells is asked once, before the first is gone through: a sub with one alone
// costs less so. It becomes a part of each of its calls, where the kind is a number: where it was a call of its own, takes past windows of several sizes took
// up to 1.5 times as long.
#[inline(always)]
fn segments_reported(words: &[u32], g: Settings, j: u32, x: Segments, kind: u32, s: Stamp) -> u32
    requires fit_pool { FitPool g words.now }
    requires sub_in { j < g.width }
    requires within { Within g.rows x }
    ensures { (result ≡ count_items (reported kind s.0) (cell_items words.now (sub_cells_at g j) (cells_of x))) × (result ≤ most_rows) }
{
    if x.second.count == 0 {
        return segment_reported(words, g, j, x.first, kind, s);
    }
    segment_reported(words, g, j, x.first, kind, s)
        + segment_reported(words, g, j, x.second, kind, s)
}

// The same of a band of sub `j`.
// Stays: each call has its kind as a number, so that the compiler makes the loop of each kind, and no cell asks for it.
fn band_reported(words: &[u32], g: Settings, r: Reach, j: u32, band: Band, s: Stamp) -> u32
    requires fit_pool { FitPool g words.now }
    requires sub_in { j < g.width }
    requires few_rows { band.rows ≤ g.rows }
    requires first_cells { 1 ≤ g.kind → band.below ≡ 0 }
    requires tells_cell { TellsCell g.rows r band.below }
    ensures { (result ≡ count_items (reported g.kind s.0) (cell_items words.now (sub_cells_at g j) (cells_of (segments_above g.rows band.below band.rows)))) × (result ≤ most_rows) }
{
    let held = band_segments(g, r, band);
    if g.kind == 0 {
        return segments_reported(words, g, j, held, 0, s);
    }
    segments_reported(words, g, j, held, 1, s)
}

// How many held items of sub `j` the distance counts, where it lies within all windows: they are of one band.
fn whole_reported(words: &[u32], g: Settings, r: Reach, j: u32, s: Stamp) -> u32
    requires fit_pool { FitPool g words.now }
    requires together { Together words.now g r }
    requires in_all { j < r.width }
    ensures { (result ≡ count_items (reported g.kind s.0) (walked_sub words.now g j)) × (result ≤ most_rows) }
{
    band_reported(words, g, r, j, whole_band(g, r, sub_of(words, j)), s)
}

// The same of a sub of which that is not known. Windows one after the other that it lies in have one band; from its last put row on there is nothing more.
fn windows_reported(words: &[u32], g: Settings, r: Reach, j: u32, s: Stamp) -> u32
    requires fit_pool { FitPool g words.now }
    requires together { Together words.now g r }
    requires windows { has_windows g ≡ true }
    requires sub_in { j < g.width }
    ensures { (result ≡ count_items (reported g.kind s.0) (walked_sub words.now g j)) × (result ≤ most_live * most_rows) }
{
    let sub = sub_of(words, j);
    let mut bottom = r.bottom;
    if sub.first <= sub.second.max(bottom) {
        return 0;
    }
    let live = live_of(words, g);
    let mut n = 0;
    let mut k = 0;
    // Stays: a turn goes on behind the windows that it joined, and not at the next one.
    while k < live {
        let on = joined_from(words, g, j, k, live, bottom);
        let band = between(sub.second.max(bottom), sub.first.min(on.top));
        let held = band_segments(g, r, band);
        // Not by `band_reported`, which is inlined only where a single place calls it.
        n += segments_reported(words, g, j, held, 0, s);
        if sub.first <= on.top {
            return n;
        }
        bottom = on.top;
        k = on.end;
        if k < live {
            bottom += nth_size(words, g, k).depth;
            k += 1;
        }
    }
    n
}

// The distance of a take of stamp `s`.
pub fn distance(words: &[u32], g: Settings, s: Stamp) -> u32
    requires { FitPool g words.now }
    ensures { result ≡ walked_distance words.now g s }
{
    let r = reach_of(words, g);
    let mut n = 0;
    for j in 0..r.width {
        n += whole_reported(words, g, r, j, s);
    }
    for j in r.width..g.width {
        n += windows_reported(words, g, r, j, s);
    }
    n
}
