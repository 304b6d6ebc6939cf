// "The pool's words": where each lies. The head, the subs, the workers, the cells, and a queue's windows behind them.
ghost use Rattle.std.specs.Prelude.{◌≡◌, ◌+◌, ◌<◌, ◌≤◌};
ghost use Rattle.rules.specs.Layout.{cell_words, sub_at, worker_words, worker_at, sub_cells_at, cell_at, windows_at, windows_words, needed};
ghost use Rattle.rules.specs.Limits.{Bounds, windowed};

use rules::numbers::{MOST_CELLS, MOST_WORKERS, WIDEST, WINDOWED};
use rules::{Row, Settings};

// The head: the settings but two.
pub const KIND: usize = 0;

pub const WIDTH: usize = 1;

pub const DEPTH: usize = 2;

pub const SHIFT: usize = 3;

pub const ROWS: usize = 4;

pub const WORKER_COUNT: usize = 5;

// Steps counted, puts made.
pub const STEPS: usize = 6;

pub const PUTS: usize = 7;

// P or G; T or G's version.
pub const TOP: usize = 8;

pub const MARK: usize = 9;

// The last settings.
pub const STRIDE: usize = 10;

pub const EDITION: usize = 11;

pub const HEAD_WORDS: usize = 12;

// A sub: items put and items taken, or items held and version.
pub const SUB_WORDS: usize = 2;

// A worker's words, from the first of them.
pub const PHASE: usize = 0;

pub const VALUE: usize = 1;

pub const INDEX: usize = 2;

pub const SEEN_WINDOW: usize = 3;

pub const EXTRA: usize = 4;

pub const SCAN: usize = 5;

pub const SEEN: usize = 6;

pub const SUM: usize = 7;

// So many are read by the rules of a step in every edition.
pub const SLOT_WORDS: usize = SUM + 1;

// Its failed commits, from edition 1 on.
pub const LOST: usize = SLOT_WORDS;

// The rest of the window seen, from edition 2 on.
pub const BOTTOM: usize = LOST + 1;

pub const SEEN_WIDTH: usize = BOTTOM + 1;

// So many has a worker at the most.
pub const WORKER_WORDS: usize = SEEN_WIDTH + 1;

// A cell: value, stamp.
pub const CELL_WORDS: usize = 2;

// The windows, from edition 2 on: the size of the next put window, whether one was set, how many are live, and a pair of width and depth for each, from the
// take window to the put window.
pub const NEXT_WIDTH: usize = 0;

pub const NEXT_DEPTH: usize = 1;

pub const SIZE_SET: usize = 2;

pub const LIVE: usize = 3;

pub const PAIRS: usize = 4;

pub const PAIR_WORDS: usize = 2;

// How many words they have.
pub const WINDOWS_WORDS: usize = 36;

// Enough for every pool of the edition of the shipped calls.
pub const MOST_WORDS: usize = HEAD_WORDS
    + SUB_WORDS * (WIDEST as usize)
    + WORKER_WORDS * (MOST_WORKERS as usize)
    + CELL_WORDS * (MOST_CELLS as usize)
    + WINDOWS_WORDS;

// Where sub `j` lies.
pub fn sub_at(j: u32) -> usize
    ensures { result ≡ sub_at j }
{
    HEAD_WORDS + SUB_WORDS * (j as usize)
}

// How many words a worker has in an edition.
#[tactic(auto, using(rules::proofs::Workers::words_none, rules::proofs::Workers::words_one, rules::proofs::Workers::words_two))]
pub fn worker_words(edition: u32) -> usize
    ensures { result ≡ worker_words edition }
{
    if edition == 0 {
        LOST
    } else if edition < WINDOWED {
        BOTTOM
    } else {
        WORKER_WORDS
    }
}

// Where worker `i` lies: behind the subs.
#[tactic(auto, using(rules::proofs::Workers::words_few))]
pub fn worker_at(g: Settings, i: u32) -> usize
    ensures { result ≡ worker_at g i }
{
    sub_at(g.width) + worker_words(g.edition) * (i as usize)
}

// Where the cells of sub `j` lie: behind the workers.
#[tactic(auto, using(rules::proofs::Workers::cells_low))]
pub fn sub_cells_at(g: Settings, j: u32) -> usize
    requires bounds { Bounds g }
    requires j_le_width { j ≤ g.width }
    ensures { result ≡ sub_cells_at g j }
{
    worker_at(g, g.workers) + CELL_WORDS * ((j as usize) * (g.rows as usize))
}

// Where the cell of a row of sub `j` lies: among the words needed.
#[tactic(auto, using(rules::proofs::Cells::cell_lt, rules::proofs::Cells::rows_pos, rules::proofs::Workers::cells_low))]
pub fn cell_at(g: Settings, j: u32, row: Row) -> usize
    requires bounds { Bounds g }
    requires j_lt_width { j < g.width }
    ensures { (result ≡ cell_at g j row.0) × (result + cell_words ≤ needed g) }
{
    let below = row.0.wrapping_sub(1) % g.rows;
    sub_cells_at(g, j) + CELL_WORDS * (below as usize)
}

// Where the windows lie: behind the cells.
pub fn windows_at(g: Settings) -> usize
    requires { Bounds g }
    ensures { result ≡ windows_at g }
{
    sub_cells_at(g, g.width)
}

// Whether windows have sizes of their own in the pool's edition.
#[tactic(auto, unfolding(rules::specs::Limits::windowed))]
pub fn is_windowed(g: Settings) -> bool
    ensures { result ≡ windowed g }
{
    WINDOWED <= g.edition
}

// How many words the windows have in an edition.
#[tactic(auto, using(rules::proofs::Workers::windows_none, rules::proofs::Workers::windows_some))]
pub fn windows_words(edition: u32) -> usize
    ensures { result ≡ windows_words edition }
{
    if edition < WINDOWED { 0 } else { WINDOWS_WORDS }
}

// How many words a pool needs: up to the end of the cells, and those of the windows.
#[tactic(auto, using(rules::proofs::Workers::cells_low, rules::proofs::Workers::windows_few))]
pub fn words_needed(g: Settings) -> usize
    requires { Bounds g }
    ensures { result ≡ needed g }
{
    sub_cells_at(g, g.width) + windows_words(g.edition)
}
