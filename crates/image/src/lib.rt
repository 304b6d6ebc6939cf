// Where a pool's words lie, and how those of the head, of a sub and of a cell are read and written; a worker's are in slots, those of a queue's windows in
// queue_windows. Nothing outside this crate knows a place by its number.
#![tactic(auto)]

mod cells;
mod head;
mod pair;
mod places;
mod sub;

pub use cells::{Item, cell_item, item_of, put_item, put_landed};
pub use head::{
    as_shipped, count_step, in_edition, out_of_steps, put_head, put_shifted, settings,
    shipped_settings, steps_counted,
};
pub use pair::put_pair;
pub use places::{
    BOTTOM, CELL_WORDS, DEPTH, EDITION, EXTRA, HEAD_WORDS, INDEX, KIND, LIVE, LOST, MARK,
    MOST_WORDS, NEXT_DEPTH, NEXT_WIDTH, PAIR_WORDS, PAIRS, PHASE, PUTS, ROWS, SCAN, SEEN,
    SEEN_WIDTH, SEEN_WINDOW, SHIFT, SIZE_SET, SLOT_WORDS, STEPS, STRIDE, SUB_WORDS, SUM, TOP,
    VALUE, WIDTH, WINDOWS_WORDS, WORKER_COUNT, WORKER_WORDS, cell_at, is_windowed, sub_at,
    sub_cells_at, windows_at, windows_words, words_needed, worker_at, worker_words,
};
pub use sub::{Sub, put_sub, sub_of};
