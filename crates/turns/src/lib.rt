// One word of a run file, printed.
#![tactic(auto)]

ghost use Rattle.std.specs.Prelude.{◌≡◌, ℕ, List};
ghost use Rattle.runfile.specs.Words.{read_at};
ghost use Rattle.replay.specs.Told.{next_told};
ghost use Rattle.turns.specs.Turn.{new_printer, printing, turned, turn_by, turn_of};

use printing::{Mode, Output, print_event};
use replay::{Told, next, place_after};
use runfile::item::Place;
use runfile::reader::Reader;
use tally::{Tally, bound_in, count};

// Where a program is in a file: the next word's place and position, and what is counted.
#[derive(Clone, Copy)]
pub struct Printer {
    pub place: Place,
    pub position: u64,
    pub tally: Tally,
}

// What one word does: what is handed on of it to be printed, and where the program is then.
#[derive(Clone, Copy)]
pub struct Turn {
    pub printer: Printer,
    pub output: Output,
}

// A program before a file's first word.
pub fn start() -> Printer
    ensures { result ≡ new_printer }
{
    Printer {
        place: Place::First,
        position: 0,
        tally: Tally::default(),
    }
}

// What is printed of how the file goes on: of the first two words nothing.
fn print_told(mode: Mode, p: Printer, told: Told) -> Turn
    ensures { (ws : List ℕ) → printing mode result ws ≡ turn_by mode ws p (next_told p.position told) }
{
    let position = p.position.wrapping_add(1);
    match told {
        Told::Opens(opening) => Turn {
            printer: Printer {
                place: Place::Second(opening),
                position,
                ..p
            },
            output: Output::Quiet,
        },
        Told::Makes(g) => {
            let tally = Tally {
                bound: bound_in(g),
                ..p.tally
            };
            Turn {
                printer: Printer {
                    place: Place::Later,
                    position,
                    tally,
                },
                output: Output::Quiet,
            }
        }
        Told::Does(d) => {
            let tally = count(p.tally, d);
            Turn {
                printer: Printer {
                    place: place_after(d.said),
                    position,
                    tally,
                },
                output: print_event(mode, tally, d),
            }
        }
        Told::Ends(fault) => Turn {
            printer: p,
            output: Output::End(fault),
        },
    }
}

// The turn of what a reader of `src` finds at word `at`.
#[tactic(auto, unfolding(crate::specs::Turn::turn_of))]
pub fn turn_of(words: &mut [u32], mode: Mode, p: Printer, src: &[u8], at: usize) -> Turn
    ensures { turned mode result words.new ≡ turn_of mode words.old p (read_at src.now at) }
{
    let told = next(words, p.place, p.position, Reader { src, at });
    print_told(mode, p, told)
}
