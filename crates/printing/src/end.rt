// What is printed of the end of a file.
ghost use Rattle.std.specs.Prelude.{◌≡◌};
ghost use Rattle.printing.specs.Printings.{numbered, listed_end, summary_end, end_numbered};

use crate::lost::lost;
use crate::printed::{Mode, Printed, plain_entry};
use held::items;
use image::steps_counted;
use lines::Summary;
use rules::RefusalNumber;
use tally::Tally;

// The number of the fault, if there is one.
fn numbered<R: RefusalNumber>(fault: Option<R>) -> Option<u32>
    ensures { result ≡ numbered R.number fault }
{
    match fault {
        Some(refusal) => Some(refusal.number()),
        None => None,
    }
}

// By the lister: the fault's line, or the closing line where there is none.
#[tactic(auto, unfolding(crate::specs::Printings::listed_end))]
fn list_end(words: &[u32], t: Tally, position: u64, fault: Option<u32>) -> Printed
    ensures { result ≡ listed_end t position fault words.now }
{
    match fault {
        Some(number) => Printed::Last(plain_entry(position, number, 0)),
        None => Printed::Closing {
            held: items(words),
            worst: t.worst,
        },
    }
}

// By the summary: its lines.
fn sum_end(words: &[u32], t: Tally, position: u64, fault: Option<u32>) -> Printed
    ensures { result ≡ summary_end t position fault words.now }
{
    Printed::Totals(Summary {
        fault,
        words: position,
        puts: t.puts,
        takes: t.takes,
        empties: t.empties,
        fulls: t.fulls,
        refused: t.refused,
        held: items(words),
        worst: t.worst,
        bound: t.bound,
        lost: lost(words),
        steps: steps_counted(words),
    })
}

// By a program: the file ends at a position, by a fault or by none.
#[tactic(auto, unfolding(crate::specs::Printings::end_numbered))]
pub fn print_end<R: RefusalNumber>(
    words: &[u32],
    mode: Mode,
    t: Tally,
    position: u64,
    fault: Option<R>,
) -> Printed
    ensures { result ≡ end_numbered mode t position (numbered R.number fault) words.now }
{
    let fault = numbered(fault);
    match mode {
        Mode::Listing => list_end(words, t, position, fault),
        Mode::Summing => sum_end(words, t, position, fault),
    }
}
