// What is printed of an event.
ghost use Rattle.std.specs.Prelude.{◌≡◌, ltb};
ghost use Rattle.laws.specs.Choice.{cond};
ghost use Rattle.rules.specs.Answers.{over_bound};
ghost use Rattle.runfile.specs.declared.item.Item.TheVariants.{Says};
ghost use Rattle.printing.specs.Printings.{worker_in, plain, listed_by, event_printed_by};
ghost use Rattle.printing.specs.Outputs.{Outputs, stops_after};

use lines::{Entry, Summary};
use replay::Done;
use rules::{Answer, Refusal, RefusalNumber};
use runfile::item::Said;
use tally::Tally;

// Which program prints: the lister, or the summary.
// Stays: a trait with an impl for each would put the type into every function down to the loop over a file; the two places that ask are a match each.
#[derive(Clone, Copy)]
pub enum Mode {
    Listing,
    Summing,
}

// What is printed of a word, or of the end of a file. `Last`, `Closing` and `Totals` are a program's last; `Closing` is "held" H "worst" D.
#[derive(Clone, Copy)]
pub enum Printed {
    Nothing,
    Line(Entry),
    Last(Entry),
    Closing { held: u32, worst: u32 },
    Totals(Summary<u32>),
}

// What is handed on of a word: the line of an event, or the fault that ends the file, if there is one. `R` is a refusal, or what stands for one.
#[derive(Clone, Copy)]
pub enum Output<R = Refusal> {
    Quiet,
    Line(Entry),
    Last(Entry),
    End(Option<R>),
}

// Whether a program stops after an output.
pub fn ends<R: RefusalNumber>(x: Output<R>) -> bool
    ensures { result ≡ stops_after x }
{
    matches!(x, Output::Last(_) | Output::End(_))
}

// The worker that a word names.
fn worker_in(said: Said) -> u8
    ensures { result ≡ worker_in (Says said) }
{
    match said {
        Said::BeginPut { worker, .. } | Said::BeginTake { worker } | Said::Step { worker } =>
            worker,
        Said::End | Said::SetSize { .. } => 0,
    }
}

// An entry whose last five fields are 0.
pub fn plain_entry(position: u64, number: u32, worker: u8) -> Entry
    ensures { result ≡ plain position number worker }
{
    Entry {
        position,
        number,
        worker,
        ..Entry::default()
    }
}

// The line of a take: 30 in its place where the distance is above the bound.
#[tactic(auto, unfolding(laws::specs::Choice::cond))]
fn taken_line<R>(bound: u32, line: Entry) -> Output<R>
    ensures { result ≡ cond (ltb bound line.distance) (Output.Last (plain line.position over_bound line.worker)) (Output.Line line) }
{
    if bound < line.distance {
        Output::Last(plain_entry(line.position, Refusal::OverBound.number(), line.worker))
    } else {
        Output::Line(line)
    }
}

// The entry of an event of this number, its last five fields 0.
fn plain_of<R: RefusalNumber>(d: Done<R>, number: u32) -> Entry
    ensures { result ≡ plain d.position number (worker_in (Says d.said)) }
{
    plain_entry(d.position, number, worker_in(d.said))
}

// What the lister prints of an event. The answer 0, of most words, has no line: it is told first, and asks for nothing else.
// Stays: the numbers of the answers stand here again, as a line prints them and `answer_printed_by` has them.
fn listed<R: RefusalNumber>(bound: u32, d: Done<R>) -> Output<R>
    ensures { Outputs result (listed_by R.number bound d.position (Says d.said) d.answer) }
{
    let answer = match d.answer {
        Ok(answer) => answer,
        Err(refusal) => return Output::Line(plain_of(d, refusal.number())),
    };
    match answer {
        Answer::Moving => Output::Quiet,
        Answer::Put {
            value,
            sub,
            row,
            stamp,
        } => Output::Line(Entry {
            value,
            sub,
            row,
            stamp,
            ..plain_of(d, 1)
        }),
        Answer::Taken {
            value,
            sub,
            row,
            stamp,
            distance,
        } => taken_line(
            bound,
            Entry {
                value,
                sub,
                row,
                stamp,
                distance,
                ..plain_of(d, 2)
            },
        ),
        Answer::Empty => Output::Line(plain_of(d, 3)),
        Answer::Full => Output::Line(plain_of(d, 4)),
    }
}

// What a program prints of an event, with a tally that has counted it.
pub fn print_event<R: RefusalNumber>(mode: Mode, t: Tally, d: Done<R>) -> Output<R>
    ensures { Outputs result (event_printed_by R.number mode t d.position (Says d.said) d.answer) }
{
    match mode {
        Mode::Listing => listed(t.bound, d),
        Mode::Summing => Output::Quiet,
    }
}
