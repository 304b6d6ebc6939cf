// The run lister: reads a run file from standard input, however long, and writes its listing to standard output.
#![tactic(auto)]

use program::{Mode, complain, print_file};

fn main(rt: HostRuntime) {
    let run = print_file(&mut rt.stdin(), &mut rt.stdout(), Mode::Listing);
    complain(&mut rt.stderr(), run, b"lister");
}
