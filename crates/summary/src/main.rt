// The summary: reads a run file from standard input, however long, and writes what it comes to, in seven lines, to standard output.
#![tactic(auto)]

use program::{Mode, complain, print_file};

fn main(rt: HostRuntime) {
    let run = print_file(&mut rt.stdin(), &mut rt.stdout(), Mode::Summing);
    complain(&mut rt.stderr(), run, b"summary");
}
