// The mover: reads a saved pool from standard input, moves it from an edition to another and writes it to standard output.
// Its arguments are the two editions, one of them next to the other. Where the move is refused it writes the refusal's number to standard error, and no byte to standard output.
#![tactic(auto)]

ghost use Rattle.std.specs.Prelude.{ℕ, ◌<◌, ◌≤◌, length, take, IfOk, MatchResult};
ghost use Rattle.std.specs.Io.KnownBytes.{Consumes, IsAtEnd};
ghost use Rattle.mover.specs.MovesInput.{MovesInput};

use moves::leads_on;
use rules::Refusal;
use saved::{MOST_BYTES, move_file};
use std::env::FillError;
use std::io::{Read, Write};
use std::rt::Env;
use std::{fmt, io};
use streams::{BUFFER_BYTES, read_behind, write_all};

// Why nothing was moved, or not all of it written.
#[derive(Drop)]
enum Fault {
    Usage,
    Unread,
    Refused(Refusal),
    Unwritten,
}

// The line that tells it, with its end, so that a text is written at once.
impl fmt::Display for Fault {
    fn fmt<W: fmt::Write>(&self, f: &mut fmt::Formatter<W>) -> fmt::Result {
        match self {
            Fault::Usage => f.write_str(
                "mover: call it as 'mover 1 2 <OLD >NEW', from one edition to the next or back: 0 1, 1 0, 1 2 or 2 1\n",
            ),
            Fault::Unread => f.write_str("mover: cannot read standard input\n"),
            Fault::Refused(refusal) => writeln!(f, "{}", refusal.number()),
            Fault::Unwritten => f.write_str("mover: cannot write standard output\n"),
        }
    }
}

// The edition that an argument names, which is one digit.
fn edition(env: &impl Env, i: usize) -> Option<u32> {
    let mut name = [0u8; 1];
    match env.arg(i, &mut name) {
        Ok(1) => char::from(name[0]).to_digit(10),
        _ => None,
    }
}

// Whether there is an argument `i`, of whatever length.
fn is_given(env: &impl Env, i: usize) -> bool {
    let mut byte = [0u8; 1];
    !matches!(env.arg(i, &mut byte), Err(FillError::NotPresent))
}

// The two editions that the arguments name, from one of which a move leads to the other.
fn editions(env: &impl Env) -> Option<(u32, u32)> {
    let old = edition(env, 1)?;
    let new = edition(env, 2)?;
    (!is_given(env, 3) && leads_on(old, new)).then_some((old, new))
}

// Reads until the input ends, the lent bytes are full or a read fails; how many bytes were read.
fn read_all<R: Read>(from: &mut R, src: &mut [u8]) -> io::Result<usize>
    ensures inside { IfOk result (λ end. end ≤ length src.old) }
    ensures bytes { MatchResult result
        (λ end. Consumes (R.remaining from.old) (R.remaining from.new) (take end src.new))
        (λ _. (end : ℕ) × Consumes (R.remaining from.old) (R.remaining from.new) (take end src.new)) }
    ensures all { IfOk result (λ end. end < length src.old → IsAtEnd (R.remaining from.new)) }
{
    let mut end = 0;
    while end < src.len() {
        match read_behind(from, src, end)? {
            0 => break,
            n => end += n,
        }
    }
    Ok(end)
}

// Reads a saved pool, and moves it. At most 65,536 bytes are read, more than the largest pool has; what follows is not looked at.
fn move_input<R: Read, W: Write>(from: &mut R, to: &mut W, old: u32, new: u32) -> Result<(), Fault>
    ensures { MovesInput old new (R.remaining from.old) (R.remaining from.new) (W.contents to.old) (W.contents to.new) }
{
    let mut src = [0u8; BUFFER_BYTES];
    let Ok(end) = read_all(from, &mut src) else {
        return Err(Fault::Unread);
    };
    let mut out = [0u8; MOST_BYTES];
    let used = move_file(&src[..end], old, &mut out, new).map_err(Fault::Refused)?;
    write_all(to, &out[..used]).map_err(|_| Fault::Unwritten)
}

// Tells it on a stream. Where that can't be written, nothing can tell it.
fn tell<E: Write>(errors: &mut E, fault: Fault) {
    let _ = write!(errors, "{fault}");
}

// Moves a pool, and tells on a stream of its own why it was not moved, or not written whole: no word of that is written where the pool is.
fn move_told<R: Read, W: Write, E: Write>(
    from: &mut R,
    to: &mut W,
    errors: &mut E,
    old: u32,
    new: u32,
)
    ensures { MovesInput old new (R.remaining from.old) (R.remaining from.new) (W.contents to.old) (W.contents to.new) }
{
    if let Err(fault) = move_input(from, to, old, new) {
        tell(errors, fault);
    }
}

fn main(rt: HostRuntime) {
    match editions(&rt) {
        Some((old, new)) => move_told(
            &mut rt.stdin(),
            &mut rt.stdout(),
            &mut rt.stderr(),
            old,
            new,
        ),
        None => tell(&mut rt.stderr(), Fault::Usage),
    }
}
