// Bytes read from a stream and written to one: a read behind the bytes of a lent area that stay, and a write of all bytes.
// What a stream gives and takes is a matter of the stream. Where a type of streams says which bytes it has left to give, or holds, the clauses are about those bytes.
#![tactic(auto)]

ghost use Rattle.std.specs.Prelude.{◌≡◌, ◌+◌, ◌≤◌, length, take, IfOk};
ghost use Rattle.streams.specs.Behind.{ReadBehind};
ghost use Rattle.streams.specs.Written.{WrittenTo};

use std::io;
use std::io::{Read, Write};

// How many bytes the areas have that programs read into and write from.
pub const BUFFER_BYTES: usize = 65536;

// Reads on behind the first `at` bytes of the area, in one read, and returns how many bytes that brought. One that fails brings none.
pub fn read_behind<R: Read>(from: &mut R, area: &mut [u8], at: usize) -> io::Result<usize>
    requires { at ≤ length area.old }
    ensures fits { IfOk result (λ n. at + n ≤ length area.old) }
    ensures before { take at area.new ≡ take at area.old }
    ensures bytes { ReadBehind (R.remaining from.old) (R.remaining from.new) at result area.new }
{
    from.read(&mut area[at..])
}

// Writes all of the bytes, or stops at the first write that takes none or fails, when some of them may have been written.
// Stays: std's own `write_all` says nothing of the bytes where it fails (`OnOk`), and goes on after a write that a signal interrupts.
pub fn write_all<W: Write>(to: &mut W, bytes: &[u8]) -> io::Result<()>
    ensures { WrittenTo (W.contents to.old) (W.contents to.new) bytes.now result }
{
    let mut rest = bytes;
    while !rest.is_empty() {
        match to.write(rest)? {
            0 => return Err(io::Error::from(io::ErrorKind::WriteZero)),
            n => rest = &rest[n..],
        }
    }
    Ok(())
}

#[cfg(test)]
mod tests {
    use super::*;
    use std::test::Fail;

    // Gives and takes a byte at a time, so many of them, and fails from then on.
    #[derive(Drop)]
    struct Slow {
        held: Vec<u8>,
        left: usize,
    }

    impl Read for Slow {
        fn read(&mut self, buf: &mut [u8]) -> io::Result<usize> {
            if self.left == 0 {
                return Err(io::Error::from(io::ErrorKind::TimedOut));
            }
            self.left -= 1;
            if buf.is_empty() {
                return Ok(0);
            }
            buf[0] = b'x';
            Ok(1)
        }
    }

    impl Write for Slow {
        fn write(&mut self, buf: &[u8]) -> io::Result<usize> {
            if self.left == 0 {
                return Err(io::Error::from(io::ErrorKind::StorageFull));
            }
            self.left -= 1;
            if buf.is_empty() {
                return Ok(0);
            }
            self.held.push(buf[0])?;
            Ok(1)
        }

        fn flush(&mut self) -> io::Result<()> {
            Ok(())
        }
    }

    #[test]
    fn short_writes_are_continued(rt: HostRuntime) -> Result<(), Fail> {
        let mut to = Slow {
            held: Vec::new(rt.alloc()),
            left: 5,
        };
        assert!(rt; write_all(&mut to, b"hello").is_ok());
        assert!(rt; write_all(&mut to, b"").is_ok());
        assert!(rt; write_all(&mut to, b"!").is_err());
        assert_eq!(rt; to.held.as_slice(), b"hello".as_slice());
        Ok(())
    }

    #[test]
    fn a_write_that_fails_stops(rt: HostRuntime) -> Result<(), Fail> {
        let mut to = Slow {
            held: Vec::new(rt.alloc()),
            left: 3,
        };
        assert!(rt; write_all(&mut to, b"hello").is_err());
        assert_eq!(rt; to.held.as_slice(), b"hel".as_slice());
        Ok(())
    }

    #[test]
    fn a_read_that_fails_brings_nothing(rt: HostRuntime) {
        let mut from = Slow {
            held: Vec::new(rt.alloc()),
            left: 1,
        };
        let mut area = *b"abc";
        assert!(rt; matches!(read_behind(&mut from, &mut area, 2), Ok(1)));
        assert_eq!(rt; area, *b"abx");
        assert!(rt; read_behind(&mut from, &mut area, 1).is_err());
        assert_eq!(rt; area, *b"abx");
    }

    #[test]
    fn memory_is_read_to_its_end(rt: HostRuntime) {
        let mut from = b"de".as_slice();
        let mut area = *b"abcabc";
        assert!(rt; matches!(read_behind(&mut from, &mut area, 3), Ok(2)));
        assert_eq!(rt; area, *b"abcdec");
        assert!(rt; matches!(read_behind(&mut from, &mut area, 5), Ok(0)));
    }
}
