//! Lines of standard input.
ghost use Rattle.std.specs.Prelude.{◌≡◌, ◌≢◌, []};

use arrayvec::ArrayVec;
use sim_base::LineEnd;
use std::io::{ErrorKind, Read};

/// What a reader has next.
enum Next {
    Byte(u8),
    Over,
    Failed,
}

/// A reader, with what was read of it and not yet taken.
#[derive(Drop)]
pub(crate) struct LineReader<F> {
    from: F,
    chunk: [u8; 4096],
    at: usize,
    end: usize,
}

/// The end of a line, of which nothing is kept where it is too long.
fn line_end(long: bool, into: &mut ArrayVec<u8, 1024>) -> LineEnd
    ensures none { result ≢ LineEnd.Line → into.new.items ≡ [] }
{
    if long {
        into.clear();
        return LineEnd::TooLong;
    }
    LineEnd::Line
}

/// No line, of which nothing is kept either.
fn no_line(end: LineEnd, into: &mut ArrayVec<u8, 1024>) -> LineEnd
    ensures end { result ≡ end }
    ensures none { into.new.items ≡ [] }
{
    into.clear();
    end
}

impl<F: Read> LineReader<F> {
    pub(crate) fn new(from: F) -> LineReader<F> {
        LineReader {
            from,
            chunk: [0; 4096],
            at: 0,
            end: 0,
        }
    }

    /// Reads some bytes, and answers how many, 0 at the end; None where the system failed.
    fn read_some(&mut self) -> Option<usize> {
        for _ in 0..u64::MAX {
            match self.from.read(&mut self.chunk) {
                Ok(count) => return Some(count),
                Err(error) if error.kind() == ErrorKind::Interrupted => {}
                Err(_) => return None,
            }
        }
        None
    }

    fn next(&mut self) -> Next {
        if self.at >= self.end {
            match self.read_some() {
                Some(0) => return Next::Over,
                Some(count) => {
                    self.at = 0;
                    self.end = count;
                }
                None => return Next::Failed,
            }
        }
        match self.chunk.get(self.at) {
            Some(byte) => {
                self.at += 1;
                Next::Byte(*byte)
            }
            None => Next::Failed,
        }
    }

    /// Reads a line of at most 1,024 bytes without the line feed at its end; the last may have none.
    pub(crate) fn read_line(&mut self, into: &mut ArrayVec<u8, 1024>) -> LineEnd
        ensures none { result ≢ LineEnd.Line → into.new.items ≡ [] }
    {
        into.clear();
        let mut begun = false;
        let mut long = false;
        for _ in 0..u64::MAX {
            match self.next() {
                Next::Byte(b'\n') => return line_end(long, into),
                Next::Byte(byte) => {
                    begun = true;
                    long = long || into.try_push(byte).is_err();
                }
                Next::Over if begun => return line_end(long, into),
                Next::Over => return no_line(LineEnd::Over, into),
                Next::Failed => return no_line(LineEnd::Failed, into),
            }
        }
        no_line(LineEnd::Failed, into)
    }
}
