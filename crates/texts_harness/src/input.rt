// The input as a stream of bytes. The other harness fills its buffer likewise, but takes whole lines; a crate for the few
// lines that both have (this, an answer's buffer, `Shown`, blocks from numbers) would be no plainer.

ghost use Rattle.std.specs.Prelude.{◌≡◌, ◌≤◌, length, IfOk, OnErr};

use crate::requests::MOST_BYTES;
use std::io::{Read, Result};

// What is read of the input and not taken yet: the buffer's bytes from start up to end.
#[derive(Drop)]
pub(crate) struct Stream<'a, R> {
    reader: R,
    buffer: &'a mut [u8],
    start: usize,
    end: usize,
    ghost ordered: { start ≤ end },
    ghost within: { end ≤ length buffer.now },
}

impl<'a, R: Read> Stream<'a, R> {
    // The bytes that a reader gives, held in a buffer.
    pub(crate) fn new(reader: R, buffer: &'a mut [u8]) -> Stream<'a, R> {
        Stream {
            reader,
            buffer,
            start: 0,
            end: 0,
        }
    }

    // The bytes that are read and not taken yet.
    pub(crate) fn unread(&self) -> &[u8] {
        &self.buffer[self.start..self.end]
    }

    // Takes bytes, so that only so many of those unread are left.
    pub(crate) fn keep(&mut self, left: usize) {
        self.start = self.end.saturating_sub(left);
    }

    // Sees to it that the buffer has a whole request, if the input has one: where less than the longest is left, that moves to the
    // start, and the room behind it is filled from the input. The one error is that of a read; other bytes may stand in the
    // buffer then.
    pub(crate) fn refill(&mut self) -> Result<()> {
        let left = self.end - self.start;
        if left < MOST_BYTES {
            self.buffer.copy_within(self.start..self.end, 0);
            self.start = 0;
            self.end = left;
            self.end += read_full(&mut self.reader, &mut self.buffer[left..])?;
        }
        Ok(())
    }
}

// Reads until the buffer is full or the input ends, and gives how many bytes were read. The one error is that of a read; other bytes
// may stand in the buffer then.
fn read_full(reader: &mut impl Read, buffer: &mut [u8]) -> Result<usize>
    ensures ok { IfOk result (λ end. end ≤ length buffer.new) }
    ensures err { OnErr result (length buffer.new ≡ length buffer.old) }
{
    let mut end: usize = 0;
    while end < buffer.len() {
        let more = reader.read(&mut buffer[end..])?;
        if more == 0 {
            break;
        }
        end += more;
    }
    Ok(end)
}
