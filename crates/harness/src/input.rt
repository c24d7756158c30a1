// The input as a stream of requests, one a line. The other harness fills its buffer likewise, but answers from the buffer itself; a
// crate for the few lines that both have (this, an answer's buffer, `Shown`, blocks from numbers) would be no plainer.

ghost use Rattle.std.specs.Prelude.{◌≡◌, ◌≤◌, length, IfOk, OnErr};

use crate::requests::Request;
use std::io::{Read, Result};

// How many bytes are held at most.
const ROOM: usize = 65_536;

// More bytes than a line has: a letter, and sixteen times a space and ten digits; or words behind `#`.
const MOST_BYTES: usize = 1024;

// What is read of the input and not taken yet: the buffer's bytes from start up to end. No `BufReader`: a line is cut at `MOST_BYTES`.
#[derive(Drop)]
pub(crate) struct Requests<R> {
    reader: R,
    buffer: [u8; ROOM],
    start: usize,
    end: usize,
    ghost within: { (start ≤ end) × (end ≤ length buffer) },
}

impl<R: Read> Requests<R> {
    // The requests that a reader gives.
    pub(crate) fn new(reader: R) -> Requests<R> {
        Requests {
            reader,
            buffer: [0; ROOM],
            start: 0,
            end: 0,
        }
    }

    // Sees to it that the buffer has a whole line, if the input has one: where less than the longest is left, that moves to the
    // start, and the room behind it is filled from the input. The one error is that of a read.
    fn refill(&mut self) -> Result<()> {
        let left = self.end - self.start;
        if left < MOST_BYTES {
            self.buffer.copy_within(self.start..self.end, 0);
            self.start = 0;
            self.end = left;
            self.end += read_full(&mut self.reader, &mut self.buffer[left..])?;
        }
        Ok(())
    }
}

impl<R: Read + Drop> Iterator for Requests<R> {
    type Item = Result<Request>;

    // The request on the next line; none if the line is not ended.
    fn next(&mut self) -> Option<Result<Request>> {
        if let Err(error) = self.refill() {
            return Some(Err(error));
        }
        let unread = &self.buffer[self.start..self.end];
        let length = unread.iter().position(|byte| *byte == b'\n')?;
        let request = Request::read(&unread[..length]);
        self.start += length + 1;
        Some(Ok(request))
    }
}

// Reads until the buffer is full or the input ends, and gives how many bytes were read. The one error is that of a read; other bytes
// may stand in the buffer then.
fn read_full(reader: &mut impl Read, buffer: &mut [u8]) -> Result<usize>
    ensures ok { IfOk result (λ end. end ≤ length buffer.new) }
    ensures err { OnErr result (length buffer.new ≡ length buffer.old) }
{
    let mut end: usize = 0;
    while end < buffer.len() {
        let more = reader.read(&mut buffer[end..])?;
        if more == 0 {
            break;
        }
        end += more;
    }
    Ok(end)
}
