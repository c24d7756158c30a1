// An answer as it is made in a buffer, and where it is written.

ghost use Rattle.std.specs.Prelude.{◌≤◌, length};

use std::fmt;
use std::io::{Result, Write};

// More bytes than an answer has: a listing tells 1,010 numbers of at most ten digits, and four more.
const ROOM: usize = 16_384;

// The answer as far as it is made, the buffer's first bytes up to end; and where it is to be written.
#[derive(Drop)]
pub(crate) struct Output<W> {
    writer: W,
    buffer: [u8; ROOM],
    end: usize,
    ghost within: { end ≤ length buffer },
}

impl<W: Write> Output<W> {
    // No answer yet.
    pub(crate) fn new(writer: W) -> Output<W> {
        Output {
            writer,
            buffer: [0; ROOM],
            end: 0,
        }
    }

    // Writes the answer by one call, if there is one, and begins the next.
    pub(crate) fn send(&mut self) -> Result<()> {
        let end = self.end;
        if end == 0 {
            return Ok(());
        }
        self.end = 0;
        self.writer.write_all(&self.buffer[..end])
    }
}

impl<W> fmt::Write for Output<W> {
    // Adds a text; what the buffer has no room for is left out.
    fn write_str(&mut self, text: &str) -> fmt::Result {
        let start = self.end;
        let end = ROOM.min(start + text.len());
        self.buffer[start..end].copy_from_slice(&text.as_bytes()[..end - start]);
        self.end = end;
        Ok(())
    }
}
