// An answer as it is made in a buffer.

ghost use Rattle.std.specs.Prelude.{◌≤◌, length};

use std::fmt;

// The bytes of a buffer up to an end.
#[derive(Drop)]
pub(crate) struct Answer<'a> {
    buffer: &'a mut [u8],
    end: usize,
    ghost within: { end ≤ length buffer.now },
}

impl<'a> Answer<'a> {
    // No byte yet.
    pub(crate) fn new(buffer: &'a mut [u8]) -> Answer<'a> {
        Answer { buffer, end: 0 }
    }

    // The bytes that are there.
    pub(crate) fn bytes(&self) -> &[u8] {
        &self.buffer[..self.end]
    }

    // Takes them away.
    pub(crate) fn clear(&mut self) {
        self.end = 0;
    }

    // Adds bytes, as far as there is room.
    pub(crate) fn put_bytes(&mut self, bytes: &[u8]) {
        let count = bytes.len().min(self.buffer.len() - self.end);
        let end = self.end + count;
        self.buffer[self.end..end].copy_from_slice(&bytes[..count]);
        self.end = end;
    }
}

// Text is added likewise, so there is no error.
impl fmt::Write for Answer<'_> {
    fn write_str(&mut self, text: &str) -> fmt::Result {
        self.put_bytes(text.as_bytes());
        Ok(())
    }
}
