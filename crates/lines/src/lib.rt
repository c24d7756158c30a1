// Reading a text line by line. What reading carries along is the text, the next place and the number of the line there: first as
// a cursor beside the text, by value, then as a reader that holds the lent text itself. The methods of a reader take it apart
// and call plain functions; `line_at` and `after` make one of a cursor. A loop over lines finds a line by `line_at`, and by its
// length the place behind it, `behind`, so that no line is gone through twice to find its end. A line is handed back as a part of the
// caller's text, its address promised too. Every call answers for every place, number and length.

#![tactic(auto)]

ghost use Rattle.std.specs.Prelude.{◌≡◌};
ghost use Rattle.contracts.specs.Answers.{seen};
ghost use Rattle.parts.specs.Parts.{shown};
ghost use Rattle.lines.specs.Reader.{line_from, place_after, place_behind, cursor_after, cursor_behind, next_of};

// The byte that ends a line.
pub const NEWLINE: u8 = b'\n';

// Where reading stands in a text: the next place, and the number of the line there.
#[derive(Clone, Copy, PartialEq, Eq)]
pub struct Cursor {
    pub at: usize,
    pub line: u32,
}

// A reader: the lent text, the next place, and the number of the line there. It is a value, as the document has it, and no
// `Iterator`: past the text's end it still answers, with the empty line there.
#[derive(Clone, Copy, PartialEq, Eq)]
pub struct Lines<'a> {
    pub text: &'a [u8],
    pub at: usize,
    pub line: u32,
}

impl<'a> Lines<'a> {
    // The line at the reader, as a part of the text.
    pub fn current(self) -> &'a [u8]
        ensures { seen result ≡ shown self.entry.text (line_from self.entry.text.now self.entry.at) }
    {
        line_from(self.text, self.at)
    }

    // The reader behind its line.
    pub fn next(self) -> Lines<'a>
        ensures { result ≡ next_of self.entry }
    {
        Lines {
            at: place_after(self.text, self.at),
            line: self.line.saturating_add(1),
            ..self
        }
    }
}

// The line from a place on, as a part of the text and without its byte 10; past the end, the empty part there.
fn line_from(text: &[u8], at: usize) -> &[u8]
    ensures { seen result ≡ shown text.entry (line_from text.now at) }
{
    let start = at.min(text.len());
    parts::part(&text[start..], NEWLINE, 0)
}

// The place behind that line.
fn place_after(text: &[u8], at: usize) -> usize
    ensures { result ≡ place_after text.now at }
{
    at.min(text.len()) + line_from(text, at).len() + 1
}

// The place behind a line of this length, as far as a machine word holds it.
fn place_behind(at: usize, length: usize) -> usize
    ensures { result ≡ place_behind at length }
{
    at.saturating_add(length).saturating_add(1)
}

// The line at a cursor, as a part of the text.
pub fn line_at(text: &[u8], cursor: Cursor) -> &[u8]
    ensures { seen result ≡ shown text.entry (line_from text.now cursor.at) }
{
    let Cursor { at, line } = cursor;
    Lines { text, at, line }.current()
}

// The cursor behind the line at a cursor.
pub fn after(text: &[u8], cursor: Cursor) -> Cursor
    ensures { result ≡ cursor_after text.now cursor }
{
    let Cursor { at, line } = cursor;
    let Lines { at, line, .. } = Lines { text, at, line }.next();
    Cursor { at, line }
}

// The cursor behind a line of this length at a cursor.
pub fn behind(cursor: Cursor, length: usize) -> Cursor
    ensures { result ≡ cursor_behind cursor length }
{
    Cursor {
        at: place_behind(cursor.at, length),
        line: cursor.line.saturating_add(1),
    }
}
