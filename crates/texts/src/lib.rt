// Reading a text line by line, for every kind of line: what is asked of a text before its lines are read, that it is not too long and
// that its last line is ended, and then the lines, one after another. The definition stands in specs/Texts and its laws in
// proofs/Reading; the readers of the rule table and of the policy are two uses of it. The contracts say that the answers are what
// specs/ defines for the bytes, for every text.

#![tactic(auto)]

ghost use Rattle.std.specs.Prelude.{List, [], ℕ, ◌≡◌, ◌≤◌, length};
ghost use Rattle.texts.specs.Texts.{most_bytes, unended, refuse_text, lines_of, Said, goes, line_told, line_read, all_read, read_before, read_from, read_text};

use lines::{Cursor, NEWLINE};
use sets::{Reason, Refusal};

// The largest length of a text.
pub const MOST_BYTES: usize = 32768;

// What is read of a text, line by line.
pub trait LineByLine: Drop {
    // What a line says after what is read so far.
    ghost said: { Self → List ℕ → Said Self };

    // At first nothing.
    ghost none: { Self };

    // What is true of what is read, between two lines.
    ghost kept: { Self → Type 0 };

    // Nothing is read yet. No `Default`: `none` says which value it is.
    fn nothing() -> Self
        ensures none { result ≡ none }
        ensures kept { kept result };

    // One line more, which has this number.
    fn read_line(&mut self, line: &[u8], number: u32) -> Result<(), Refusal>
        requires { kept self.old }
        ensures told { result ≡ line_told number (said self.old line.now) }
        ensures read { self.new ≡ line_read self.old (said self.old line.now) }
        ensures kept { kept self.new };

    // An empty line says nothing.
    ghost says_nothing: { (s : Self) → said s [] ≡ goes s };
}

// Whether a text is not empty and its last byte does not end a line.
fn is_unended(text: &[u8]) -> bool
    ensures { result ≡ unended text.now }
{
    match text {
        [] => false,
        [.., last] => *last != NEWLINE,
    }
}

// What is refused of a text as a whole: that it is too long, or that its last line, told by its number, is not ended.
#[tactic(auto, using(parts::proofs::Parting::parts_few), unfolding(crate::specs::Texts::refuse_text))]
pub fn refuse_text(text: &[u8]) -> Result<(), Refusal>
    ensures { result ≡ refuse_text text.now }
{
    if MOST_BYTES < text.len() {
        return Err(Refusal {
            reason: Reason::TooLong,
            line: 0,
            field: 0,
        });
    }
    if is_unended(text) {
        let last = parts::count(text, NEWLINE) as u32;
        return Err(Refusal {
            reason: Reason::Unended,
            line: last,
            field: 0,
        });
    }
    Ok(())
}

// What a text means: what is read of its lines is in the lent place, whole or up to the first refusal. What stood there does not matter.
#[tactic(auto, using(crate::proofs::Reading::unrefused_fits))]
pub fn read_text<R: LineByLine>(text: &[u8], read: &mut R) -> Result<(), Refusal>
    ensures { (read.new, result) ≡ read_text R.said all_read read_before R.none text.now }
{
    *read = R::nothing();
    refuse_text(text)?;
    read_lines(text, read)
}

// The lines of a text, one after another, from cursor to cursor: the document says that reading carries text, next place and line number.
fn read_lines<R: LineByLine>(text: &[u8], read: &mut R) -> Result<(), Refusal>
    requires fits { length text.now ≤ most_bytes }
    requires nothing { read.old ≡ R.none }
    requires kept { R.kept read.old }
    ensures { (read.new, result) ≡ read_from R.said all_read read_before 1 R.none (lines_of text.now) }
{
    let mut cursor = Cursor { at: 0, line: 1 };
    while cursor.at < text.len() {
        let line = cursor.line;
        let found = lines::line_at(text, cursor);
        cursor = lines::behind(cursor, found.len());
        read.read_line(found, line)?;
    }
    Ok(())
}
