// Asking for a line again: given both texts, which one, and a record's number, the line as a part of the text named. Nothing is
// read: a record is any line whose first field is the word, well formed or not, in a text of any length. The contract says which part
// it is, its address too, for every text and number.

#![tactic(auto)]

ghost use Rattle.std.specs.Prelude.{◌≡◌, ◌<◌, length};
ghost use Rattle.contracts.specs.Answers.{seen};
ghost use Rattle.parts.specs.Parts.{shown};
ghost use Rattle.lookup.specs.Lookups.{record_of, word_of, text_of};

use lines::Cursor;

// Which of the two texts is meant.
#[derive(Clone, Copy, PartialEq, Eq)]
pub enum Which {
    Rules,
    Policy,
}

// The line of record n, counted from 1, of the text named; the empty part at its start if there is no such record.
pub fn record_line<'a>(rules: &'a [u8], policy: &'a [u8], which: Which, n: usize) -> &'a [u8]
    ensures { seen result ≡ shown (text_of which rules.entry policy.entry) (record_of (word_of which) (text_of which rules.entry policy.entry).now n) }
{
    match which {
        Which::Rules => find(rules, b"rule", n),
        Which::Policy => find(policy, b"ask", n),
    }
}

// The line of record n of a text, where a record's first field is the word. The loop goes from cursor to cursor, and no `split` is gone
// through: of its parts std says which bytes they are, and not where in the text they stand.
fn find<'a, 'b>(text: &'a [u8], word: &'b [u8], n: usize) -> &'a [u8]
    requires { 0 < length word.now }
    ensures { seen result ≡ shown text.entry (record_of word.now text.now n) }
{
    let mut left = n;
    let mut cursor = Cursor { at: 0, line: 1 };
    while cursor.at < text.len() {
        let line = lines::line_at(text, cursor);
        cursor = lines::behind(cursor, line.len());
        if records::is_named(line, word) {
            if left == 1 {
                return line;
            }
            left = left.saturating_sub(1);
        }
    }
    &text[..0]
}
