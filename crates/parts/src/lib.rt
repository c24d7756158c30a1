// The parts of a text between separators: what tabs, ends of lines, dots, slashes and minus signs part, by one law. A part is handed
// back as a part of the caller's slice, its address promised too, and the fields of a line are such parts. Every call answers for
// every text, separator and number; the contracts say that the answer is what specs/ defines for the bytes.

#![tactic(auto)]

ghost use Rattle.std.specs.Prelude.{◌≡◌, ◌==◌, ◌+◌, ◌≤◌, length, drop, position};
ghost use Rattle.parts.specs.Parts.{parts, part, piece, shown, same};
ghost use Rattle.contracts.specs.Answers.{seen};
ghost use Rattle.parts.specs.Fields.{field_piece};

// The byte between fields.
pub const TAB: u8 = b'\t';

// The place of the first separator, if there is one.
fn first(text: &[u8], separator: u8) -> Option<usize>
    ensures { result ≡ position (λ x. x == separator) text.now }
{
    text.iter().position(|byte| *byte == separator)
}

// Where the part that starts at a place ends: at the next separator, or with the text.
fn part_end(text: &[u8], separator: u8, start: usize) -> usize
    requires { start ≤ length text.now }
    ensures { (result ≤ length text.now) × (result ≡ start + length (part separator (drop start text.now) 0)) }
{
    match first(&text[start..], separator) {
        Some(length) => start + length,
        None => text.len(),
    }
}

// Part n, counted from 0, as a part of the text; where there are fewer, the empty part at the end. No `split(..).nth(n)`: of the parts
// of `split` std says which bytes they are, and not where in the text they stand.
pub fn part(text: &[u8], separator: u8, n: usize) -> &[u8]
    ensures { seen result ≡ shown text.entry (piece separator text.now n) }
{
    let mut start = 0;
    for _ in 0..n {
        let end = part_end(text, separator, start);
        if end == text.len() {
            return &text[end..end];
        }
        start = end + 1;
    }
    let end = part_end(text, separator, start);
    &text[start..end]
}

// Field n of a line, counted from 1, as a part of the line; one that the line lacks is the empty part at its end.
pub fn field(line: &[u8], n: usize) -> &[u8]
    ensures { seen result ≡ shown line.entry (field_piece line.now n) }
{
    let end = line.len();
    if n == 0 {
        return &line[end..end];
    }
    part(line, TAB, n - 1)
}

// How many parts there are.
pub fn count(text: &[u8], separator: u8) -> usize
    ensures { result ≡ length (parts separator text.now) }
{
    text.iter().filter(|byte| **byte == separator).count() + 1
}

// Whether both hold the same bytes: `==` as a call, whose contract says it by `same`, the word of the texts' definitions.
pub fn same(text: &[u8], other: &[u8]) -> bool
    ensures { result ≡ same text.now other.now }
{
    text == other
}
