// What the program prints for two files, whole: `report` is given what was read of each and makes the output in a lent buffer.
// Its contract says that the output is what document 01's "One whole run" says of the two files (specs/Runs), for every pair of
// files, and leaves one output only. So of the program just the calls to the system are left unproved.

#![tactic(auto)]

ghost use Rattle.std.specs.Prelude.{◌≡◌, ◌+◌, ◌*◌, ◌≤◌, min, length};
ghost use Rattle.meaning.specs.Sizes.{block_bounds, row_numbers};
ghost use Rattle.bounds.specs.SetBlocks.{Limited};
ghost use Rattle.charts.specs.Charted.{Charted};
ghost use Rattle.findings.specs.Found.{InForm};
ghost use Rattle.sets.specs.Vocabulary.{refusal_of};
ghost use Rattle.putting.specs.Putting.{PutOn};
ghost use Rattle.printing.specs.Lines.{refused_line};
ghost use Rattle.report.specs.Inner.{FilesPut, SetsPut, VerdictPut, ListingPut, bounds_at, row_line, row_lines};
ghost use Rattle.report.specs.Runs.{Reported, file_of, holding, most_block_lines};

use blocks::{BOUNDS, Block, Packet};
use charts::Charts;
use layout::ROW;
use putting::Output;
use sets::{Label, Policy, Refusal, Rules};

// "At most 512 block lines."
const MOST_BLOCK_LINES: usize = 512;

const ROWS: usize = MOST_BLOCK_LINES * ROW;

// What is to be read of a file: one byte more than a text may have is enough to refuse it as too long.
pub const MOST_READ: usize = texts::MOST_BYTES + 1;

// The room that no output exceeds.
pub const MOST_OUTPUT: usize = 262144;

// Puts the output for two files at the front of the buffer, and gives its length. A file is what was read of it; none if it could
// not be read.
pub fn report(rules: Option<&[u8]>, policy: Option<&[u8]>, output: &mut [u8]) -> usize
    ensures { Reported (file_of rules.entry) (file_of policy.entry) output.old output.new result }
{
    let mut output = Output {
        bytes: output,
        at: 0,
    };
    report_files(rules, policy, &mut output);
    output.at
}

// Puts the output for two files.
fn report_files(rules: Option<&[u8]>, policy: Option<&[u8]>, output: &mut Output)
    ensures { FilesPut (file_of rules.entry) (file_of policy.entry) output.old output.new }
{
    match (rules, policy) {
        (Some(rules), Some(policy)) => report_texts(rules, policy, output),
        (Some(_), None) => printing::put_unreadable(output, b"policy.txt"),
        (None, _) => printing::put_unreadable(output, b"rules.txt"),
    }
}

// The output for two texts.
fn report_texts(rules: &[u8], policy: &[u8], output: &mut Output)
    ensures { FilesPut (holding rules.now) (holding policy.now) output.old output.new }
{
    match rule_text::read_rules(rules) {
        Err(refusal) => put_refused(b"rules.txt", refusal, output),
        Ok(rules) => match policy_text::read_policy(policy) {
            Err(refusal) => put_refused(b"policy.txt", refusal, output),
            Ok(policy) => report_sets(rules, policy, output),
        },
    }
}

// The line of a file that is refused.
fn put_refused(name: &[u8], refusal: Refusal, output: &mut Output)
    ensures { PutOn output.old (refused_line name.now (refusal_of refusal)) output.new }
{
    let number = refusal.reason.number();
    printing::put_refused(output, name, number, refusal.line, refusal.field)
}

// The output for two sets: one chart serves the verdict and the listing.
fn report_sets(rules: Rules, policy: Policy, output: &mut Output)
    requires { InForm rules policy }
    ensures { SetsPut rules policy output.old output.new }
{
    let mut charts = Charts::EMPTY;
    charts.fill(rules, policy);
    put_verdict(rules, policy, &charts, output);
    put_listing(rules, policy, &charts, output);
}

// The verdict.
fn put_verdict(rules: Rules, policy: Policy, charts: &Charts, output: &mut Output)
    requires limited { Limited rules policy }
    requires charted { Charted rules policy charts.now.words charts.now.counts charts.now.places }
    ensures { VerdictPut rules policy output.old output.new }
{
    match findings::verdict(rules, policy, charts) {
        Some(found) => {
            let accept = found.accept_directive.unwrap_or(0);
            let deny = found.deny_directive.unwrap_or(0);
            printing::put_verdict(output, found.label, accept, deny, found.packet)
        }
        None => printing::put_verdict(output, Label::Good, 0, 0, Packet::LOWEST),
    }
}

// The total and the first blocks of the listing.
fn put_listing(rules: Rules, policy: Policy, charts: &Charts, output: &mut Output)
    requires limited { Limited rules policy }
    requires charted { Charted rules policy charts.now.words charts.now.counts charts.now.places }
    ensures { ListingPut rules policy output.old output.new }
{
    let mut rows = [0; ROWS];
    let total = findings::listing(rules, policy, charts, &mut rows);
    printing::put_total(output, total);
    put_rows(&rows, shown(total), output);
}

// How many blocks of a listing are printed.
fn shown(total: u64) -> usize
    ensures { result ≡ min total most_block_lines }
{
    total.min(MOST_BLOCK_LINES as u64) as usize
}

// The first rows as lines. By number: the theorem `bounds_copied` has the bounds of a row from a place on.
fn put_rows(rows: &[u32], count: usize, output: &mut Output)
    requires { row_numbers * count ≤ length rows.now }
    ensures { PutOn output.old (row_lines rows.now count) output.new }
{
    for i in 0..count {
        put_row(rows, ROW * i, output);
    }
}

// The row from a place on as a line.
fn put_row(rows: &[u32], from: usize, output: &mut Output)
    requires { from + row_numbers ≤ length rows.now }
    ensures { PutOn output.old (row_line rows.now from) output.new }
{
    let kind = rows[from];
    let rule = rows[from + 1];
    let block = Block::from(bounds_at(rows, from + 2));
    printing::put_block(output, kind, rule, block)
}

// The bounds of a block, from a place on.
fn bounds_at(rows: &[u32], from: usize) -> [u32; BOUNDS]
    requires { from + block_bounds ≤ length rows.now }
    ensures { result ≡ bounds_at rows.now from }
{
    let mut bounds = [0; BOUNDS];
    layout::write_numbers(&rows[from..from + BOUNDS], 0, &mut bounds);
    bounds
}
