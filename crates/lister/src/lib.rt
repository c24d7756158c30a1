// The fault listing over cells: it walks the strips of each field in order, once for all fields, gathers the runs of strips that
// are alike, and lists inside each run. A block is written as a row of numbers while the lent buffer has room, and counted in
// any case. Nothing is listed where nothing is left. It works on masks and strips by number; the places of the strips give a row
// its bounds.

#![tactic(auto)]

ghost use Rattle.std.specs.Prelude.{List, [], ◌∷◌, ◌++◌, map, ◌≡◌, ℕ, ◌+◌, ◌-◌, ◌*◌, ◌^◌, ◌≤◌, ◌<◌, length, get_or};
ghost use Rattle.meaning.specs.Sizes.{field_count, field_places};
ghost use Rattle.blocks.specs.Vocabulary.{span_of};
ghost use Rattle.sets.specs.Vocabulary.{label_of};
ghost use Rattle.cells.specs.Cells.{chart_of, Formed};
ghost use Rattle.lister.specs.Rows.{bounds, RowLabelled, RowWith, span_at, row_of, row_at, rows_from};
ghost use Rattle.lister.specs.Runs.{RunEnd, Placed, blocks_below};

use blocks::{FIELDS, Span};
use cells::{Chart, Left};
use layout::{FIELD_PLACES, ROW};
use sets::Label;

// The rows listed so far: how many, and the buffer that has the first of them. A number beside the buffer: it goes on past the buffer's end.
#[derive(Drop)]
struct Rows<'a> {
    total: u64,
    buffer: &'a mut [u32],
}

// How many blocks the listing has where all of the sets are left; the first of them are written. The places stand beside the chart: only
// rows need them.
pub fn list_cells(left: Left, chart: &Chart, places: &[u64], buffer: &mut [u32]) -> u64
    requires counts_len { length chart.now.counts.now ≡ field_count }
    requires formed { Formed (chart_of chart.now) }
    requires placed { Placed chart.now.counts.now places.now }
    ensures value { result ≡ length (blocks_below (chart_of chart.now) 0 left) }
    ensures buffer_after { buffer.new ≡ rows_from buffer.old 0 (map (row_of places.now 0 []) (blocks_below (chart_of chart.now) 0 left)) }
{
    let mut rows = Rows { total: 0, buffer };
    list_below(0, left, [0; ROW], chart, places, &mut rows);
    rows.total
}

// Lists below a field what is left: each block as a row with the bounds of the fields before, behind the rows so far. A row is an array:
// its numbers stand as the lent buffer takes them (`row_of`).
fn list_below(
    field: usize,
    left: Left,
    row: [u32; ROW],
    chart: &Chart,
    places: &[u64],
    rows: &mut Rows,
)
    requires field_le_field_count { (field ≤ field_count) × (length chart.now.counts.now ≡ field_count) }
    requires formed { Formed (chart_of chart.now) }
    requires placed { Placed chart.now.counts.now places.now }
    requires left_bound { rows.old.total + length (blocks_below (chart_of chart.now) field left) < 2 ^ 64 }
    ensures same_buffer { rows.new.buffer.ghost_name ≡ rows.old.buffer.ghost_name }
    ensures total { rows.new.total ≡ rows.old.total + length (blocks_below (chart_of chart.now) field left) }
    ensures buffer_after { rows.new.buffer.now
        ≡ rows_from rows.old.buffer.now rows.old.total (map (row_of places.now field (bounds field row)) (blocks_below (chart_of chart.now) field left)) }
{
    if left.is_nothing() {
        return;
    }
    if field == FIELDS {
        let label = chart.label(left);
        if label != Label::Good {
            write_row(labelled_row(row, label), rows.total, rows.buffer);
            rows.total += 1;
        }
        return;
    }
    // Each step is a run, of one strip or more.
    let mut strip = 0;
    while strip < chart.counts[field] {
        let here = chart.left_at(field, strip, left);
        let next = run_end(field, strip, left, chart);
        let inner = row_with(row, field, span_of(field, strip, next, places));
        list_below(field + 1, here, inner, chart, places, rows);
        strip = next;
    }
}

// Where the run of strips of the field that begins at this strip has just ended.
fn run_end(field: usize, strip: usize, left: Left, chart: &Chart) -> usize
    requires field_in_bounds { field < length chart.now.counts.now }
    requires strip_in_bounds { strip < get_or chart.now.counts.now field 0 }
    requires formed { Formed (chart_of chart.now) }
    ensures { RunEnd (chart_of chart.now) field left (get_or chart.now.counts.now field 0) strip result }
{
    let end = chart.counts[field];
    let mut before = chart.left_at(field, strip, left);
    for next in strip + 1..end {
        let here = chart.left_at(field, next, left);
        if !chart.alike(field + 1, before, here) {
            return next;
        }
        before = here;
    }
    end
}

// The numbers of a field from where a strip begins to where the strip before `next` has ended.
fn span_of(field: usize, strip: usize, next: usize, places: &[u64]) -> Span
    requires next_in_bounds { (field_places * field + next < length places.now) × (strip < next) }
    requires begins { get_or places.now (field_places * field + strip) 0 < 2 ^ 32 }
    requires ends_above { 0 < get_or places.now (field_places * field + next) 0 }
    requires ends { get_or places.now (field_places * field + next) 0 ≤ 2 ^ 32 }
    ensures { span_of result ≡ span_at places.now field strip (next - 1) }
{
    let low = places[FIELD_PLACES * field + strip] as u32;
    let high = (places[FIELD_PLACES * field + next] - 1) as u32;
    Span { low, high }
}

// The row with the bounds of a field.
fn row_with(mut row: [u32; ROW], field: usize, span: Span) -> [u32; ROW]
    requires { field < field_count }
    ensures { RowWith row field (span_of span) result }
{
    row[2 + 2 * field] = span.low;
    row[3 + 2 * field] = span.high;
    row
}

// The row with the kind and rule of a label.
#[tactic(auto, using(crate::proofs::RowLaws::labelled_row_is))]
fn labelled_row(mut row: [u32; ROW], label: Label) -> [u32; ROW]
    ensures { RowLabelled row (label_of label) result }
{
    row[0] = label.kind();
    row[1] = label.rule();
    row
}

// Writes a row as row number `total`, counted from 0, if the buffer has room for the whole of it.
#[tactic(auto, using(crate::proofs::RowLaws::row_put, crate::proofs::RowLaws::row_left_out))]
fn write_row(row: [u32; ROW], total: u64, buffer: &mut [u32])
    ensures { buffer.new ≡ row_at buffer.old total row }
{
    let room = buffer.len() / ROW;
    if total < room as u64 {
        let at = ROW * total as usize;
        buffer[at..at + ROW].copy_from_slice(&row);
    }
}
