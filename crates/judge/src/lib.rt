// The verdict's cell: of all cells the first of those whose label has the lowest rank. It walks the cells in order, once for all
// fields, and looks for what is better than the best so far; it passes over a strip where nothing is left or the same as at the
// strip before, and stops at rank 0. It works on masks and strips by number and knows no address.

#![tactic(auto)]

ghost use Rattle.std.specs.Prelude.{◌∷◌, ◌≡◌, ℕ, ◌+◌, ◌≤◌, ◌<◌, length, drop};
ghost use Rattle.meaning.specs.Sizes.{field_count, good_rank};
ghost use Rattle.sets.specs.Vocabulary.{label_of};
ghost use Rattle.cells.specs.Cells.{chart_of, Formed, below};
ghost use Rattle.judge.specs.Ranks.{RankOf, cell_rank, BetterThan, BestOf};

use blocks::FIELDS;
use cells::{Chart, Left};
use sets::Label;

// The rank of an unmet label, behind every rule's number.
const UNMET: usize = sets::MOST_RULES + 1;

// The rank of a good label, which comes last.
pub const GOOD: usize = UNMET + 1;

// A cell: the rank of its label, and its strip in each field. A rank is a number, since `BetterThan` compares it as one.
#[derive(Clone, Copy)]
pub struct Best {
    pub rank: usize,
    pub strips: [usize; FIELDS],
}

impl Best {
    // The cell with this strip at a field.
    fn with_strip(mut self, field: usize, strip: usize) -> Best
        requires { field < field_count }
        ensures { (result.rank ≡ self.rank) × (drop field result.strips ≡ strip ∷ drop (field + 1) self.strips) }
    {
        self.strips[field] = strip;
        self
    }
}

// The best of all cells, where all of the sets are left; none, if every cell is good.
pub fn best_cell(left: Left, chart: &Chart) -> Option<Best>
    requires counts_len { length chart.now.counts.now ≡ field_count }
    requires formed { Formed (chart_of chart.now) }
    ensures { BestOf chart.now.counts.now (cell_rank (chart_of chart.now) 0 left) result }
{
    best_below(0, left, GOOD, chart)
}

// The best of the cells below a field, if it is better than the limit: its rank, and its strips from that field on.
fn best_below(field: usize, left: Left, limit: usize, chart: &Chart) -> Option<Best>
    requires field_le_field_count { (field ≤ field_count) × (length chart.now.counts.now ≡ field_count) × (limit ≤ good_rank) }
    requires formed { Formed (chart_of chart.now) }
    ensures { BetterThan (below (chart_of chart.now) field) (cell_rank (chart_of chart.now) field left) field limit result }
{
    if limit == 0 || left.is_nothing() {
        return None;
    }
    if field == FIELDS {
        let rank = rank_of(chart.label(left));
        return (rank < limit).then_some(Best {
            rank,
            strips: [0; FIELDS],
        });
    }
    let mut best = None;
    let mut limit = limit;
    // No strip yet: where nothing is left there is nothing to look for, so `NONE` passes over no strip that counts.
    let mut before = Left::NONE;
    for strip in 0..chart.counts[field] {
        let here = chart.left_at(field, strip, left);
        if here == before {
            continue;
        }
        before = here;
        if let Some(found) = best_below(field + 1, here, limit, chart) {
            limit = found.rank;
            best = Some(found.with_strip(field, strip));
        }
    }
    best
}

// The rank of a label: conflict comes first, then the rules in order, then what is unmet; good comes last.
#[tactic(auto, unfolding(meaning::proofs::VerdictRanks::rank_of, meaning::specs::Labels::kind, meaning::specs::Labels::rule))]
fn rank_of(label: Label) -> usize
    ensures { RankOf (label_of label) result }
{
    match label {
        Label::Conflict => 0,
        Label::Wrong(rule) | Label::Unasked(rule) => rule as usize,
        Label::UnmetAccept | Label::UnmetDeny => UNMET,
        Label::Good => GOOD,
    }
}
