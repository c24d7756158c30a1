// The chart of a rule set and a policy: what a walk over their strips looks at. It has the bounds of all blocks put side by side, the front
// words written, and the chart of each field filled, one behind the other. The contract of `Charts::fill` says that its arrays are filled
// as `specs/Charted` says.

#![tactic(auto)]

ghost use Rattle.std.specs.Prelude.{◌≡◌, ◌<◌, length, get_or};
ghost use Rattle.meaning.specs.Fields.{fields};
ghost use Rattle.meaning.specs.Sizes.{field_count, all_bounds, all_masks, all_places};
ghost use Rattle.bounds.specs.SetBlocks.{Limited};
ghost use Rattle.charts.specs.Charted.{FieldsCharted, Charted};

use blocks::{BOUNDS, Block, FIELDS};
use bounds::BlockCounts;
use layout::{FIELD_MASKS, FIELD_PLACES, FIRST_MASK, NUMBERS};
use sets::{Policy, Rules};

// The chart of two sets: what is asked and done in each strip, how many strips each field has, and where they begin. Flat arrays of fixed
// length: no heap, and `Charted` says what stands where. No invariant: `EMPTY` is no chart yet, and a chart is filled in place.
#[derive(Drop)]
pub struct Charts {
    pub words: [u64; layout::WORDS],
    pub counts: [usize; FIELDS],
    pub places: [u64; layout::PLACES],
}

impl Charts {
    // Nothing is charted.
    pub const EMPTY: Charts = Charts {
        words: [0; layout::WORDS],
        counts: [0; FIELDS],
        places: [0; layout::PLACES],
    };

    // Fills the chart of the sets, in place: a chart that is handed back is copied.
    pub fn fill(&mut self, rules: Rules, policy: Policy)
        requires { Limited rules policy }
        ensures { Charted rules policy self.new.words self.new.counts self.new.places }
    {
        let mut numbers = [0; NUMBERS];
        bounds::put_blocks(rules, policy, &mut numbers);
        front::put_front(rules, policy, &mut self.words);
        let blocks = BlockCounts {
            rules: rules.count,
            directives: policy.directive_count,
            exceptions: policy.exception_count,
        };
        let masks = &mut self.words[FIRST_MASK..];
        chart_fields(blocks, &numbers, masks, &mut self.counts, &mut self.places);
    }
}

// Fills the charts of the fields, one after the other.
fn chart_fields(
    blocks: BlockCounts,
    numbers: &[u32],
    masks: &mut [u64],
    counts: &mut [usize],
    places: &mut [u64],
)
    requires numbers_len { length numbers.now ≡ all_bounds }
    requires masks_len { (length masks.old ≡ all_masks) × (length counts.old ≡ field_count) × (length places.old ≡ all_places) }
    ensures { FieldsCharted numbers.now blocks.rules blocks.directives blocks.exceptions 0 fields masks.new places.new counts.new }
{
    // By number: what is written through parts that an iterator lends, no contract could tell.
    for field in 0..FIELDS {
        let start = FIELD_MASKS * field;
        let first = FIELD_PLACES * field;
        counts[field] = strips::chart_field(
            field,
            size_of(field),
            blocks,
            numbers,
            &mut masks[start..start + FIELD_MASKS],
            &mut places[first..first + FIELD_PLACES],
        );
    }
}

// How many numbers a field has: those up to the widest block's high bound.
fn size_of(field: usize) -> u64
    requires { field < field_count }
    ensures { result ≡ get_or fields field 0 }
{
    let widest: [u32; BOUNDS] = Block::widest().into();
    u64::from(widest[2 * field + 1]) + 1
}
