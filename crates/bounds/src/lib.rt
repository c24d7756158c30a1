// The bounds of the blocks of a rule set and a policy, side by side in an array of numbers: those of the rules, of the directives and of
// the exceptions, two for each field of a block. Whatever looks at blocks field by field works on this array and knows no set. The
// contract of `put_blocks` says that the numbers stand in front of the lent array (specs/Spans), in the order of specs/SetBlocks.

#![tactic(auto)]

ghost use Rattle.std.specs.Prelude.{◌≡◌, ◌+◌, ◌*◌, ◌≤◌, length, map};
ghost use Rattle.std.proofs.lemmas.List.Edits.{sets};
ghost use Rattle.meaning.specs.Buffers.{bounds};
ghost use Rattle.meaning.specs.Form.{most_rules, most_directives, most_exceptions};
ghost use Rattle.meaning.specs.Sizes.{block_bounds, all_bounds};
ghost use Rattle.blocks.specs.Vocabulary.{block_of};
ghost use Rattle.layout.specs.Passed.{Computes};
ghost use Rattle.bounds.specs.Inner.{put_behind};
ghost use Rattle.bounds.specs.SetBlocks.{Limited, all_blocks, BlocksCounted};
ghost use Rattle.bounds.specs.Spans.{InFront};

use blocks::{BOUNDS, Block};
use sets::{Policy, Rules};

// How many blocks there are: those of the rules, of the directives and of the exceptions, each within its limit.
#[derive(Clone, Copy)]
pub struct BlockCounts {
    pub rules: usize,
    pub directives: usize,
    pub exceptions: usize,
    ghost few_rules: { rules ≤ most_rules },
    ghost few_directives: { directives ≤ most_directives },
    ghost few_exceptions: { exceptions ≤ most_exceptions },
}

impl BlockCounts {
    // All of them.
    pub fn all(self) -> usize
        ensures { result ≡ self.rules + self.directives + self.exceptions }
    {
        self.rules + self.directives + self.exceptions
    }
}

// Puts the bounds of all blocks side by side: those of the rules, of the directives and of the exceptions.
pub fn put_blocks(rules: Rules, policy: Policy, numbers: &mut [u32])
    requires limited { Limited rules policy }
    requires numbers_len { length numbers.old ≡ all_bounds }
    ensures blocks_counted { BlocksCounted rules policy }
    ensures in_front { InFront (all_blocks rules policy) numbers.new }
{
    put_records(&rules.records[..rules.count], |rule| rule.block, 0, numbers);
    put_records(
        &policy.directives[..policy.directive_count],
        |directive| directive.block,
        rules.count,
        numbers,
    );
    put_records(
        &policy.exceptions[..policy.exception_count],
        |exception| exception.block,
        rules.count + policy.directive_count,
        numbers,
    );
}

// Puts the bounds of the records' blocks behind so many blocks; `block` gives a record's block. By number: what is written through parts
// that an iterator lends, no contract could tell.
fn put_records<T, F: Fn(&T) -> Block>(records: &[T], block: F, before: usize, numbers: &mut [u32])
    requires gives_blocks { F.IsAlwaysCallable block }
    requires room { block_bounds * (before + length records.now) ≤ length numbers.old }
    ensures { (made : T → Block) → Computes F.Fn block made → numbers.new ≡ put_behind numbers.old before (map (λ (x : T). block_of (made x)) records.now) }
{
    for (i, record) in records.iter().enumerate() {
        put_block(block(record), before + i, numbers);
    }
}

// Puts the bounds of a block at its place among the blocks.
fn put_block(block: Block, at: usize, numbers: &mut [u32])
    requires { block_bounds * at + block_bounds ≤ length numbers.old }
    ensures { numbers.new ≡ sets numbers.old (block_bounds * at) (bounds (block_of block)) }
{
    let bounds: [u32; BOUNDS] = block.into();
    layout::write_numbers(&bounds, BOUNDS * at, numbers);
}
