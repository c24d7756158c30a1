// Layout: how long the engine's arrays are, and what stands where in them. Each number is made from the fields of a block and the
// limits of the sets, and stands once; `meaning`'s Sizes says of each what it follows from, and the proofs of the engine hold the two
// to one value. Beside it what a mask is (specs/Masks), and the one call that copies numbers from an array into another.

#![tactic(auto)]

ghost use Rattle.std.specs.Prelude.{◌≡◌, ◌+◌, ◌≤◌, length};
ghost use Rattle.std.proofs.lemmas.List.Edits.{sets};

use blocks::{BOUNDS, FIELDS};

// The numbers of a listed block: its kind, its rule and its bounds.
pub const ROW: usize = 2 + BOUNDS;

// The blocks of sets within their limits, and their bounds side by side.
pub const MOST_BLOCKS: usize = sets::MOST_RULES + sets::MOST_DIRECTIVES + sets::MOST_EXCEPTIONS;

pub const NUMBERS: usize = BOUNDS * MOST_BLOCKS;

// The most strips of a field: one from 0 on, and two more for each block.
pub const MOST_STRIPS: usize = 2 * MOST_BLOCKS + 1;

// The places of a field, where each strip begins and the size; and those of all fields.
pub const FIELD_PLACES: usize = MOST_STRIPS + 1;

pub const PLACES: usize = FIELD_PLACES * FIELDS;

// The binary digits of a mask.
const MASK_DIGITS: usize = u64::BITS as usize;

// The masks of a strip, of rules, directives and exceptions, and those of a field.
pub const MASK_KINDS: usize = 3;

pub const FIELD_MASKS: usize = MASK_KINDS * MOST_STRIPS;

// What stands where among the words of a walk, which are an array and no struct, since `WordsOf` tells it as a list: which rules accept;
// which directives ask for accept; the exceptions of these directives, and those of the others; from there on the exceptions of each
// directive, for as many as a mask has digits; and the masks, field after field.
pub const ACCEPTING_RULES: usize = 0;

pub const ACCEPTING_DIRECTIVES: usize = 1;

pub const OF_ACCEPTING: usize = 2;

pub const OF_DENYING: usize = 3;

pub const OF_EACH: usize = 4;

pub const FIRST_MASK: usize = OF_EACH + MASK_DIGITS;

pub const WORDS: usize = FIELD_MASKS * FIELDS + FIRST_MASK;

// Writes numbers into a buffer from a place on.
pub fn write_numbers(numbers: &[u32], at: usize, buffer: &mut [u32])
    requires { at + length numbers.now ≤ length buffer.old }
    ensures { buffer.new ≡ sets buffer.old at numbers.now }
{
    buffer[at..at + numbers.len()].copy_from_slice(numbers);
}
