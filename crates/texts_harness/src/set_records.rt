// The records of a set. A record is a number, that of its action or its directive, and its block's eight bounds.

ghost use Rattle.std.specs.Prelude.{◌≤◌, length};

use crate::shown::Shown;
use blocks::{BOUNDS, Block};
use sets::{Action, Directive, Exception, Rule};
use std::fmt;

// How many numbers a record has.
const NUMBERS: usize = 9;

// A record of one of the sets.
pub(crate) trait Record {
    // Its numbers.
    fn numbers(&self) -> [u32; NUMBERS];
}

impl Record for Rule {
    fn numbers(&self) -> [u32; NUMBERS] {
        numbers(action_number(self.action), self.block)
    }
}

impl Record for Directive {
    fn numbers(&self) -> [u32; NUMBERS] {
        numbers(action_number(self.action), self.block)
    }
}

impl Record for Exception {
    fn numbers(&self) -> [u32; NUMBERS] {
        numbers(self.directive, self.block)
    }
}

// The numbers of records, one behind the other.
impl<T: Record> fmt::Display for Shown<&[T]> {
    fn fmt<W: fmt::Write>(&self, f: &mut fmt::Formatter<W>) -> fmt::Result {
        for record in self.0 {
            write!(f, "{}", Shown(record.numbers()))?;
        }
        Ok(())
    }
}

// How many records are not all zeros.
pub(crate) fn filled<T: Record>(records: &[T]) -> usize
    ensures { result ≤ length records.now }
{
    records
        .iter()
        .filter(|record| record.numbers() != [0; NUMBERS])
        .count()
}

// A record's number, then its block's bounds.
fn numbers(number: u32, block: Block) -> [u32; NUMBERS] {
    let mut numbers = [number; NUMBERS];
    let bounds: [u32; BOUNDS] = block.into();
    numbers[1..].copy_from_slice(&bounds);
    numbers
}

// 0 for deny, 1 for accept. No `From`: both types are of other crates.
fn action_number(action: Action) -> u32 {
    match action {
        Action::Deny => 0,
        Action::Accept => 1,
    }
}
