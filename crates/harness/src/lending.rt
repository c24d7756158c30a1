// The numbers lent to the listing. They stand in an array whose numbers tell whether they were changed, with some behind them
// that the listing is not lent.

ghost use Rattle.std.specs.Prelude.{◌≤◌, length};

use sets::{Policy, Refusal, Rules};

// The most numbers that are lent.
pub(crate) const MOST_LENT: usize = 1000;

// How many numbers behind those lent are told too.
pub(crate) const BEHIND: usize = 10;

// The most numbers that are told.
pub(crate) const MOST_TOLD: usize = MOST_LENT + BEHIND;

// What the listing gave with the first numbers lent, so many of them. Before the call the number at each place i, counted from
// 0, is 4294967295 - i.
pub(crate) fn list(
    rules: Rules,
    policy: Policy,
    lent: usize,
    numbers: &mut [u32],
) -> Result<u64, Refusal>
    requires { lent ≤ length numbers.old }
{
    for (number, place) in numbers.iter_mut().zip(0..) {
        *number = u32::MAX.wrapping_sub(place);
    }
    faults::listing(rules, policy, &mut numbers[..lent])
}
