// Findings: the verdict and the fault listing of a rule table and a policy whose chart is filled. One chart serves both. Nothing here looks at
// form: it is asked only that the counts are within their limits. The contracts say that the answers are what `meaning` defines over all
// packets (specs/Found). `judge` and `lister` walk over the chart; no set is copied in a walk.

#![tactic(auto)]

ghost use Rattle.std.specs.Prelude.{◌≡◌, length, IfSome};
ghost use Rattle.meaning.specs.Sizes.{all_places};
ghost use Rattle.blocks.specs.Vocabulary.{packet_of};
ghost use Rattle.bounds.specs.SetBlocks.{Limited};
ghost use Rattle.charts.specs.Charted.{Charted};
ghost use Rattle.findings.specs.Found.{verdict_of, AtFault, VerdictFor, ListingTold};
ghost use Rattle.findings.specs.Inner.{IsVerdictAt, CornerPlaced, corner_at};

use blocks::{FIELDS, Packet};
use cells::{Chart, Left};
use charts::Charts;
use layout::FIELD_PLACES;
use sets::{Action, Label, Policy, Rules};
use std::array;

// A packet at fault: its label, the lowest directives that ask for accept and for deny there, and the packet.
#[derive(Clone, Copy)]
pub struct Finding {
    pub label: Label,
    pub accept_directive: Option<u32>,
    pub deny_directive: Option<u32>,
    pub packet: Packet,
}

// All rules, directives and exceptions.
const EVERYTHING: Left = Left {
    rules: u64::MAX,
    directives: u64::MAX,
    exceptions: u64::MAX,
};

// The verdict on the sets of the chart: by the first cell of the lowest rank, at its low corner. None if the table conforms.
pub fn verdict(rules: Rules, policy: Policy, charts: &Charts) -> Option<Finding>
    requires limited { Limited rules policy }
    requires charted { Charted rules policy charts.now.words charts.now.counts charts.now.places }
    ensures verdict { VerdictFor rules policy (verdict_of result) }
    ensures at_fault { IfSome result AtFault }
{
    let chart = Chart {
        words: &charts.words,
        counts: &charts.counts,
    };
    let best = judge::best_cell(EVERYTHING, &chart)?;
    Some(verdict_at(rules, policy, corner(best.strips, &charts.places)))
}

// How many blocks the listing of the sets of the chart has; the first that fit are written to the buffer from the front.
// The walks' chart is written out, here and in `verdict`: where a method of `Charts` lent it, the check of these two did not end.
pub fn listing(rules: Rules, policy: Policy, charts: &Charts, buffer: &mut [u32]) -> u64
    requires limited { Limited rules policy }
    requires charted { Charted rules policy charts.now.words charts.now.counts charts.now.places }
    ensures { ListingTold rules policy buffer.old buffer.new result }
{
    let chart = Chart {
        words: &charts.words,
        counts: &charts.counts,
    };
    lister::list_cells(EVERYTHING, &chart, &charts.places, buffer)
}

// The verdict's answer at a packet: its label, and the lowest directives asking there.
fn verdict_at(rules: Rules, policy: Policy, packet: Packet) -> Finding
    ensures { IsVerdictAt rules policy packet result }
{
    Finding {
        label: labels::label_of(rules, policy, packet),
        accept_directive: labels::lowest_asking(policy, Action::Accept, packet),
        deny_directive: labels::lowest_asking(policy, Action::Deny, packet),
        packet,
    }
}

// The low corner of a cell: in each field the place of its strip.
fn corner(strips: [usize; FIELDS], places: &[u64]) -> Packet
    requires places_len { length places.now ≡ all_places }
    requires corner_placed { CornerPlaced places.now strips }
    ensures { packet_of result ≡ corner_at places.now strips }
{
    Packet::from(array::from_fn(|field| places[FIELD_PLACES * field + strips[field]] as u32))
}
