// Reading a policy. `read_policy` answers for every text: the directives in the order of their lines, each exception beside the
// nearest directive above it, or the first refusal by reason, line and field. Its contract says that the answer is what
// specs/PolicyTexts defines for the bytes. What was read is in form and zero past its counts (proofs/Formed).

#![tactic(auto)]

ghost use Rattle.std.specs.Prelude.{◌≡◌, ◌≤◌, ◌<◌};
ghost use Rattle.meaning.specs.Form.{most_directives, most_exceptions};
ghost use Rattle.policy_text.specs.Inner.{ask_added, but_added, line_said, nothing_read, none_said};
ghost use Rattle.policy_text.specs.PolicyTexts.{but_fields, ask_line, but_line, policy_line, read_policy};

use blocks::{Block, FIELDS};
use parts::TAB;
use records::{FieldRefusal, Record};
use sets::{
    Directive, Exception, MOST_DIRECTIVES, MOST_EXCEPTIONS, Policy, Reason, Refusal, ZERO_BLOCK,
};
use texts::LineByLine;

// The fields of a `but` line: its word, and those of a block.
const BUT_FIELDS: usize = 1 + FIELDS;

// What a line that is not skipped says: a directive, or an exception's block.
#[derive(Clone, Copy)]
enum PolicyLine {
    Ask(Directive),
    But(Block),
}

// The policy read so far, and the block of the nearest directive above.
#[derive(Clone, Copy)]
struct PolicyRead {
    policy: Policy,
    above: Block,
}

impl LineByLine for PolicyRead {
    ghost said = { line_said };

    ghost none = { nothing_read };

    ghost kept = { λ read. read.policy.directive_count ≤ most_directives };

    fn nothing() -> PolicyRead {
        PolicyRead {
            policy: Policy::empty(),
            above: ZERO_BLOCK,
        }
    }

    #[tactic(auto, using(crate::proofs::PolicyReading::ask_has_room, crate::proofs::PolicyReading::but_has_room))]
    fn read_line(&mut self, line: &[u8], number: u32) -> Result<(), Refusal> {
        let asked = self.policy.directive_count;
        let excepted = self.policy.exception_count;
        match policy_line(line, asked, excepted, self.above) {
            Ok(None) => {}
            Ok(Some(PolicyLine::Ask(directive))) => {
                add_directive(&mut self.policy, directive);
                self.above = directive.block;
            }
            Ok(Some(PolicyLine::But(block))) => add_exception(&mut self.policy, block),
            Err(refused) => return Err(refused.at_line(number)),
        }
        Ok(())
    }

    ghost says_nothing = { none_said };
}

// What a policy text means.
#[tactic(auto, using(crate::proofs::PolicyReading::policy_met))]
pub fn read_policy(text: &[u8]) -> Result<Policy, Refusal>
    ensures { result ≡ read_policy text.now }
{
    let mut read = PolicyRead::nothing();
    texts::read_text(text, &mut read)?;
    Ok(read.policy)
}

// What a line says, after so many directives and exceptions, under the nearest directive above: the three that `policy_line` of specs has.
#[tactic(auto, unfolding(crate::specs::PolicyTexts::policy_line))]
fn policy_line(
    line: &[u8],
    asked: usize,
    excepted: usize,
    above: Block,
) -> Result<Option<PolicyLine>, FieldRefusal>
    ensures { result ≡ policy_line asked excepted above line.now }
{
    if records::is_skipped(line) {
        return Ok(None);
    }
    if records::is_named(line, b"ask") {
        let directive = ask_line(line, asked)?;
        return Ok(Some(PolicyLine::Ask(directive)));
    }
    if records::is_named(line, b"but") {
        let block = but_line(line, asked, excepted, above)?;
        return Ok(Some(PolicyLine::But(block)));
    }
    Err(FieldRefusal {
        reason: Reason::UnknownWord,
        field: 1,
    })
}

// An `ask` line, after so many directives. What it has in common with a `rule` line is `read_record`; what is left is the limit and the type.
#[tactic(auto, unfolding(crate::specs::PolicyTexts::ask_line))]
fn ask_line(line: &[u8], asked: usize) -> Result<Directive, FieldRefusal>
    ensures { result ≡ ask_line asked line.now }
{
    let full = MOST_DIRECTIVES <= asked;
    let Record { action, block } = records::read_record(line, full)?;
    Ok(Directive { action, block })
}

// A `but` line, after so many directives and exceptions, under the nearest directive above.
#[tactic(auto, unfolding(crate::specs::PolicyTexts::but_line))]
fn but_line(line: &[u8], asked: usize, excepted: usize, above: Block) -> Result<Block, FieldRefusal>
    ensures { result ≡ but_line asked excepted above line.now }
{
    if parts::count(line, TAB) != BUT_FIELDS {
        return Err(FieldRefusal::of_line(Reason::FieldCount));
    }
    if asked == 0 {
        return Err(FieldRefusal::of_line(Reason::NoDirective));
    }
    if MOST_EXCEPTIONS <= excepted {
        return Err(FieldRefusal::of_line(Reason::Full));
    }
    but_fields(line, above)
}

// What its fields say, from the left, and then whether the block lies inside the directive's.
#[tactic(auto, unfolding(crate::specs::PolicyTexts::but_fields))]
fn but_fields(line: &[u8], above: Block) -> Result<Block, FieldRefusal>
    ensures { result ≡ but_fields above line.now }
{
    let block = records::read_block(line, 2)?;
    if !block.inside(above) {
        return Err(FieldRefusal::of_line(Reason::OutsideDirective));
    }
    Ok(block)
}

// One directive more in the set.
fn add_directive(policy: &mut Policy, directive: Directive)
    requires { policy.old.directive_count < most_directives }
    ensures { policy.new ≡ ask_added policy.old directive }
{
    policy.directives[policy.directive_count] = directive;
    policy.directive_count += 1;
}

// One exception more in the set, of its last directive.
fn add_exception(policy: &mut Policy, block: Block)
    requires { (policy.old.directive_count ≤ most_directives) × (policy.old.exception_count < most_exceptions) }
    ensures { policy.new ≡ but_added policy.old block }
{
    let directive = policy.directive_count as u32;
    policy.exceptions[policy.exception_count] = Exception { directive, block };
    policy.exception_count += 1;
}
