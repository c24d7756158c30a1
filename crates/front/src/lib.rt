// The front words of a walk, which tell of actions: which rules and directives accept, and which exceptions belong to which directives.
// They are made from the records of a rule set and a policy, and no block is looked at. The contract of `put_front` says that the lent
// words begin with what `cells` calls `WordsOf` the sets.

#![tactic(auto)]

ghost use Rattle.std.specs.Prelude.{Bool, ◌≡◌, ◌≤◌, eqb, length, take};
ghost use Rattle.std.proofs.lemmas.List.Edits.{sets};
ghost use Rattle.meaning.specs.Form.{Exception, most_directives, most_exceptions};
ghost use Rattle.meaning.specs.Rules.{accept, same_action};
ghost use Rattle.meaning.specs.Sizes.{first_owner, front_words, mask_digits, all_words};
ghost use Rattle.sets.specs.Inner.{directives_of, exceptions_of};
ghost use Rattle.sets.specs.Vocabulary.{action_of};
ghost use Rattle.layout.specs.Masks.{mask};
ghost use Rattle.layout.specs.Passed.{Computes};
ghost use Rattle.cells.specs.Words.{WordsOf};
ghost use Rattle.bounds.specs.SetBlocks.{Limited, rules_of};
ghost use Rattle.front.specs.Inner.{owners_of, OwnersPut, TurningPut};

use sets::{Action, Policy, Rules};

// Writes the words that tell of actions: which rules and directives accept, and which exceptions belong to which directives. The words are a
// slice: an array as a type would ask more of callers.
pub fn put_front(rules: Rules, policy: Policy, words: &mut [u64])
    requires limited { Limited rules policy }
    requires words_len { length words.old ≡ all_words }
    ensures { WordsOf (rules_of rules) (directives_of policy) (exceptions_of policy) (take front_words words.new) }
{
    words[layout::ACCEPTING_RULES] = mask(&rules.records[..rules.count], |rule| {
        accepts(rule.action)
    });
    words[layout::ACCEPTING_DIRECTIVES] = mask(
        &policy.directives[..policy.directive_count],
        |directive| accepts(directive.action),
    );
    put_owners(policy, words);
    put_turning(policy, words);
}

// Which records pass the test: a binary digit for each, the first record's the lowest.
fn mask<T, F: Fn(&T) -> bool>(records: &[T], test: F) -> u64
    requires answers { F.IsAlwaysCallable test }
    requires few { length records.now ≤ mask_digits }
    ensures { (passes : T → Bool) → Computes F.Fn test passes → result ≡ mask passes records.now }
{
    records
        .iter()
        .rev()
        .fold(0, |mask, record| (mask << 1) | u64::from(test(record)))
}

// Whether an action is accept.
fn accepts(action: Action) -> bool
    ensures { result ≡ same_action accept (action_of action) }
{
    action == Action::Accept
}

// Writes the exceptions of each directive. By number: what is written through parts that an iterator lends, no contract could tell.
fn put_owners(policy: Policy, words: &mut [u64])
    requires { (policy.directive_count ≤ most_directives) × (policy.exception_count ≤ most_exceptions) × (length words.old ≡ all_words) }
    ensures { words.new ≡ sets words.old first_owner (owners_of policy) }
{
    for i in 0..policy.directive_count {
        words[layout::OF_EACH + i] = exceptions_of(policy, i + 1);
    }
}

// The exceptions of the directive with this number.
fn exceptions_of(policy: Policy, number: usize) -> u64
    requires { policy.exception_count ≤ most_exceptions }
    ensures { result ≡ mask (λ (e : Exception). eqb e.directive number) (exceptions_of policy) }
{
    mask(
        &policy.exceptions[..policy.exception_count],
        |exception| exception.directive as usize == number,
    )
}

// Writes the exceptions of the directives that accept, and of those that deny.
fn put_turning(policy: Policy, words: &mut [u64])
    requires { (policy.directive_count ≤ most_directives) × (length words.old ≡ all_words) × OwnersPut policy words.old }
    ensures { TurningPut policy words.old words.new }
{
    let mut accept: u64 = 0;
    let mut deny: u64 = 0;
    let directives = &policy.directives[..policy.directive_count];
    for (directive, own) in directives.iter().zip(&words[layout::OF_EACH..]) {
        if accepts(directive.action) {
            accept |= own;
        } else {
            deny |= own;
        }
    }
    words[layout::OF_ACCEPTING] = accept;
    words[layout::OF_DENYING] = deny;
}
