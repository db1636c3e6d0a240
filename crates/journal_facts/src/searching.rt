//! Binary searches.

ghost use Rattle.std.specs.Prelude.{◌≡◌, ◌≤◌, ◌↔◌, length, IfSome, IfNone, Contains, IsSorted};
ghost use Rattle.std.specs.List.Sorted.{IsPartitionPoint};
ghost use Rattle.std.specs.Ordering.{is_lt};
ghost use Rattle.journal_facts.specs.declared.fact.Fact.{Fact};
ghost use Rattle.journal_facts.specs.Facts.{fact_cmp};
ghost use Rattle.journal_facts.specs.Order.{IsBelow, IsUpTo};

use crate::fact::Fact;
use crate::facts::Facts;

/// Whether the fact comes before the key.
fn comes_before(fact: Fact, key: Fact) -> bool
    ensures { result ≡ is_lt (fact_cmp fact key) }
{
    fact.cmp(&key).is_lt()
}

/// How many of the facts come before the key.
fn count_before(facts: &Facts, key: Fact) -> usize
    ensures bound { result ≤ length facts.now }
    ensures point { IsPartitionPoint (λ f. IsBelow f key) (λ f. IsUpTo key f) facts.now result }
{
    let sorted = facts.as_slice();
    sorted.partition_point(|fact| comes_before(*fact, key))
}

/// The first of the facts that doesn't come before the key.
pub fn first_from(facts: &Facts, key: Fact) -> Option<Fact>
    ensures found { IfSome result (λ f. Contains facts.now f × IsUpTo key f) }
    ensures least { IfSome result (λ f. (g : Fact) → Contains facts.now g → IsUpTo key g → IsUpTo f g) }
    ensures none { IfNone result ((g : Fact) → Contains facts.now g → ¬ IsUpTo key g) }
{
    let sorted = facts.as_slice();
    let at = count_before(facts, key);
    if at < sorted.len() {
        Some(sorted[at])
    } else {
        None
    }
}

/// The last of the facts that comes before the key.
pub fn last_before(facts: &Facts, key: Fact) -> Option<Fact>
    ensures found { IfSome result (λ f. Contains facts.now f × IsBelow f key) }
    ensures greatest { IfSome result (λ f. (g : Fact) → Contains facts.now g → IsBelow g key → IsUpTo g f) }
    ensures none { IfNone result ((g : Fact) → Contains facts.now g → ¬ IsBelow g key) }
{
    let sorted = facts.as_slice();
    let count = count_before(facts, key);
    if count == 0 {
        None
    } else {
        Some(sorted[count - 1])
    }
}

/// The facts that don't come before the key, in their order.
pub fn all_from(facts: &Facts, key: Fact) -> &[Fact]
    ensures sorted { IsSorted fact_cmp result.now }
    ensures all { (f : Fact) → Contains result.now f ↔ (Contains facts.now f × IsUpTo key f) }
{
    let sorted = facts.as_slice();
    let count = count_before(facts, key);
    &sorted[count..]
}
