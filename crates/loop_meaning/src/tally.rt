// Counts that stop at the greatest number that counts.
ghost use Rattle.std.specs.Prelude.{◌≡◌, ◌+◌, ◌*◌, ◌≤◌, ℕ, true, List, length};
ghost use Rattle.loop_core.specs.Lists.{Lists};
ghost use Rattle.loop_core.specs.Binding.{Binding};
ghost use Rattle.loop_core.specs.Instances.{body_instances, item_instances, trips};
ghost use Rattle.loop_meaning.specs.Weights.{counted};

use loop_core::nest::Item;

/// One instance more.
pub fn add_one(before: u32) -> u32
    ensures { result ≡ counted (before + 1) }
{
    before.saturating_add(1)
}

/// As many instances more as a loop of `each` statements has, for the numbers from `lo` up to but not
/// including `hi`.
pub fn add_all(before: u32, lo: i128, hi: i128, each: usize) -> u32
    ensures { result ≡ counted (before + trips lo hi * each) }
{
    let all = (count_of_turns(lo, hi) as u64).saturating_mul(each as u64);
    let count = (before as u64).saturating_add(all);
    if count < u32::MAX as u64 {
        count as u32
    } else {
        u32::MAX
    }
}

fn count_of_turns(lo: i128, hi: i128) -> u32
    ensures { result ≡ counted (trips lo hi) }
{
    if hi <= lo {
        0
    } else if hi.saturating_sub(lo) < u32::MAX as i128 {
        (hi - lo) as u32
    } else {
        u32::MAX
    }
}

/// Whether all items are statements; each of them is then one instance.
pub fn are_statements(items: &[Item]) -> bool
    ensures { result ≡ true → (a : Lists) (env : List Binding) → length (body_instances a items.now env) ≡ length items.now }
{
    for item in items {
        if !is_statement(item) {
            return false;
        }
    }
    true
}

fn is_statement(item: &Item) -> bool
    ensures { result ≡ true → (a : Lists) (env : List Binding) → length (item_instances a item.now env) ≡ 1 }
{
    match item {
        Item::Set { .. } => true,
        Item::Keep { .. } => true,
        _ => false,
    }
}
