// Claims with one system.
ghost use Rattle.std.specs.Prelude.{◌≡◌, ◌↔◌, IsTrue, length};
ghost use Rattle.access_bounds.specs.Shared.{HaveOneSystem, IsSeen};

use bracket_claims::claim::Claim;
use loop_core::equal::same_atom;
use uf_constraints::system::Diff;

/// Whether two claims have one system: the same base, and the same atom of their terms. It takes no
/// memory.
pub fn have_one_system(claim: &Claim, other: &Claim) -> bool
    ensures { IsTrue result ↔ HaveOneSystem claim.now other.now }
{
    same_atom(&claim.at.atom, &other.at.atom)
        && same_base(claim.base.as_slice(), other.base.as_slice())
}

fn same_base(base: &[Diff], other: &[Diff]) -> bool
    ensures { IsTrue result ↔ (base.now ≡ other.now) }
{
    if base.len() != other.len() {
        return false;
    }
    agree(base, other)
}

// Whether two lists of one length are equal.
fn agree(base: &[Diff], other: &[Diff]) -> bool
    requires { length base.now ≡ length other.now }
    ensures { IsTrue result ↔ (base.now ≡ other.now) }
{
    for (place, diff) in base.iter().enumerate() {
        if !same_diff(diff, &other[place]) {
            return false;
        }
    }
    true
}

fn same_diff(diff: &Diff, other: &Diff) -> bool
    ensures { IsTrue result ↔ (diff.now ≡ other.now) }
{
    diff.c == other.c && same_atom(&diff.a, &other.a) && same_atom(&diff.b, &other.b)
}

/// Whether one of some claims has the system of a claim. It takes no memory.
pub fn is_seen(seen: &[Claim], claim: &Claim) -> bool
    ensures { IsTrue result ↔ IsSeen seen.now claim.now }
{
    for earlier in seen {
        if have_one_system(earlier, claim) {
            return true;
        }
    }
    false
}
