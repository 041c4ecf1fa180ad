// Verdicts on relations with the base of an earlier one.
ghost use Rattle.std.specs.Prelude.{◌≡◌, ◌<◌, ◌+◌, length, true, IfOk, MatchOption};
ghost use Rattle.uf_constraints.specs.declared.system.Relation.{Relation};
ghost use Rattle.dep_simplify.specs.declared.verdict.Verdict.TheVariants.{Covered};
ghost use Rattle.dep_simplify.specs.Ready.{again_of, IsTwin};

use crate::verdict::Verdict;
use bound_ways::copy::copy_steps;
use index_props::certificate::Cert;
use loop_core::equal::same_atom;
use std::alloc::Global;
use uf_constraints::system::{Diff, Relation};
use wave_base::types::Memory;

/// The place of an earlier relation with the base of the one at a place, if there is one. It takes no
/// memory.
pub fn twin(relations: &[Relation], at: usize) -> Option<usize>
    requires { at < length relations.now }
    ensures { MatchOption result (Unit {0}) (IsTwin relations.now at) }
{
    for k in 0..at {
        if have_one_base(&relations[k], &relations[at]) {
            return Some(k);
        }
    }
    None
}

fn have_one_base(relation: &Relation, other: &Relation) -> bool
    ensures { result ≡ true → relation.now.base ≡ other.now.base }
{
    same_base(relation.base.as_slice(), other.base.as_slice())
}

fn same_base(base: &[Diff], other: &[Diff]) -> bool
    ensures { result ≡ true → base.now ≡ other.now }
{
    if base.len() != other.len() {
        return false;
    }
    for k in 0..base.len() {
        if !same_diff(&base[k], &other[k]) {
            return false;
        }
    }
    true
}

fn same_diff(diff: &Diff, other: &Diff) -> bool
    ensures { result ≡ true → diff.now ≡ other.now }
{
    diff.c == other.c && same_atom(&diff.a, &other.a) && same_atom(&diff.b, &other.b)
}

/// The verdict on a relation with the base of the one at place k: the same, but that a kept relation
/// covers the later one.
pub fn again(alloc: Global, verdict: &Verdict, k: usize) -> Result<Verdict, Memory>
    ensures { IfOk result (λ v. v ≡ again_of verdict.now k) }
{
    match verdict {
        Verdict::Dropped(cert) => {
            let steps = copy_steps(alloc, cert.steps.as_slice())?;
            Ok(Verdict::Dropped(Cert { steps }))
        }
        Verdict::Covered(number) => Ok(Verdict::Covered(*number)),
        Verdict::Kept => covered(k),
    }
}

/// The verdict that the relation at a place covers. A place past 4,294,967,294, which no nest has, is
/// answered as `Memory`.
pub fn covered(k: usize) -> Result<Verdict, Memory>
    ensures { IfOk result (λ v. v ≡ Covered (k + 1)) }
{
    if k >= 4_294_967_295 {
        return Err(Memory);
    }
    Ok(Verdict::Covered(k as u32 + 1))
}
