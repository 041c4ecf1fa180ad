// Certificates of contradictions.
ghost use Rattle.std.specs.Prelude.{◌≡◌, IfOk, MatchOption};
ghost use Rattle.index_props.specs.Derivable.{IsContradictory};
ghost use Rattle.bound_close.specs.Closure.{IsClosure, ShowsContradiction};

use bound_close::closure::Closure;
use cert_check::check::check;
use cert_check::refusal::CertRefusal;
use cert_prune::prune::prune;
use index_props::certificate::Cert;
use index_props::rule::RuleInst;
use std::alloc::Global;
use uf_constraints::system::{Diff, Universe};
use wave_base::types::Memory;

/// A certificate of the contradiction in a base, which has passed the check, and `None` exactly where
/// there is no contradiction.
pub fn refuted(
    alloc: Global,
    u: &Universe,
    base: &[Diff],
    rules: &[RuleInst],
    closure: &Closure,
) -> Result<Option<Cert>, Memory>
    requires atoms { closure.now.atoms ≡ u.now.atoms }
    requires closure { IsClosure closure.now base.now rules.now }
    ensures { IfOk result (λ found. MatchOption found
        (IsContradictory u.now.atoms base.now rules.now → ⊥)
        (λ cert. IsContradictory u.now.atoms base.now rules.now
        × ShowsContradiction u.now.atoms base.now rules.now cert.steps)) }
{
    match closure.refutation(alloc)? {
        Some(long) => {
            let cert = prune(alloc, &long)?;
            confirm(alloc, u, base, rules, &cert)?;
            Ok(Some(cert))
        }
        None => Ok(None),
    }
}

// Hands a certificate to the check, which it passes.
fn confirm(
    alloc: Global,
    u: &Universe,
    base: &[Diff],
    rules: &[RuleInst],
    cert: &Cert,
) -> Result<(), Memory>
    requires { ShowsContradiction u.now.atoms base.now rules.now cert.now.steps }
{
    match check(alloc, u, base, rules, cert) {
        Ok(_) => Ok(()),
        Err(CertRefusal::Memory) => Err(Memory),
        Err(CertRefusal::BadStep { at: _ }) => unreachable!(),
    }
}
