// The check of a whole certificate.
ghost use Rattle.std.specs.Prelude.{◌≡◌, ◌++◌, [], ◌∷◌, List, IfOk, OnOk};
ghost use Rattle.std.specs.List.{Contains};
ghost use Rattle.loop_core.specs.declared.decl.Decl.{Decl};
ghost use Rattle.loop_core.specs.declared.decl.PropDecl.{PropDecl};
ghost use Rattle.index_props.specs.Certificate.{conclusion, outcome, last_of};
ghost use Rattle.index_props.specs.Derivable.{Derivable};
ghost use Rattle.index_props.specs.Rules.{instances_of};
ghost use Rattle.index_props.specs.Sound.{AllNameIndexes};
ghost use Rattle.cert_check.specs.Answer.{Answers, AllDerivable, IsTrueFor};

use crate::refusal::CertRefusal;
use crate::step::conclude;
use index_props::certificate::Cert;
use index_props::rule::RuleInst;
use sqlite_items::Items;
use std::alloc::Global;
use uf_constraints::system::{Diff, Universe};
use wave_base::types::Memory;

/// The last step's constraint, where each step is one. It follows from the base by the instances.
/// Where these are the instances of the universe, of declarations and of properties, it is true for
/// all arrays of the declared lengths that have the properties, and all values of the variables that
/// make the base true.
///
/// `BadStep` comes exactly at the first step that is none, counted from 0, and at 0 where there are
/// no steps. The work is that of the steps with the steps that they name, and for each step `Same`
/// that of a search among the universe's atoms.
pub fn check(
    alloc: Global,
    u: &Universe,
    base: &[Diff],
    rules: &[RuleInst],
    cert: &Cert,
) -> Result<Diff, CertRefusal>
    ensures answer { Answers result (outcome u.now.atoms base.now rules.now [] cert.now.steps) }
    ensures derivable { IfOk result
        (λ d. Derivable u.now.atoms base.now rules.now d.a d.b d.c) }
    ensures sound { IfOk result (λ d. (decls : List Decl) (props : List PropDecl) → AllNameIndexes decls props
        → rules.now ≡ instances_of decls props u.now.atoms → IsTrueFor decls props base.now d) }
{
    let mut done = Items::new(alloc);
    for step in cert.steps.as_slice() {
        match conclude(
            alloc,
            u.atoms.as_slice(),
            base,
            rules,
            done.as_slice(),
            step,
        )? {
            Some(diff) => keep(&mut done, diff)?,
            None => {
                return Err(CertRefusal::BadStep {
                    at: done.len() as u64,
                });
            }
        }
    }
    last(done)
}

fn keep(done: &mut Items<Diff>, diff: Diff) -> Result<(), Memory>
    ensures { OnOk result (done.new ≡ done.old ++ diff ∷ []) }
{
    done.push(diff)?;
    Ok(())
}

fn last(mut done: Items<Diff>) -> Result<Diff, CertRefusal>
    ensures answer { Answers result (last_of done) }
    ensures among { IfOk result (Contains done) }
{
    match done.pop() {
        Some(diff) => Ok(diff),
        None => Err(CertRefusal::BadStep { at: 0 }),
    }
}
