// Verdicts, and the properties on which they stand.
ghost use Rattle.std.specs.Prelude.{◌^◌, ◌+◌};
ghost use Rattle.uf_constraints.specs.Constants.{IndexesWithin};

use access_bounds::accept::Accepted;
use dep_extract::extract::relations;
use dep_simplify::verdict::Verdict;
use dep_simplify::verdicts::verdicts;
use index_props::certificate::{Cert, Step};
use index_props::instances::instances;
use index_props::small::are_bounds_small;
use loop_core::decl::PropDecl;
use loop_core::nest::Nest;
use props_once::once::without_repeats;
use sqlite_items::Items;
use std::alloc::Global;
use std::io;
use std::process::ExitCode;
use std::time::Instant;
use uf_constraints::small::are_diffs_small;
use uf_constraints::system::{Relation, Universe};
use uf_constraints::universe::universe;
use wave_base::types::Memory;

// How many verdicts of each kind there are.
#[derive(Drop)]
struct Tally {
    dropped: u32,
    covered: u32,
    kept: u32,
}

fn tallied(verdicts: &[Verdict]) -> Tally {
    let mut tally = Tally {
        dropped: 0,
        covered: 0,
        kept: 0,
    };
    for verdict in verdicts {
        count(verdict, &mut tally);
    }
    tally
}

fn count(verdict: &Verdict, into: &mut Tally) {
    match verdict {
        Verdict::Dropped(_) => into.dropped = into.dropped.wrapping_add(1),
        Verdict::Covered(_) => into.covered = into.covered.wrapping_add(1),
        Verdict::Kept => into.kept = into.kept.wrapping_add(1),
    }
}

fn show(rt: &HostRuntime, answer: Result<Items<Verdict>, Memory>) -> io::Result<()> {
    let Ok(verdicts) = answer else {
        return println!(rt; "memory");
    };
    let tally = tallied(verdicts.as_slice());
    println!(rt;
        "relations {} dropped {} covered {} kept {}",
        verdicts.len(),
        tally.dropped,
        tally.covered,
        tally.kept
    )
}

// The least number of nanoseconds that one of several turns takes.
fn least_time(rt: &HostRuntime, loop_in: &Accepted, turns: u32) -> io::Result<u128> {
    let mut least = u128::MAX;
    for _turn in 0..turns {
        let start = Instant::now(rt)?;
        let _ = verdicts(rt.alloc(), loop_in).is_ok();
        let taken = start.elapsed(rt)?.as_nanos();
        if taken < least {
            least = taken;
        }
    }
    Ok(least)
}

/// Counts the verdicts of a loop, and says the least time of so many turns.
pub fn bench_verdicts(rt: &HostRuntime, loop_in: &Accepted, turns: u32) -> io::Result<ExitCode> {
    show(rt, verdicts(rt.alloc(), loop_in))?;
    let least = least_time(rt, loop_in, turns)?;
    eprintln!(rt; "nanoseconds {least}")?;
    Ok(ExitCode::SUCCESS)
}

// How many instances the first so many properties have.
fn instance_count(
    alloc: Global,
    nest: &Nest,
    u: &Universe,
    props: &[PropDecl],
) -> Result<usize, Memory>
    requires { IndexesWithin (2 ^ 21 + 1) u.now.atoms }
{
    if !are_bounds_small(props) {
        return Ok(0);
    }
    Ok(instances(alloc, u, nest.decls.as_slice(), props)?.len())
}

// How many instances no property has, the first one has too, and so on: instances stand in the order of
// the properties.
fn instance_counts(
    alloc: Global,
    nest: &Nest,
    u: &Universe,
    props: &[PropDecl],
) -> Result<Vec<usize>, Memory>
    requires { IndexesWithin (2 ^ 21 + 1) u.now.atoms }
{
    let mut counts = Vec::new(alloc);
    for many in 0..props.len() {
        counts.push(instance_count(alloc, nest, u, &props[..many])?)?;
    }
    Ok(counts)
}

// The number, from 1, of the property of an instance; 0 is that of equal arguments.
fn property_of(counts: &[usize], instance: u64) -> usize {
    for (at, count) in counts.iter().enumerate() {
        if instance < *count as u64 {
            return at;
        }
    }
    counts.len()
}

fn names(cert: &Cert, counts: &[usize], property: usize) -> bool {
    for step in cert.steps.as_slice() {
        if is_of(step, counts, property) {
            return true;
        }
    }
    false
}

fn is_of(step: &Step, counts: &[usize], property: usize) -> bool {
    match step {
        Step::Rule(instance, _, _) => property_of(counts, *instance) == property,
        _ => false,
    }
}

// The counts of instances of a relation's system, and none where it is too large.
fn counts_of(
    alloc: Global,
    nest: &Nest,
    props: &[PropDecl],
    of: &Relation,
) -> Result<Vec<usize>, Memory> {
    if !are_diffs_small(of.base.as_slice()) {
        return Ok(Vec::new(alloc));
    }
    match universe(alloc, of.base.as_slice(), &[], props) {
        Ok(u) => instance_counts(alloc, nest, &u, props),
        Err(_) => Ok(Vec::new(alloc)),
    }
}

fn show_dropped(rt: &HostRuntime, at: usize, cert: &Cert, counts: &[usize]) -> io::Result<()> {
    print!(rt; "{}", at.saturating_add(1))?;
    for property in 1..counts.len().saturating_add(1) {
        if names(cert, counts, property) {
            print!(rt; " {property}")?;
        }
    }
    println!(rt)
}

// The relations and the properties without repeats.
fn listed(alloc: Global, nest: &Nest) -> Result<(Items<PropDecl>, Items<Relation>), Memory> {
    Ok((
        without_repeats(alloc, nest.props.as_slice())?,
        relations(alloc, nest)?,
    ))
}

fn show_verdict(
    rt: &HostRuntime,
    nest: &Nest,
    props: &[PropDecl],
    at: usize,
    of: &Relation,
    verdict: &Verdict,
) -> io::Result<()> {
    let Verdict::Dropped(cert) = verdict else {
        return Ok(());
    };
    match counts_of(rt.alloc(), nest, props, of) {
        Ok(counts) => show_dropped(rt, at, cert, counts.as_slice()),
        Err(_) => println!(rt; "memory"),
    }
}

fn show_why(rt: &HostRuntime, nest: &Nest, verdicts: &[Verdict]) -> io::Result<()> {
    let Ok((props, relations)) = listed(rt.alloc(), nest) else {
        return println!(rt; "memory");
    };
    for at in 0..relations.len() {
        if let Some(verdict) = verdicts.get(at) {
            show_verdict(
                rt,
                nest,
                props.as_slice(),
                at,
                &relations.as_slice()[at],
                verdict,
            )?;
        }
    }
    Ok(())
}

/// Prints for each dropped relation its number and those of the properties, without repeats, that its
/// certificate uses, all from 1.
pub fn why(rt: &HostRuntime, loop_in: &Accepted) -> io::Result<ExitCode> {
    match verdicts(rt.alloc(), loop_in) {
        Ok(verdicts) => show_why(rt, loop_in.nest(), verdicts.as_slice())?,
        Err(_) => println!(rt; "memory")?,
    }
    Ok(ExitCode::SUCCESS)
}
