//! Lists the atoms and the rule instances of two systems of the unit forward substitution: of one
//! relation, and of the bounds of one bracket, whose upper bound it checks by a certificate. Of 240
//! systems that are made from a counter it prints how many atoms and instances there are, with a sum
//! over their text. With the words `time NUMBER` it prints the least time of so many listings of a
//! system of 90 atoms instead.
#![tactic(auto)]

mod text;
mod worked;

use crate::text::{atom_text, diff_text, rule_text};
use cert_check::check::check;
use cert_check::refusal::CertRefusal;
use loop_core::decl::PropKind;
use rule_samples::forward;
use rule_samples::listing::{Listing, list};
use rule_samples::made::make_system;
use rule_samples::many::many_entries;
use rule_samples::system::{PTR, System};
use std::alloc::{AllocError, Global};
use std::time::Instant;
use std::{env, io};
use wave_base::types::Memory;

fn show(rt: &HostRuntime, system: Result<System, Memory>) -> io::Result<()> {
    let Ok(system) = system else {
        return Ok(());
    };
    let Some(listing) = list(rt.alloc(), system) else {
        return Ok(());
    };
    for atom in listing.universe.atoms.as_slice() {
        println!(rt; "atom {}", atom_text(rt.alloc(), atom)?)?;
    }
    for rule in listing.rules.as_slice() {
        println!(rt; "{}", rule_text(rt.alloc(), rule)?)?;
    }
    Ok(())
}

/// Checks the certificate of the bracket's upper bound, or one of which a step names itself.
fn show_check(rt: &HostRuntime, names_itself: bool) -> io::Result<()> {
    let Ok(system) = forward::bracket(rt.alloc()) else {
        return Ok(());
    };
    let Some(listing) = list(rt.alloc(), system) else {
        return Ok(());
    };
    let Some(cert) = worked::certificate(rt.alloc(), names_itself) else {
        return Ok(());
    };
    match check(
        rt.alloc(),
        &listing.universe,
        listing.base.as_slice(),
        listing.rules.as_slice(),
        &cert,
    ) {
        Ok(diff) => println!(rt; "certificate {}", diff_text(rt.alloc(), &diff)?),
        Err(CertRefusal::BadStep { at }) => println!(rt; "bad step {at}"),
        Err(CertRefusal::Memory) => Ok(()),
    }
}

/// A sum over the bytes of a text, in which their order tells.
fn summed(sum: u32, text: &str) -> u32 {
    let mut sum = sum;
    for byte in text.as_bytes() {
        sum = sum.wrapping_mul(31).wrapping_add(u32::from(*byte));
    }
    sum
}

fn sum_of(alloc: Global, listing: &Listing) -> Result<u32, AllocError> {
    let mut sum = 0;
    for atom in listing.universe.atoms.as_slice() {
        sum = summed(sum, atom_text(alloc, atom)?.as_str());
    }
    for rule in listing.rules.as_slice() {
        sum = summed(sum, rule_text(alloc, rule)?.as_str());
    }
    Ok(sum)
}

fn show_made(rt: &HostRuntime, counter: u32) -> io::Result<()> {
    let Ok(system) = make_system(rt.alloc(), counter) else {
        return Ok(());
    };
    let Some(listing) = list(rt.alloc(), system) else {
        return Ok(());
    };
    println!(rt;
        "system {} atoms {} instances {} sum {}",
        counter,
        listing.universe.atoms.len(),
        listing.rules.len(),
        sum_of(rt.alloc(), &listing)?
    )
}

/// 90 atoms: 86 entries of one array, which is strictly rising and injective, with 7,396 instances of
/// equal arguments, 29,584 of the order and 7,396 of equal entries.
fn large_system(alloc: Global) -> Result<System, Memory> {
    let mut system = many_entries(alloc, 86)?;
    system.push_prop(2, PropKind::Strict(PTR))?;
    system.push_prop(3, PropKind::Injective(PTR))?;
    Ok(system)
}

/// How many atoms and instances there are, and the least number of nanoseconds of several turns.
fn time(rt: &HostRuntime, turns: u32) -> io::Result<()> {
    let mut least = u128::MAX;
    for turn in 0..turns {
        let Ok(system) = large_system(rt.alloc()) else {
            return Ok(());
        };
        let start = Instant::now(rt)?;
        let Some(listing) = list(rt.alloc(), system) else {
            return Ok(());
        };
        least = least.min(start.elapsed(rt)?.as_nanos());
        if turn == 0 {
            println!(rt;
                "atoms {} instances {}",
                listing.universe.atoms.len(),
                listing.rules.len()
            )?;
        }
    }
    println!(rt; "microseconds {}", least / 1000)
}

fn turns(words: &[String]) -> Option<u32> {
    if words.first()?.as_str() != "time" {
        return None;
    }
    words.get(1)?.as_str().parse::<u32>().ok()
}

fn show_all(rt: &HostRuntime) -> io::Result<()> {
    println!(rt; "relation 10:1 12:2")?;
    show(rt, forward::relation(rt.alloc(), true))?;
    println!(rt; "bracket 12:4")?;
    show(rt, forward::bracket(rt.alloc()))?;
    show_check(rt, false)?;
    show_check(rt, true)?;
    for counter in 0..240 {
        show_made(rt, counter)?;
    }
    Ok(())
}

fn main(rt: HostRuntime) -> io::Result<()> {
    let words: Vec<String> = env::args(&rt)?.skip(1).collect(rt.alloc())?;
    match turns(words.as_slice()) {
        Some(turns) => time(&rt, turns),
        None => show_all(&rt),
    }
}
