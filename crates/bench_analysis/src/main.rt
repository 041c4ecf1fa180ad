//! Times the analysis of the loop in a file.
//!
//! The words are `accept` or `verdicts`, the file and how many turns: what acceptance says, or how many
//! relations there are of each verdict, goes to standard output, the least time of a turn to standard
//! error. `why`, the file and 0: for each dropped relation its number and those of the properties,
//! without repeats, that its certificate uses.
#![tactic(auto)]

ghost use Rattle.std.specs.Prelude.{IfSome};
ghost use Rattle.loop_core.specs.IsNest.{IsNest};

mod accepting;
mod judging;

use accepting::{accepted_copy, bench_accept};
use judging::{bench_verdicts, why};
use loop_core::nest::Nest;
use loop_laws::laws::what_is_read_is_a_nest;
use loop_syntax::read::read;
use std::alloc::Global;
use std::process::ExitCode;
use std::{env, io};
use wave_io::file_library::FileLibrary;
use wave_io::read_all::read_all;

// The nest that a text is, where it is one.
fn nest_of(alloc: Global, text: &[u8]) -> Option<Nest>
    ensures { IfSome result IsNest }
{
    if text.len() > 65_536 {
        return None;
    }
    what_is_read_is_a_nest();
    match read(alloc, text) {
        Ok(nest) => Some(nest),
        Err(_) => None,
    }
}

fn usage(rt: &HostRuntime) -> io::Result<ExitCode> {
    eprintln!(rt; "usage: bench_analysis accept|verdicts|why FILE TURNS")?;
    Ok(ExitCode::from(2))
}

fn bench(rt: &HostRuntime, mode: &str, nest: &Nest, turns: u32) -> io::Result<ExitCode>
    requires { IsNest nest.now }
{
    match mode {
        "accept" => bench_accept(rt, nest, turns),
        "verdicts" => bench_judged(rt, nest, turns),
        "why" => show_why(rt, nest),
        _ => usage(rt),
    }
}

fn bench_judged(rt: &HostRuntime, nest: &Nest, turns: u32) -> io::Result<ExitCode>
    requires { IsNest nest.now }
{
    match accepted_copy(rt.alloc(), nest) {
        Ok(loop_in) => bench_verdicts(rt, &loop_in, turns),
        Err(_) => bench_accept(rt, nest, 0),
    }
}

fn show_why(rt: &HostRuntime, nest: &Nest) -> io::Result<ExitCode>
    requires { IsNest nest.now }
{
    match accepted_copy(rt.alloc(), nest) {
        Ok(loop_in) => why(rt, &loop_in),
        Err(_) => bench_accept(rt, nest, 0),
    }
}

fn bench_file(rt: &HostRuntime, mode: &str, name: &str, turns: u32) -> io::Result<ExitCode> {
    let mut lib = FileLibrary::new(*rt);
    let Ok(text) = read_all(rt.alloc(), &mut lib, name, 65_536) else {
        return usage(rt);
    };
    match nest_of(rt.alloc(), text.as_slice()) {
        Some(nest) => bench(rt, mode, &nest, turns),
        None => usage(rt),
    }
}

fn main(rt: HostRuntime) -> io::Result<ExitCode> {
    let mut words = env::args(&rt)?;
    let (_, mode, name, turns) = (words.next(), words.next(), words.next(), words.next());
    let (Some(mode), Some(name), Some(turns)) = (mode, name, turns) else {
        return usage(&rt);
    };
    match turns.parse::<u32>() {
        Ok(turns) => bench_file(&rt, mode.as_str(), name.as_str(), turns),
        Err(_) => usage(&rt),
    }
}
