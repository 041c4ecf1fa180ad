//! `wave` runs sparse loops over the arrays of a matrix file. All that it does is the top call of
//! `wave_main`, over the real files and streams.
#![tactic(auto)]

ghost use Rattle.std.specs.Prelude.{◌<◌, ◌^◌, length, IfSome};

use std::process::ExitCode;
use std::{env, io};
use wave_io::file_library::FileLibrary;
use wave_io::gate::Free;
use wave_io::std_sink::StdSink;
use wave_main::top::wave_main;

fn all_words(rt: &HostRuntime) -> io::Result<Vec<String>> {
    let words = env::args(rt)?.skip(1).collect(rt.alloc())?;
    Ok(words)
}

/// The words after the program's name, where they can be had and are fewer than 2^32.
fn words(rt: &HostRuntime) -> Option<Vec<String>>
    ensures { IfSome result (λ words. length words.items < 2 ^ 32) }
{
    match all_words(rt) {
        Ok(words) if words.len() < 4294967296 => Some(words),
        _ => None,
    }
}

fn main(rt: HostRuntime) -> ExitCode {
    let Some(words) = words(&rt) else {
        return ExitCode::FAILURE;
    };
    let mut lib = FileLibrary::new(rt);
    let mut out = StdSink::new(rt.stdout());
    let mut err = StdSink::new(rt.stderr());
    let status = wave_main(&rt, words.as_slice(), &mut lib, &mut out, &mut err, &Free);
    ExitCode::from(status.code())
}
