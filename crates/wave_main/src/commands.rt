// The commands: how they are read from words, and their texts.
ghost use Rattle.std.specs.Prelude.{◌≡◌, ◌<◌, ◌≤◌, ◌^◌, ℕ, List, length, IfErr, IfOk};
ghost use Rattle.wave_words.specs.Words.{texts};
ghost use Rattle.wave_main.specs.Commands.{form_of, HasPlaces, IsCommand, IsOthers, RefusesWords};
ghost use Rattle.wave_main.specs.Making.{IsMade, IsMissed};

use crate::check::make_check;
use crate::demo::{Kind, make_demo};
use crate::explain::make_explain;
use crate::plan::make_plan;
use crate::replay::make_replay;
use crate::run::make_run;
use crate::show::make_show;
use crate::status::Status;
use std::sync::Wait;
use std::thread::Threads;
use wave_io::gate::Gate;
use wave_io::library::Library;
use wave_words::form::Form;
use wave_words::usage::usage;

/// A command that waits for nobody. `first` is the place of the first vector among its words; 1 and 2 are the
/// places of the loop and of the matrix.
#[derive(Clone, Copy, Debug, PartialEq, Eq)]
pub enum Quiet {
    Plan { first: u32 },
    Replay { first: u32 },
    Check { first: u32 },
    Explain,
    Show,
}

/// A command: a run or a demo, whose workers wait for each other, or one that waits for nobody.
#[derive(Clone, Copy, Debug, PartialEq, Eq)]
pub enum Command {
    Run { first: u32 },
    Demo(Kind),
    Quiet(Quiet),
}

/// The command of a form, with the places of its words.
fn command_of(form: Form) -> Command
    ensures form { form_of result ≡ form }
    ensures places { HasPlaces result }
{
    match form {
        Form::Run => Command::Run { first: 4 },
        Form::DemoGrid => Command::Demo(Kind::Grid),
        Form::DemoLower => Command::Demo(Kind::Lower),
        Form::Plan => Command::Quiet(Quiet::Plan { first: 4 }),
        Form::Replay => Command::Quiet(Quiet::Replay { first: 4 }),
        Form::Check => Command::Quiet(Quiet::Check { first: 3 }),
        Form::Explain => Command::Quiet(Quiet::Explain),
        Form::Show => Command::Quiet(Quiet::Show),
    }
}

/// The command that the words are, with the places of its words; of other words the refusal.
pub fn built_command(words: &[String]) -> Result<Command, Status>
    requires { length words.now < 2 ^ 32 }
    ensures built { IfOk result (IsCommand (texts words.now)) }
    ensures refused { IfErr result (RefusesWords (texts words.now)) }
{
    let forms = [
        Form::Run,
        Form::DemoGrid,
        Form::DemoLower,
        Form::Plan,
        Form::Replay,
        Form::Check,
        Form::Explain,
        Form::Show,
    ];
    match usage(&forms, words) {
        Ok(form) => Ok(command_of(form)),
        Err(word) => Err(Status::Usage { word }),
    }
}

/// The command that words are which don't begin with `run` or `demo`; of other such words the refusal.
pub fn quiet_command(words: &[String]) -> Result<Quiet, Status>
    requires few { length words.now < 2 ^ 32 }
    requires quiet { ¬ IsOthers (texts words.now) }
    ensures built { IfOk result (λ quiet. IsCommand (texts words.now) (Command.Quiet quiet)) }
    ensures refused { IfErr result (RefusesWords (texts words.now)) }
{
    let command = built_command(words)?;
    match command {
        Command::Quiet(quiet) => Ok(quiet),
        Command::Run { .. } => unreachable!(),
        Command::Demo(_) => unreachable!(),
    }
}

/// The whole text that a command prints, or why it prints none. A run or a demo passes the gate before each task.
pub fn make_text<R: AllocGlobal + Threads + Wait + Sync, L: Library, G: Gate + Sync>(
    rt: &R,
    lib: &mut L,
    words: &[String],
    command: Command,
    gate: &G,
) -> Result<Vec<u8>, Status>
    requires command { IsCommand (texts words.now) command }
    requires few { length words.now < 2 ^ 32 }
    ensures made { IfOk result (λ text. IsMade (L.held lib.old) (texts words.now) text.items) }
    ensures missed { IfErr result (IsMissed (L.held lib.old) (texts words.now) (L.faults lib.old) (L.faults lib.new)) }
    ensures never_fall { (other : List ℕ) → L.faults lib.old other ≤ L.faults lib.new other }
    ensures stays { (other : List ℕ) → L.held lib.new other ≡ L.held lib.old other }
{
    match command {
        Command::Run { first } => make_run(rt, lib, words, first, gate),
        Command::Demo(kind) => make_demo(rt, words, kind, gate),
        Command::Quiet(quiet) => make_quiet(rt, lib, words, quiet),
    }
}

/// The whole text that a command which waits for nobody prints, or why it prints none.
pub fn make_quiet<R: AllocGlobal + Threads + Sync, L: Library>(
    rt: &R,
    lib: &mut L,
    words: &[String],
    command: Quiet,
) -> Result<Vec<u8>, Status>
    requires command { IsCommand (texts words.now) (Command.Quiet command) }
    requires few { length words.now < 2 ^ 32 }
    ensures made { IfOk result (λ text. IsMade (L.held lib.old) (texts words.now) text.items) }
    ensures missed { IfErr result (IsMissed (L.held lib.old) (texts words.now) (L.faults lib.old) (L.faults lib.new)) }
    ensures never_fall { (other : List ℕ) → L.faults lib.old other ≤ L.faults lib.new other }
    ensures stays { (other : List ℕ) → L.held lib.new other ≡ L.held lib.old other }
{
    match command {
        Quiet::Plan { first } => make_plan(rt, lib, words, first),
        Quiet::Replay { first } => make_replay(rt, lib, words, first),
        Quiet::Check { first } => make_check(rt.alloc(), lib, words, first),
        Quiet::Explain => make_explain(rt.alloc(), lib, words),
        Quiet::Show => make_show(rt.alloc(), lib, words),
    }
}
