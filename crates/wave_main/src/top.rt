// The top calls.
ghost use Rattle.std.specs.Prelude.{◌<◌, ◌≤◌, ◌^◌, ◌≡◌, ◌↔◌, ℕ, List, length, IsTrue, OnOk, IfErr};
ghost use Rattle.wave_io.specs.Faults.{Rose};
ghost use Rattle.wave_io.specs.Written.{grown, TookPart};
ghost use Rattle.wave_words.specs.Words.{texts};
ghost use Rattle.wave_main.specs.Answers.{AreFilesOf, SaysWhy, status_of};
ghost use Rattle.wave_main.specs.Calls.{changed, HasAnswered, HasEnded};
ghost use Rattle.wave_main.specs.Commands.{AreRefused, Begins, IsOthers};
ghost use Rattle.wave_main.specs.Headline.{GoesOn, IsRunOf, KeepsOrder};
ghost use Rattle.wave_main.specs.Sound.{Work};

use crate::commands::{built_command, make_quiet, make_text, quiet_command};
use crate::laws::{sound_works_go_on, sound_works_keep_order};
use crate::report::report;
use crate::status::Status;
use crate::words::word_at;
use std::sync::Wait;
use std::thread::Threads;
use wave_io::gate::Gate;
use wave_io::library::Library;
use wave_io::put_all::put_all;
use wave_io::sink::Sink;

/// Puts a text whole.
fn put_text<O: Sink>(out: &mut O, text: &[u8]) -> Result<(), Status>
    ensures whole { OnOk result (O.written out.new ≡ grown (O.written out.old) text.now) }
    ensures part { IfErr result (λ status. (status ≡ Status.WriteFault) × Rose (O.faults out.old) (O.faults out.new) × TookPart (O.written out.old) (O.written out.new) text.now) }
    ensures never_falls { O.faults out.old ≤ O.faults out.new }
{
    match put_all(out, text) {
        Ok(()) => Ok(()),
        Err(_) => Err(Status::WriteFault),
    }
}

/// Does what the words ask for, or says why not. A run or a demo passes the gate before each task.
fn try_command<R: AllocGlobal + Threads + Wait + Sync, L: Library, O: Sink, G: Gate + Sync>(
    rt: &R,
    words: &[String],
    lib: &mut L,
    out: &mut O,
    gate: &G,
) -> Result<(), Status>
    requires few { length words.now < 2 ^ 32 }
    ensures ended { HasEnded (L.held lib.old) (texts words.now) (changed (L.faults lib.old) (L.faults lib.new) (O.written out.old) (O.written out.new) (O.faults out.old) (O.faults out.new)) (status_of result) }
    ensures untouched { AreRefused (texts words.now) → (lib.new ≡ lib.old) × (out.new ≡ out.old) }
    ensures stays { (name : List ℕ) → L.held lib.new name ≡ L.held lib.old name }
    ensures never_fall { (name : List ℕ) → L.faults lib.old name ≤ L.faults lib.new name }
    ensures out_never_falls { O.faults out.old ≤ O.faults out.new }
{
    let asked = built_command(words)?;
    let text = make_text(rt, lib, words, asked, gate)?;
    put_text(out, text.as_slice())
}

/// Does what words ask for that begin neither with `run` nor with `demo`, or says why not. It waits for nobody.
fn try_quiet<R: AllocGlobal + Threads + Sync, L: Library, O: Sink>(
    rt: &R,
    words: &[String],
    lib: &mut L,
    out: &mut O,
) -> Result<(), Status>
    requires few { length words.now < 2 ^ 32 }
    requires quiet { ¬ IsOthers (texts words.now) }
    ensures ended { HasEnded (L.held lib.old) (texts words.now) (changed (L.faults lib.old) (L.faults lib.new) (O.written out.old) (O.written out.new) (O.faults out.old) (O.faults out.new)) (status_of result) }
    ensures untouched { AreRefused (texts words.now) → (lib.new ≡ lib.old) × (out.new ≡ out.old) }
    ensures stays { (name : List ℕ) → L.held lib.new name ≡ L.held lib.old name }
    ensures never_fall { (name : List ℕ) → L.faults lib.old name ≤ L.faults lib.new name }
    ensures out_never_falls { O.faults out.old ≤ O.faults out.new }
{
    let asked = quiet_command(words)?;
    let text = make_quiet(rt, lib, words, asked)?;
    put_text(out, text.as_slice())
}

fn ended(outcome: Result<(), Status>) -> Status
    ensures { result ≡ status_of outcome }
{
    match outcome {
        Ok(()) => Status::Done,
        Err(status) => status,
    }
}

fn begins(words: &[String], wanted: &str) -> bool
    ensures { IsTrue result ↔ Begins (texts words.now) wanted.now }
{
    word_at(words, 0) == wanted
}

/// Does what the words ask for, and says in one line why it didn't. A run or a demo passes the gate before each task.
fn serve<R: AllocGlobal + Threads + Wait + Sync, L: Library, O: Sink, E: Sink, G: Gate + Sync>(
    rt: &R,
    words: &[String],
    lib: &mut L,
    out: &mut O,
    err: &mut E,
    gate: &G,
) -> Status
    requires { length words.now < 2 ^ 32 }
    ensures answer { HasAnswered (L.held lib.old) (texts words.now) (changed (L.faults lib.old) (L.faults lib.new) (O.written out.old) (O.written out.new) (O.faults out.old) (O.faults out.new)) result }
    ensures says { SaysWhy result (E.written err.old) (E.written err.new) (E.faults err.old) (E.faults err.new) }
    ensures silent { result ≡ Status.Done → E.written err.new ≡ E.written err.old }
    ensures untouched { AreRefused (texts words.now) → (lib.new ≡ lib.old) × (out.new ≡ out.old) }
    ensures stays { (name : List ℕ) → L.held lib.new name ≡ L.held lib.old name }
    ensures never_fall { (name : List ℕ) → L.faults lib.old name ≤ L.faults lib.new name }
    ensures out_never_falls { O.faults out.old ≤ O.faults out.new }
    ensures err_never_falls { E.faults err.old ≤ E.faults err.new }
{
    let status = ended(try_command(rt, words, lib, out, gate));
    report(err, status);
    status
}

/// Does what words ask for that begin neither with `run` nor with `demo`, and says in one line why it didn't.
fn serve_quiet<R: AllocGlobal + Threads + Sync, L: Library, O: Sink, E: Sink>(
    rt: &R,
    words: &[String],
    lib: &mut L,
    out: &mut O,
    err: &mut E,
) -> Status
    requires few { length words.now < 2 ^ 32 }
    requires quiet { ¬ IsOthers (texts words.now) }
    ensures answer { HasAnswered (L.held lib.old) (texts words.now) (changed (L.faults lib.old) (L.faults lib.new) (O.written out.old) (O.written out.new) (O.faults out.old) (O.faults out.new)) result }
    ensures says { SaysWhy result (E.written err.old) (E.written err.new) (E.faults err.old) (E.faults err.new) }
    ensures silent { result ≡ Status.Done → E.written err.new ≡ E.written err.old }
    ensures untouched { AreRefused (texts words.now) → (lib.new ≡ lib.old) × (out.new ≡ out.old) }
    ensures stays { (name : List ℕ) → L.held lib.new name ≡ L.held lib.old name }
    ensures never_fall { (name : List ℕ) → L.faults lib.old name ≤ L.faults lib.new name }
    ensures out_never_falls { O.faults out.old ≤ O.faults out.new }
    ensures err_never_falls { E.faults err.old ≤ E.faults err.new }
{
    let status = ended(try_quiet(rt, words, lib, out));
    report(err, status);
    status
}

/// Serves every command but `run` and `demo`, which it refuses as `Usage` with word 0. It reads files,
/// puts the text of the command, and always returns.
pub fn quiet_main<R: AllocGlobal + Threads + Sync, L: Library, O: Sink, E: Sink>(
    rt: &R,
    words: &[String],
    lib: &mut L,
    out: &mut O,
    err: &mut E,
) -> Status
    requires { length words.now < 2 ^ 32 }
    ensures others { IsOthers (texts words.now) → (result ≡ Status.Usage 0) × (lib.new ≡ lib.old) × (out.new ≡ out.old) }
    ensures answer { ¬ IsOthers (texts words.now) → HasAnswered (L.held lib.old) (texts words.now) (changed (L.faults lib.old) (L.faults lib.new) (O.written out.old) (O.written out.new) (O.faults out.old) (O.faults out.new)) result }
    ensures says { SaysWhy result (E.written err.old) (E.written err.new) (E.faults err.old) (E.faults err.new) }
    ensures silent { result ≡ Status.Done → E.written err.new ≡ E.written err.old }
    ensures untouched { AreRefused (texts words.now) → (lib.new ≡ lib.old) × (out.new ≡ out.old) }
    ensures stays { (name : List ℕ) → L.held lib.new name ≡ L.held lib.old name }
    ensures never_fall { (name : List ℕ) → L.faults lib.old name ≤ L.faults lib.new name }
    ensures out_never_falls { O.faults out.old ≤ O.faults out.new }
    ensures err_never_falls { E.faults err.old ≤ E.faults err.new }
{
    if begins(words, "run") || begins(words, "demo") {
        report(err, Status::Usage { word: 0 });
        return Status::Usage { word: 0 };
    }
    serve_quiet(rt, words, lib, out, err)
}

/// Does all that the program does, but for the real files and streams: it serves `run` and `demo`
/// itself and hands all other words to `quiet_main`.
///
/// Each worker of a run or a demo passes the gate before each of its tasks, on its own thread. Both may wait
/// forever: no return is promised.
pub fn wave_main<
    R: AllocGlobal + Threads + Sync + Wait,
    L: Library,
    O: Sink,
    E: Sink,
    G: Gate + Sync,
>(rt: &R, words: &[String], lib: &mut L, out: &mut O, err: &mut E, gate: &G) -> Status
    requires { length words.now < 2 ^ 32 }
    ensures answer { HasAnswered (L.held lib.old) (texts words.now) (changed (L.faults lib.old) (L.faults lib.new) (O.written out.old) (O.written out.new) (O.faults out.old) (O.faults out.new)) result }
    ensures says { SaysWhy result (E.written err.old) (E.written err.new) (E.faults err.old) (E.faults err.new) }
    ensures silent { result ≡ Status.Done → E.written err.new ≡ E.written err.old }
    ensures untouched { AreRefused (texts words.now) → (lib.new ≡ lib.old) × (out.new ≡ out.old) }
    ensures stays { (name : List ℕ) → L.held lib.new name ≡ L.held lib.old name }
    ensures never_fall { (name : List ℕ) → L.faults lib.old name ≤ L.faults lib.new name }
    ensures out_never_falls { O.faults out.old ≤ O.faults out.new }
    ensures err_never_falls { E.faults err.old ≤ E.faults err.new }
    ensures ordered { (files : List (List ℕ)) → AreFilesOf (L.held lib.old) (texts words.now) files → (work : Work) → IsRunOf (texts words.now) files work → KeepsOrder work }
    ensures goes_on { (files : List (List ℕ)) → AreFilesOf (L.held lib.old) (texts words.now) files → (work : Work) → IsRunOf (texts words.now) files work → GoesOn work }
{
    sound_works_keep_order();
    sound_works_go_on();
    if begins(words, "run") || begins(words, "demo") {
        return serve(rt, words, lib, out, err, gate);
    }
    quiet_main(rt, words, lib, out, err)
}
