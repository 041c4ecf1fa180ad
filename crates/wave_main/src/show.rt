// The command `show`.
ghost use Rattle.std.specs.Prelude.{◌≡◌, ◌⊎◌, ◌≤◌, ℕ, List, MatchResult, IfOk, IfErr};
ghost use Rattle.loop_core.specs.declared.nest.Nest.{Nest};
ghost use Rattle.loop_print.specs.PrintText.{nest_text};
ghost use Rattle.wave_words.specs.Words.{texts};
ghost use Rattle.wave_words.specs.declared.form.Form.TheVariants.{Show};
ghost use Rattle.wave_main.specs.Commands.{IsAsked};
ghost use Rattle.wave_main.specs.Files.{IsFetched};
ghost use Rattle.wave_main.specs.Loops.{IsLoop, IsLoopFault};
ghost use Rattle.wave_main.specs.Making.{IsMade, IsMissed};

use crate::fetch::fetch_loop;
use crate::loops::read_loop;
use crate::status::Status;
use loop_print::print::print;
use std::alloc::Global;
use wave_io::library::Library;

/// The canonical text of the loop of a file that was fetched, or why the file is refused.
fn show_text(alloc: Global, file: Option<Vec<u8>>) -> Result<Vec<u8>, Status>
    ensures { (bytes : List ℕ) → IsFetched 65536 bytes file → MatchResult result
        (λ text. (nest : Nest) × IsLoop bytes nest × (text.items ≡ nest_text nest))
        (λ status. (status ≡ Status.Memory) ⊎ IsLoopFault bytes status) }
{
    let nest = read_loop(alloc, file)?;
    let text = print(alloc, &nest)?;
    Ok(text.into_bytes())
}

/// The canonical text of the loop that the words name, or why there is none.
pub fn make_show<L: Library>(
    alloc: Global,
    lib: &mut L,
    words: &[String],
) -> Result<Vec<u8>, Status>
    requires { IsAsked (texts words.now) Show }
    ensures made { IfOk result (λ text. IsMade (L.held lib.old) (texts words.now) text.items) }
    ensures missed { IfErr result (IsMissed (L.held lib.old) (texts words.now) (L.faults lib.old) (L.faults lib.new)) }
    ensures never_fall { (other : List ℕ) → L.faults lib.old other ≤ L.faults lib.new other }
    ensures stays { (other : List ℕ) → L.held lib.new other ≡ L.held lib.old other }
{
    let file = fetch_loop(alloc, lib, words)?;
    show_text(alloc, file)
}
