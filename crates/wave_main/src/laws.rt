// What the definitions of stages, texts and works say together.
ghost use Rattle.std.specs.Prelude.{◌≡◌, ℕ, List};
ghost use Rattle.core_machine.specs.FitWork.{IsFitWork};
ghost use Rattle.wave_words.specs.declared.form.Form.{Form};
ghost use Rattle.wave_main.specs.declared.status.Status.{Status};
ghost use Rattle.wave_main.specs.Commands.{IsText};
ghost use Rattle.wave_main.specs.Files.{Inputs};
ghost use Rattle.wave_main.specs.Headline.{GoesOn, KeepsOrder};
ghost use Rattle.wave_main.specs.Run.{IsWork};
ghost use Rattle.wave_main.specs.Sound.{IsSound, Work, core_work};
ghost use Rattle.wave_main.specs.Stages.{Calls, IsRefusedBy, Stage};

use access_bounds::laws::accesses_are_inside;
use core_machine::laws::{dependences_are_ordered, some_worker_steps};
use loop_plan::laws::plans_fit_the_dependences;

/// A stage refuses files with one status.
pub fn a_stage_has_one_status()
    ensures { (stage : Stage) (files : Inputs) (a b : Status) → Calls stage files a → Calls stage files b → a ≡ b }
{}

/// Stages one after another refuse files with one status.
pub fn stages_have_one_status()
    ensures { (stages : List Stage) (files : Inputs) (a b : Status) → IsRefusedBy stages files a → IsRefusedBy stages files b → a ≡ b }
{}

/// A command prints one text of its words and files.
pub fn a_command_has_one_text()
    ensures { (form : Form) (words : List (List ℕ)) (files : Inputs) (a b : List ℕ) → IsText form words files a → IsText form words files b → a ≡ b }
{}

/// A sound work is fit: so all that holds of the reached states of fit works holds of it.
pub fn sound_works_are_fit()
    ensures { (work : Work) → IsSound work → IsFitWork (core_work work) }
{
    accesses_are_inside();
    plans_fit_the_dependences();
}

/// In each reached state of a sound work dependent rows are ordered.
pub fn sound_works_keep_order()
    ensures { (work : Work) → IsSound work → KeepsOrder work }
{
    sound_works_are_fit();
    dependences_are_ordered();
}

/// In each reached state of a sound work that isn't at its end some worker can step.
pub fn sound_works_go_on()
    ensures { (work : Work) → IsSound work → GoesOn work }
{
    sound_works_are_fit();
    some_worker_steps();
}

/// Words and files determine one work.
pub fn words_and_files_determine_a_work()
    ensures { (words : List (List ℕ)) (files : Inputs) (a b : Work) → IsWork words files a → IsWork words files b → a ≡ b }
{}
