// What holds of the text of a nest that was read, and of the nest.
ghost use Rattle.std.specs.Prelude.{◌≡◌, ℕ, List};
ghost use Rattle.text_base.specs.Lines.{lines};
ghost use Rattle.loop_core.specs.declared.nest.Nest.{Nest};
ghost use Rattle.loop_core.specs.IsNest.{IsNest};
ghost use Rattle.loop_syntax.specs.Numbered.{numbered};
ghost use Rattle.loop_syntax.specs.TextNest.{IsRead};
ghost use Rattle.loop_print.specs.PrintText.{nest_text};
ghost use Rattle.loop_laws.specs.Renumbered.{renumbered};
ghost use Rattle.loop_laws.specs.ShownText.{shown_lines, unlines, AreShort, place};

/// The canonical text of a nest that was read consists of the canonical texts of the lines that
/// it was read from.
pub fn printed_text_is_that_of_its_lines()
    ensures { (ls : List (List ℕ)) (nest : Nest) → IsRead ls nest → nest_text nest ≡ unlines (shown_lines 0 (numbered ls)) }
{}

/// The canonical text of a nest that was read is read as that nest with its lines numbered again,
/// where none of its lines has more than 200 bytes. The new number of a line is its place among the
/// lines with words of the text that the nest was read from.
pub fn printed_text_reads_back()
    ensures { (ls : List (List ℕ)) (nest : Nest) → IsRead ls nest → AreShort (lines (nest_text nest)) → IsRead (lines (nest_text nest)) (renumbered (place (numbered ls)) nest) }
{}

/// What was read is a nest that the loop language can say, the number and the length of its lines
/// aside.
pub fn what_is_read_is_a_nest()
    ensures { (ls : List (List ℕ)) (nest : Nest) → IsRead ls nest → IsNest nest }
{}
