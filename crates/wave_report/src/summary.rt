// The printed summary.
ghost use Rattle.std.specs.Prelude.{◌≡◌, ◌++◌, IfOk, OnOk};
ghost use Rattle.std.specs.String.{string_bytes};
ghost use Rattle.wave_report.specs.SummaryText.{relations_line, rows_line, levels_line, summary_text};

use crate::counts::Summary;
use crate::pieces::{put, put_number};
use std::alloc::Global;
use wave_base::types::Memory;

/// The three lines of a summary: `relations R dropped D covered C kept K`, `rows N stored Z edges E` and
/// `levels L tasks T cross X waits Y`. It fails out of memory alone.
pub fn summary(alloc: Global, s: &Summary) -> Result<String, Memory>
    ensures { IfOk result (λ text. string_bytes text ≡ summary_text s.now) }
{
    let mut text = String::new(alloc);
    put_relations(&mut text, s)?;
    put_rows(&mut text, s)?;
    put_levels(&mut text, s)?;
    Ok(text)
}

fn put_relations(text: &mut String, s: &Summary) -> Result<(), Memory>
    ensures { OnOk result (string_bytes text.new ≡ string_bytes text.old ++ relations_line s.now) }
{
    put_number(text, "relations ", s.relations)?;
    put_number(text, " dropped ", s.dropped)?;
    put_number(text, " covered ", s.covered)?;
    put_number(text, " kept ", s.kept)?;
    put(text, "\n")
}

fn put_rows(text: &mut String, s: &Summary) -> Result<(), Memory>
    ensures { OnOk result (string_bytes text.new ≡ string_bytes text.old ++ rows_line s.now) }
{
    put_number(text, "rows ", s.rows)?;
    put_number(text, " stored ", s.stored)?;
    put_number(text, " edges ", s.edges)?;
    put(text, "\n")
}

fn put_levels(text: &mut String, s: &Summary) -> Result<(), Memory>
    ensures { OnOk result (string_bytes text.new ≡ string_bytes text.old ++ levels_line s.now) }
{
    put_number(text, "levels ", s.levels)?;
    put_number(text, " tasks ", s.tasks)?;
    put_number(text, " cross ", s.cross)?;
    put_number(text, " waits ", s.waits)?;
    put(text, "\n")
}
