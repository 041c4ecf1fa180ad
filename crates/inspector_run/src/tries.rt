// The values that are still to be tried for a variable.
ghost use Rattle.std.specs.Prelude.{◌≡◌, ◌∷◌, [], map, MatchOption};
ghost use Rattle.inspector_run.specs.Left.{left, places_in};
ghost use Rattle.inspector_run.specs.Inverses.{place_of, place_at};
ghost use Rattle.inspector_run.specs.Tries.{numbers_between, moved};

use crate::inverse::Places;
use crate::sorted::Held;
use wave_base::types::RowId;

/// What is left to try.
#[derive(Clone, Copy)]
pub enum Tries<'a> {
    /// Each number from `next` up to but not including `end`.
    Between { next: i128, end: i128 },
    /// Each of these places less `plus`.
    At { places: Places<'a>, plus: i64 },
}

/// The next value and what is left after it, if there is one.
pub fn next_of(tries: Tries<'_>) -> Option<(i128, Tries<'_>)>
    ensures { MatchOption result (left tries.entry ≡ []) (λ p. left tries.entry ≡ p.0 ∷ left p.1) }
{
    match tries {
        Tries::Between { next, end } => next_between(next, end),
        Tries::At { places, plus } => next_place(places, plus),
    }
}

fn next_between<'a>(next: i128, end: i128) -> Option<(i128, Tries<'a>)>
    ensures { MatchOption result (numbers_between next end ≡ []) (λ p. numbers_between next end ≡ p.0 ∷ left p.1) }
{
    if next >= end {
        return None;
    }
    let after = Tries::Between {
        next: next + 1,
        end,
    };
    Some((next, after))
}

fn next_place(places: Places<'_>, plus: i64) -> Option<(i128, Tries<'_>)>
    ensures { MatchOption result (moved plus (places_in places.entry) ≡ []) (λ p. moved plus (places_in places.entry) ≡ p.0 ∷ left p.1) }
{
    match places {
        Places::Counted(rows) => next_counted(rows, plus),
        Places::Sorted(entries) => next_sorted(entries, plus),
    }
}

fn next_counted(rows: &[RowId], plus: i64) -> Option<(i128, Tries<'_>)>
    ensures { MatchOption result (moved plus (map place_at rows.entry.now) ≡ []) (λ p. moved plus (map place_at rows.entry.now) ≡ p.0 ∷ left p.1) }
{
    match rows {
        [] => None,
        [row, after @ ..] => {
            let value = row.0 as i128 - plus as i128;
            let after = Tries::At {
                places: Places::Counted(after),
                plus,
            };
            Some((value, after))
        }
    }
}

fn next_sorted(entries: &[Held], plus: i64) -> Option<(i128, Tries<'_>)>
    ensures { MatchOption result (moved plus (map place_of entries.entry.now) ≡ []) (λ p. moved plus (map place_of entries.entry.now) ≡ p.0 ∷ left p.1) }
{
    match entries {
        [] => None,
        [entry, after @ ..] => {
            let value = entry.place as i128 - plus as i128;
            let after = Tries::At {
                places: Places::Sorted(after),
                plus,
            };
            Some((value, after))
        }
    }
}
