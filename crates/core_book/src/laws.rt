// What the values of the book say of a work.
ghost use Rattle.std.specs.Prelude.{◌≡◌, ◌+◌, ◌++◌, ℕ, ℤ, List, Some, take, slice_get};
ghost use Rattle.core_rows.specs.Deeds.{Deed};
ghost use Rattle.core_rows.specs.Replay.{instance_of};
ghost use Rattle.core_book.specs.declared.book.Book.{Book};
ghost use Rattle.core_book.specs.declared.book.How.{How};
ghost use Rattle.core_book.specs.Hows.{how_at, worked};
ghost use Rattle.core_book.specs.Follows.{Does, DoRow, IsInstance};
ghost use Rattle.core_book.specs.Caught.{IsCaught};
ghost use Rattle.core_book.specs.declared.row.Row.{Row};
ghost use Rattle.loop_core.specs.declared.nest.Nest.{Nest};
ghost use Rattle.loop_core.specs.Lists.{Lists};
ghost use Rattle.loop_core.specs.Binding.{Binding};
ghost use Rattle.loop_core.specs.Instances.{Instance};
ghost use Rattle.core_nest.specs.Nested.{deed_of};

use core_rows::laws::values_come_step_by_step;

/// Where the book's instances do what a row's do, and each knows how many come before it, their values over
/// registers are those of the row's instances.
pub fn book_values_are_instance_values()
    ensures { (book : Book) (hows : List How) (first n : ℕ) (ds : List Deed) (d : Deed) (registers : List ℤ) → DoRow book hows first ds → slice_get ds n ≡ Some d → (how_at hows (first + n)).before ≡ n
        → worked book hows registers (first + n) ≡ (instance_of 16 (take n ds) d).value registers }
{
    values_come_step_by_step();
}

/// An instance of a nest in the book does what it does in the nest's work.
pub fn book_instances_do_as_the_nest()
    ensures { (book : Book) (nest : Nest) (a : Lists) (x : List (List ℤ)) (env : List Binding) (how : How) (s : Instance) → IsInstance book nest a x env how s → Does book how (deed_of nest x s) }
{}

/// A row stays as far as it says when more is read.
pub fn rows_stay_caught()
    ensures { (book : Book) (hows : List How) (registers more : List ℤ) (row : Row) → IsCaught book hows registers row → IsCaught book hows (registers ++ more) row }
{}
