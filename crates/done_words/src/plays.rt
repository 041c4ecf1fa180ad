// What each step tells.
use crate::view::View;
use atomic_table::{Join, Play, Split};

pub(crate) struct Looks;

impl Play<(), View> for Looks {
    ghost use Rattle.done_words.specs.Told.{looked};

    ghost then = { looked };
}

pub(crate) struct Reads;

impl Play<(), View> for Reads {
    ghost use Rattle.done_words.specs.Told.{has_read};

    ghost then = { has_read };
}

pub(crate) struct Writes;

impl Play<(), View> for Writes {
    ghost use Rattle.done_words.specs.Told.{has_written};

    ghost then = { has_written };
}

pub(crate) struct Finishes;

impl Play<(), View> for Finishes {
    ghost use Rattle.done_words.specs.Told.{has_finished};

    ghost then = { has_finished };
}

pub(crate) struct Makes;

impl Split<View> for Makes {
    ghost use Rattle.done_words.specs.Views.{one_more, made_next};

    ghost left = { one_more };

    ghost right = { made_next };
}

pub(crate) struct TakesBack;

impl Join<View> for TakesBack {
    ghost use Rattle.done_words.specs.Views.{taken_back};
    ghost use Rattle.done_words.specs.declared.view.View.TheVariants.{Spent};

    ghost both = { taken_back };

    ghost spent = { Spent };
}
