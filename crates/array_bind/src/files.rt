// Files, of which declarations take one after another.
ghost use Rattle.std.specs.Prelude.{◌≡◌, [], ◌∷◌, reverse};
ghost use Rattle.array_bind.specs.Lists.{first_file, other_files};

use std::alloc::Global;
use std::marker::Model;
use wave_base::words::Words;

/// The words of files, the last one at the front of the memory; contracts see the first one first.
#[derive(Drop)]
pub struct Files {
    reversed: Vec<Words>,
}

impl Model for Files {
    ghost use Rattle.std.specs.Prelude.{List, ℤ, reverse};

    ghost Value = { List (List ℤ) };

    ghost view = { λ f. reverse f.reversed.items };
}

impl Files {
    /// The words of these files.
    pub fn of(files: Vec<Words>) -> Files
        ensures { result ≡ files.items }
    {
        let mut reversed = files;
        reversed.reverse();
        Files { reversed }
    }

    /// Takes the first file, and no words where there is none.
    pub fn next(&mut self, alloc: Global) -> Words
        ensures first { result ≡ first_file self.old }
        ensures others { self.new ≡ other_files self.old }
    {
        match self.reversed.pop() {
            Some(file) => file,
            None => Words::from_vec(Vec::new(alloc)),
        }
    }
}
