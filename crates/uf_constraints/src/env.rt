// The values of variables.
ghost use Rattle.std.specs.Prelude.{◌≡◌};
ghost use Rattle.loop_core.specs.Binding.{value_in};
ghost use Rattle.uf_constraints.specs.Bindings.{bindings_of};

use loop_core::env::Variables;
use loop_core::nest::VarId;
use std::marker::Model;

/// Variables and their values, each variable once. A variable that isn't listed has the value 0.
#[derive(Drop)]
pub struct Env {
    pub values: Vec<(VarId, i128)>,
}

impl Model for Env {
    ghost use Rattle.std.specs.Prelude.{List};
    ghost use Rattle.loop_core.specs.Binding.{Binding};
    ghost use Rattle.uf_constraints.specs.Bindings.{bindings_of};

    ghost Value = { List Binding };

    ghost view = { λ e. bindings_of e.values.items };
}

impl Env {
    /// The variables with these values. It takes no memory.
    pub fn of(values: Vec<(VarId, i128)>) -> Env
        ensures { result ≡ bindings_of values.items }
    {
        Env { values }
    }

    /// The value of a variable, and 0 where it has none. It takes no memory.
    pub fn value(&self, var: VarId) -> i128
        ensures { result ≡ value_in self.now var }
    {
        for (listed, value) in self.values.as_slice() {
            if *listed == var {
                return *value;
            }
        }
        0
    }
}
