// Why a nest isn't accepted.
use wave_base::types::Memory;

/// Which bound of a bracket: `0 <= t` or `t < len f`.
#[derive(Clone, Copy, Debug, PartialEq, Eq)]
pub enum Side2 {
    Low,
    High,
}

/// The first system of constraints with more than 96 atoms, by the line of its bracket or of the
/// second reference of its relation; the first bracket that isn't bounded, and the side; or out of
/// memory.
#[derive(Clone, Copy, Debug, PartialEq, Eq)]
pub enum BoundsRefusal {
    TermsFull {
        line: u32,
    },
    Unbounded {
        line: u32,
        bracket: u32,
        side: Side2,
    },
    Memory,
}

impl From<Memory> for BoundsRefusal {
    ghost use Rattle.std.specs.Prelude.{◌≡◌};
    ghost use Rattle.access_bounds.specs.declared.refusal.BoundsRefusal.TheVariants.{Memory};

    ghost from_gives = { λ _ e. e ≡ Memory };

    fn from(_out: Memory) -> BoundsRefusal {
        BoundsRefusal::Memory
    }
}
