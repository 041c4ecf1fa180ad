// Why a text is no nest.
ghost use Rattle.std.specs.Prelude.{◌≡◌};
ghost use Rattle.loop_syntax.specs.declared.refusal.LoopRefusal.TheVariants.{Memory as Wanting};

use wave_base::types::Memory as NoMemory;

/// Which rule on names fails.
#[derive(Clone, Copy, Debug, PartialEq, Eq)]
pub enum NameKind {
    /// A name that isn't declared above, and no variable of a loop around.
    Unknown,
    /// A name that was declared before, or a loop's variable that is declared or in use.
    Twice,
    /// An array, variable or local of another kind or length than its place asks.
    WrongKind,
    /// A statement that writes an index array.
    WrittenIndex,
}

/// Which count passes its limit.
#[derive(Clone, Copy, Debug, PartialEq, Eq)]
pub enum LimitKind {
    Length,
    Lines,
    Constant,
    Arrays,
    Locals,
    Depth,
    References,
    Atoms,
}

/// Why a text is no nest, or that memory ran out. Lines count from 1.
#[derive(Clone, Copy, Debug, PartialEq, Eq)]
pub enum LoopRefusal {
    /// The least line that has no form of the language or doesn't fit the lines above it.
    Text { line: u32 },
    /// The first name that breaks a rule.
    Name { line: u32, kind: NameKind },
    /// The least line that passes a limit.
    Limit { line: u32, kind: LimitKind },
    /// Want of memory. It says nothing of the text.
    Memory,
}

impl From<NoMemory> for LoopRefusal {
    ghost from_gives = { λ _ e. e ≡ Wanting };

    fn from(_refused: NoMemory) -> LoopRefusal {
        LoopRefusal::Memory
    }
}
