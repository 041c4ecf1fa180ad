// The blocks that lines open.
use loop_core::name::Name;

/// An open block: a loop with its line and its variable's name, or a guard.
#[derive(Debug, Drop)]
pub enum Block {
    Repeated { line: u32, name: Name },
    Guarded,
}
