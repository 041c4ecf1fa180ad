// What an iteration touches.
use wave_base::types::Cell;

/// The cells that an iteration reads, and those that it writes, both ascending and without repeats.
#[derive(Debug, Drop)]
pub struct Touches {
    pub reads: Vec<Cell>,
    pub writes: Vec<Cell>,
}
