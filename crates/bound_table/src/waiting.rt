// Instances that haven't fired.
use crate::between::Between;

/// An instance by its number, of which so many premises from the first on are known to hold, and one
/// that doesn't, by its places and its right side.
#[derive(Clone, Copy, Debug)]
pub struct Waiting {
    pub rule: usize,
    pub held: usize,
    pub seen: Between,
}
