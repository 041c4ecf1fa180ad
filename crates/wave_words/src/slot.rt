// What a word of a command may be.
ghost use Rattle.std.specs.Prelude.{◌≡◌, ◌≤◌, ◌<◌, ◌^◌, length, ℕ};
ghost use Rattle.std.specs.Str.{bytes_eq};
ghost use Rattle.wave_words.specs.Forms.{has_leading_zero, number, lies_between, fits};

use text_base::numbers::natural;

/// What may stand at a place of a command's words.
#[derive(Clone, Copy, Debug, PartialEq, Eq)]
pub enum Slot {
    Run,
    Demo,
    Plan,
    Replay,
    Check,
    Explain,
    Show,
    Grid,
    Lower,
    /// Any word: the name of a file.
    Name,
    /// A number of workers, 1 to 64.
    Workers,
    /// The side of a grid, 1 to 400.
    Side,
    /// A number from which a matrix is made, 0 to 4294967295.
    Seed,
}

fn has_leading_zero(word: &[u8]) -> bool
    ensures { result ≡ has_leading_zero word.now }
{
    match word {
        [first, _, ..] => *first == b'0',
        _ => false,
    }
}

/// Whether a word is a number from `least` to `most`, in digits without a leading zero.
fn lies_between(word: &[u8], least: u64, most: u64) -> bool
    requires { most < 2 ^ 63 }
    ensures { result ≡ lies_between least most (number word.now) }
{
    if has_leading_zero(word) {
        return false;
    }
    match natural(word) {
        Some(value) => least <= value && value <= most,
        None => false,
    }
}

/// Whether a word may stand there. It takes no memory.
pub fn fits(slot: Slot, word: &str) -> bool
    ensures { result ≡ fits slot word.now }
{
    match slot {
        Slot::Run => word == "run",
        Slot::Demo => word == "demo",
        Slot::Plan => word == "plan",
        Slot::Replay => word == "replay",
        Slot::Check => word == "check",
        Slot::Explain => word == "explain",
        Slot::Show => word == "show",
        Slot::Grid => word == "grid",
        Slot::Lower => word == "lower",
        Slot::Name => true,
        Slot::Workers => lies_between(word.as_bytes(), 1, 64),
        Slot::Side => lies_between(word.as_bytes(), 1, 400),
        Slot::Seed => lies_between(word.as_bytes(), 0, 4294967295),
    }
}
