// Why a certificate is refused.
use wave_base::types::Memory;

/// The number of the first step that is none, or out of memory.
#[derive(Clone, Copy, Debug, PartialEq, Eq)]
pub enum CertRefusal {
    BadStep { at: u64 },
    Memory,
}

impl From<Memory> for CertRefusal {
    ghost use Rattle.std.specs.Prelude.{◌≡◌};
    ghost use Rattle.cert_check.specs.declared.refusal.CertRefusal.TheVariants.{Memory};

    ghost from_gives = { λ _ e. e ≡ Memory };

    fn from(_out: Memory) -> CertRefusal {
        CertRefusal::Memory
    }
}
