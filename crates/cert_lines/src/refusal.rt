//! Why a certificate's text is refused.
ghost use Rattle.std.specs.Prelude.{◌≡◌};
ghost use Rattle.cert_lines.specs.declared.refusal.CertRefusal.TheVariants as refusal;

use std::alloc::AllocError;
use thiserror::Error;

/// The first fault of a certificate: its kind as a number (20 where a line isn't of a form, 21 for a number out of range, 22
/// for a word that isn't a fraction or a count) and its place as a byte offset from 0; or want of memory.
#[derive(Debug, Drop, Error)]
pub enum CertRefusal {
    #[error("fault {kind} at byte {place}")]
    Fault { kind: u8, place: u32 },
    #[error("out of memory")]
    Memory,
}

impl From<AllocError> for CertRefusal {
    ghost use Rattle.cert_lines.specs.declared.refusal.CertRefusal.TheVariants.{Memory};

    ghost from_gives = { λ _ e. e ≡ Memory };

    fn from(_: AllocError) -> Self {
        CertRefusal::Memory
    }
}

/// A line isn't one of the forms in its place.
pub fn misshapen(place: u32) -> CertRefusal
    ensures { result ≡ refusal.Fault 20 place }
{
    CertRefusal::Fault { kind: 20, place }
}

/// A number is out of range.
pub fn out_of_range(place: u32) -> CertRefusal
    ensures { result ≡ refusal.Fault 21 place }
{
    CertRefusal::Fault { kind: 21, place }
}

/// A word isn't a fraction of 128 bits in lowest terms, or a count is 0 or too large.
pub fn misnumbered(place: u32) -> CertRefusal
    ensures { result ≡ refusal.Fault 22 place }
{
    CertRefusal::Fault { kind: 22, place }
}
