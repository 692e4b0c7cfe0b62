//! Refusals of a certificate.

use std::alloc::{AllocError, AllocFailed};
use thiserror::Error;

/// What is wrong with a certificate. The variants stand in the order of their numbers, 401 to 404.
#[derive(Clone, Copy, Debug, PartialEq, Eq, Drop)]
pub enum CertCode {
    /// 401: a chain that doesn't resolve.
    BadStep,
    /// 402: a line of another form than is due there.
    CertLine,
    /// 403: a query that isn't done where the next line comes, or a text that ends too early.
    CertShort,
    /// 404: the text is too long.
    CertLarge,
}

/// Why a certificate is refused, or want of memory.
#[derive(Clone, Copy, Debug, PartialEq, Eq, Error)]
pub enum CertFault {
    #[error("no memory")]
    NoMemory,
    /// The refusal `code` at this line, counted from 1; line 0 is the whole text.
    #[error("{code:?} at line {line}")]
    At { code: CertCode, line: u32 },
}

impl From<AllocError> for CertFault {
    ghost use Rattle.std.specs.Prelude.{◌≡◌};
    ghost use Rattle.cert_text.specs.declared.fault.CertFault.TheVariants.{NoMemory};

    ghost from_gives = { λ _ fault. fault ≡ NoMemory };

    fn from(_error: AllocError) -> CertFault {
        CertFault::NoMemory
    }
}

impl<T: Drop> From<AllocFailed<T>> for CertFault {
    ghost use Rattle.std.specs.Prelude.{◌≡◌};
    ghost use Rattle.cert_text.specs.declared.fault.CertFault.TheVariants.{NoMemory};

    ghost from_gives = { λ _ fault. fault ≡ NoMemory };

    fn from(_error: AllocFailed<T>) -> CertFault {
        CertFault::NoMemory
    }
}
