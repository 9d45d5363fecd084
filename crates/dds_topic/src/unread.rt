//! Why a payload can't be decoded.

ghost use Rattle.std.specs.Prelude.{◌≡◌};
ghost use Rattle.dds_topic.specs.declared.unread.CatalogError.TheVariants as errors;
ghost use Rattle.dds_topic.specs.declared.unread.Unread.TheVariants.{Malformed};

use rtps_cdr::CdrFault;
use std::alloc::AllocError;
use thiserror::Error;

/// Why a change is presented without a value or a key.
#[derive(Clone, Copy, Debug, PartialEq, Eq, Error)]
pub enum Unread {
    /// The catalog doesn't decode this encapsulation (DDSI-RTPS 10.2), or the payload is shorter
    /// than the four octets of an encapsulation header.
    #[error("the encapsulation is none that is decoded")]
    Encapsulation,
    /// The octets after the encapsulation header are no value of the type; or, of a key payload, no
    /// key of it.
    #[error("the octets are no value of the type")]
    Malformed,
    /// The payload is in a form that the standard leaves open (flag N of its DATA or DATA_FRAG). It
    /// is also the reason for a change that neither disposes nor unregisters its instance, but has
    /// a key payload or no payload in place of a value.
    #[error("the change has no form of the standard")]
    NonStandard,
    /// The change disposes or unregisters an instance, but it has neither a payload nor a key hash
    /// in its inline QoS to identify it.
    #[error("there is no key")]
    NoKey,
}

impl Unread {
    ghost use Rattle.dds_topic.specs.Answer.{code_of, name_of};

    /// Returns the number of the reason in printed lines: 1 for `Encapsulation`, 2 for `Malformed`,
    /// 3 for `NonStandard`, and 4 for `NoKey`.
    pub fn code(self) -> u32
        ensures { result ≡ code_of self }
    {
        match self {
            Unread::Encapsulation => 1,
            Unread::Malformed => 2,
            Unread::NonStandard => 3,
            Unread::NoKey => 4,
        }
    }

    /// Returns the name of the reason, for people. No memory is taken.
    pub fn name(self) -> &'static str
        ensures { result.now ≡ name_of self }
    {
        match self {
            Unread::Encapsulation => "Encapsulation",
            Unread::Malformed => "Malformed",
            Unread::NonStandard => "NonStandard",
            Unread::NoKey => "NoKey",
        }
    }
}

/// Why a catalog returns no result.
#[derive(Clone, Copy, Debug, PartialEq, Eq, Error)]
pub enum CatalogError {
    /// The allocator refused a growth.
    #[error("out of memory")]
    NoMemory,
    /// The payload can't be decoded.
    #[error(transparent)]
    Unread(Unread),
}

impl From<AllocError> for CatalogError {
    ghost from_gives = { λ _ e. e ≡ errors.NoMemory };

    fn from(_: AllocError) -> CatalogError {
        CatalogError::NoMemory
    }
}

impl From<Unread> for CatalogError {
    ghost from_gives = { λ u e. e ≡ errors.Unread u };

    fn from(unread: Unread) -> CatalogError {
        CatalogError::Unread(unread)
    }
}

/// Octets that are no value of the type are malformed, whatever their fault.
impl From<CdrFault> for CatalogError {
    ghost from_gives = { λ _ e. e ≡ errors.Unread Malformed };

    fn from(_: CdrFault) -> CatalogError {
        CatalogError::Unread(Unread::Malformed)
    }
}
