//! ACKNACKs, by which peers say what they have and what they miss (DDSI-RTPS 8.3.7.1).

ghost use Rattle.std.specs.Prelude.{◌≡◌};
ghost use Rattle.rtps_announcer.specs.Ack.{ack_with};

use rtps_types::{Members, SnSet};
use std::marker::Model;

/// The answer of a participant's reader of readers to our announcer of readers (DDSI-RTPS 8.3.7.1).
#[derive(Debug, Drop)]
pub struct Ack {
    missing: SnSet,
    count: i32,
    is_final: bool,
}

impl Model for Ack {
    ghost use Rattle.rtps_announcer.specs.Ack.{AckView, ack_with};

    ghost Value = { AckView };

    ghost view = { λ a. ack_with a.missing a.count a.is_final };
}

impl Ack {
    /// Returns an ACKNACK: all numbers below the base of `missing` are acknowledged, and its
    /// members are asked for. No answer is wanted where `is_final`.
    pub fn new(missing: SnSet, count: i32, is_final: bool) -> Ack
        ensures { result ≡ ack_with missing count is_final }
    {
        Ack {
            missing,
            count,
            is_final,
        }
    }

    /// All numbers below this one are acknowledged.
    pub(crate) fn base(&self) -> u64
        ensures { result ≡ self.now.base }
    {
        self.missing.base
    }

    /// The numbers that are asked for, in rising order.
    pub(crate) fn asked(&self) -> Members
        ensures { result ≡ self.now.asked }
    {
        self.missing.members()
    }

    /// It rises from one ACKNACK to the next.
    pub(crate) fn count(&self) -> i32
        ensures { result ≡ self.now.count }
    {
        self.count
    }

    /// Whether no answer is wanted.
    pub(crate) fn is_final(&self) -> bool
        ensures { result ≡ self.now.is_final }
    {
        self.is_final
    }
}
