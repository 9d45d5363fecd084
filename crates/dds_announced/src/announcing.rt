//! How a participant is to announce itself.

ghost use Rattle.std.specs.Prelude.{◌≡◌, ◌≤◌};
ghost use Rattle.dds_announced.specs.Announcing.{announcing_in, discovery_group, fault_of, is_bad_place, outlasts};

use rtps_announcement::Presence;
use rtps_announcer::{Rules, is_unicast, lease_of};
use rtps_discovery::ConfigFault;
use rtps_types::{Duration, Locator, Locators};
use std::alloc::Global;
use thiserror::Error;

/// The most addresses of everyone.
const MOST: usize = 64;

/// How long a participant may keep silent, if nothing else is asked for.
const LEASE: Duration = Duration {
    seconds: 10,
    fraction: 0,
};

/// How a participant is to announce itself (DDSI-RTPS 8.5.3). [`Announcing::new`] has a default for
/// all but where it is reached.
///
/// ```
/// let announcing = Announcing::new(alloc, 0, discovery, user)
///     .period(500)
///     .lease(lease)
///     .everyone(everyone);
/// let mut participant = AnnouncedParticipant::new(alloc, config, announcing, Shapes)?;
/// ```
#[derive(Debug, Drop)]
pub struct Announcing {
    /// How often is announced and reminded, and for how many; as a rule [`Rules::DEFAULT`].
    pub rules: Rules,
    /// Where the participant is reached, and how long it may keep silent.
    pub here: Presence,
    /// Where participants are announced to everyone: groups, and participants that are known. At
    /// most 64.
    pub everyone: Locators,
}

/// Why a participant can't announce itself so. The first that comes is named.
#[derive(Clone, Copy, Debug, PartialEq, Eq, Error)]
pub enum AnnounceFault {
    /// The period is 0, or not below the lease: then others would forget us in between.
    #[error("the period is 0, or not below the lease")]
    Period,
    /// One of our own locators has port 0, or an address that isn't that of one interface.
    #[error("a locator of our own has port 0 or a bad address")]
    Place,
    /// There are more than 64 addresses of everyone.
    #[error("more than 64 addresses")]
    Everyone,
}

/// Why a participant that announces itself could not be made.
#[derive(Clone, Copy, Debug, PartialEq, Eq, Error)]
pub enum AnnouncedError {
    /// The allocator refused a growth.
    #[error("out of memory")]
    NoMemory,
    /// It can't announce itself so.
    #[error(transparent)]
    Announcing(AnnounceFault),
    /// A reader's record has more than 60,000 octets, so that no datagram carries it.
    #[error("the record of a reader has more than 60,000 octets")]
    TooLong,
    /// The configuration has a fault.
    #[error(transparent)]
    Config(ConfigFault),
}

/// Returns the group at which the participants of a domain, 0 to 232, hear of each other:
/// 239.255.0.1, at the multicast port of the domain's discovery (DDSI-RTPS 9.6.1.1, 9.6.1.4).
pub fn discovery_group(domain: u16) -> Locator
    requires { domain ≤ 232 }
    ensures { result ≡ discovery_group domain }
{
    Locator {
        port: 7_400 + 250 * domain,
        address: [239, 255, 0, 1],
    }
}

impl Announcing {
    /// Returns how a participant of a domain, 0 to 232, announces itself whose discovery and whose
    /// readers are reached at these locators: each second, with a lease of ten seconds, to the group
    /// of the domain ([`discovery_group`]), by the numbers of [`Rules::DEFAULT`]. No memory is
    /// taken.
    pub fn new(alloc: Global, domain: u16, discovery: Locator, user: Locator) -> Announcing
        requires { domain ≤ 232 }
        ensures { result ≡ announcing_in domain discovery user }
    {
        Announcing {
            rules: Rules::DEFAULT,
            here: Presence {
                discovery,
                user,
                lease: LEASE,
            },
            everyone: Locators::one(alloc, discovery_group(domain)),
        }
    }

    /// Announces the participant to everyone once in this time, in milliseconds.
    pub fn period(mut self, period: u64) -> Announcing
        ensures { result ≡ record self { rules = record self.rules { period = period } } }
    {
        self.rules.period = period;
        self
    }

    /// Has others forget the participant once it has kept silent for longer than this (DDSI-RTPS
    /// 8.5.3.2). The period has to be below it.
    pub fn lease(mut self, lease: Duration) -> Announcing
        ensures { result ≡ record self { here = record self.here { lease = lease } } }
    {
        self.here.lease = lease;
        self
    }

    /// Announces the participant at these addresses, in the place of those so far: at most 64,
    /// groups and participants that are known.
    pub fn everyone(mut self, everyone: Locators) -> Announcing
        ensures { result ≡ record self { everyone = everyone } }
    {
        self.everyone = everyone;
        self
    }

    /// Returns why a participant can't announce itself so, if it can't.
    pub fn fault(&self) -> Option<AnnounceFault>
        ensures { result ≡ fault_of self.now }
    {
        let Presence {
            discovery,
            user,
            lease,
        } = self.here;
        if self.rules.period == 0 || outlasts(self.rules.period, lease_of(lease)) {
            return Some(AnnounceFault::Period);
        }
        if is_bad_place(discovery) || is_bad_place(user) {
            return Some(AnnounceFault::Place);
        }
        if self.everyone.as_slice().len() > MOST {
            return Some(AnnounceFault::Everyone);
        }
        None
    }
}

/// Whether a period isn't below a lease, where that ends. Both are in milliseconds.
fn outlasts(period: u64, lease: Option<u64>) -> bool
    ensures { result ≡ outlasts period lease }
{
    match lease {
        Some(lease) => period >= lease,
        None => false,
    }
}

/// Whether a locator of our own can't be announced.
fn is_bad_place(place: Locator) -> bool
    ensures { result ≡ is_bad_place place }
{
    place.port == 0 || !is_unicast(place)
}
