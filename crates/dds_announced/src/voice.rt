//! What our participant says of itself and of its readers.

ghost use Rattle.std.specs.Prelude.{◌≡◌, ◌∷◌, [], IfErr, IfOk, IsErr, None, OnErr, OnOk, false, true};
ghost use Rattle.rtps_announcer.specs.Announcing.{farewell};
ghost use Rattle.rtps_announcer.specs.Hearing.{hearings_of};
ghost use Rattle.rtps_announcer.specs.Standing.{StandsAt as HasHeard};
ghost use Rattle.rtps_announcer.specs.declared.hearing.Hearing.{Hearing};
ghost use Rattle.dds_announced.specs.Announcing.{fault_of};
ghost use Rattle.dds_announced.specs.Speaker.{announcements as announcements_of, own_readers};
ghost use Rattle.dds_announced.specs.Voice.{BlamesReader, IsSameVoice, IsVoiceFault, Says, joined_by};

use crate::announcement::Announcement;
use crate::announcing::{AnnounceFault, Announcing};
use crate::hearing::join_all;
use crate::speaker::Speaker;
use rtps_announcement::RecordFault;
use rtps_announcer::Announcer;
use rtps_discovery::Config;
use rtps_types::{Datagram, Locator, Locators};
use std::alloc::{AllocError, Global};
use thiserror::Error;

/// Why there is no voice for a participant.
#[derive(Clone, Copy, Debug, PartialEq, Eq, Error)]
pub enum VoiceFault {
    /// It can't announce itself so.
    #[error(transparent)]
    Announcing(AnnounceFault),
    /// A reader's record has more than 60,000 octets, so that no datagram carries it.
    #[error("the record of a reader has more than 60,000 octets")]
    TooLong,
    /// The allocator refused a growth.
    #[error("out of memory")]
    NoMemory,
}

/// What our participant says of itself and of its readers (DDSI-RTPS 8.4.7, 8.5.3, 8.5.4): an
/// announcer, which hears all that comes, and who writes what it says as datagrams. It sends
/// nothing itself.
///
/// A call that is refused memory returns nothing. The voice has failed then: each later call is
/// refused, and changes nothing.
#[derive(Drop)]
pub struct Voice {
    pub(crate) announcer: Announcer,
    pub(crate) speaker: Speaker,
    pub(crate) everyone: Locators,
    /// Whether a call was refused memory. It is also set while one is processed, so that an error
    /// leaves it set.
    pub(crate) failed: bool,
}

impl Voice {
    /// Returns the voice of a participant with this configuration, which has heard nothing but that
    /// its readers are there.
    ///
    /// The errors, of which the first that comes is returned: [`VoiceFault::Announcing`] exactly
    /// where [`Announcing::fault`] finds a fault; [`VoiceFault::TooLong`] where a reader's record
    /// would have more than 60,000 octets; and [`VoiceFault::NoMemory`].
    #[tactic(auto, unfolding(crate::specs::Voice::IsVoiceFault))]
    pub fn new(alloc: Global, config: &Config, announcing: Announcing) -> Result<Voice, VoiceFault>
        ensures begins { OnOk result (fault_of announcing ≡ None) }
        ensures fault { IfErr result (IsVoiceFault (fault_of announcing)) }
        ensures too_long { IfErr result
            (BlamesReader config.now.own config.now.readers.items) }
        ensures heard { IfOk result (λ v. HasHeard (joined_by v) v.announcer) }
        ensures sound { IfOk result (λ v. v.failed ≡ false) }
        ensures rules { IfOk result (λ v. (v.announcer.rules ≡ announcing.rules)
            × (v.everyone ≡ announcing.everyone)) }
        ensures own { IfOk result (λ v. (v.announcer.own ≡ config.now.own)
            × (v.speaker.own ≡ config.now.own) × (v.speaker.here ≡ announcing.here)) }
        ensures readers { IfOk result (λ v. v.speaker.readers.items
            ≡ own_readers config.now.own config.now.readers.items) }
    {
        if let Some(fault) = announcing.fault() {
            return Err(VoiceFault::Announcing(fault));
        }
        let Announcing {
            rules,
            here,
            everyone,
        } = announcing;
        let mut speaker = Speaker::new(alloc, config.own, here);
        match speaker.add_all(alloc, &config.readers) {
            Ok(()) => {}
            Err(RecordFault::TooLong) => return Err(VoiceFault::TooLong),
            Err(RecordFault::NoMemory) => return Err(VoiceFault::NoMemory),
        }
        let mut announcer = Announcer::new(alloc, config.own, rules);
        let Ok(()) = join_all(alloc, &mut announcer, &config.readers) else {
            return Err(VoiceFault::NoMemory);
        };
        Ok(Voice {
            announcer,
            speaker,
            everyone,
            failed: false,
        })
    }

    /// The addresses to which what is for everyone is to be sent.
    pub fn everyone(&self) -> &[Locator]
        ensures { result.now ≡ self.now.everyone }
    {
        self.everyone.as_slice()
    }

    /// Whether a call was refused memory.
    pub fn has_failed(&self) -> bool
        ensures { result ≡ self.now.failed }
    {
        self.failed
    }

    /// Hears a datagram: its moment passes, and then what it says is heard. Returns what is to be
    /// sent by this, in order.
    pub fn hear(
        &mut self,
        alloc: Global,
        datagram: &Datagram<'_>,
    ) -> Result<Vec<Announcement>, AllocError>
        ensures says { IfOk result (λ said. Says (hearings_of self.old.announcer.own
            datagram.now.moment datagram.now.bytes.now) self.old self.new said.items) }
        ensures failed { OnErr result (self.new.failed ≡ true) }
        ensures still { self.old.failed ≡ true → IsErr result × (self.new ≡ self.old) }
        ensures same { IsSameVoice self.old self.new }
    {
        if self.failed {
            return Err(AllocError);
        }
        // Failed until all is done: a `?` leaves it so.
        self.failed = true;
        let mut sends = Vec::new(alloc);
        self.announcer.take(alloc, datagram, &mut sends)?;
        let said = self.speaker.write_all(alloc, sends)?;
        self.failed = false;
        Ok(said)
    }

    /// Has a moment pass, in milliseconds: our participant is announced if that is due, and each
    /// peer is reminded that has to be. Returns what is to be sent by this, in order.
    pub fn pass(&mut self, alloc: Global, moment: u64) -> Result<Vec<Announcement>, AllocError>
        ensures says { IfOk result (λ said. Says (Hearing.Passes moment ∷ []) self.old self.new
            said.items) }
        ensures failed { OnErr result (self.new.failed ≡ true) }
        ensures still { self.old.failed ≡ true → IsErr result × (self.new ≡ self.old) }
        ensures same { IsSameVoice self.old self.new }
    {
        if self.failed {
            return Err(AllocError);
        }
        // Failed until all is done: a `?` leaves it so.
        self.failed = true;
        let mut sends = Vec::new(alloc);
        self.announcer.tick(alloc, moment, &mut sends)?;
        let said = self.speaker.write_all(alloc, sends)?;
        self.failed = false;
        Ok(said)
    }

    /// Returns our farewell, to everyone and to each peer. It changes nothing, so that it may be
    /// said again. `AllocError` where memory is refused, and where an earlier call was refused it.
    pub fn farewell(&self, alloc: Global) -> Result<Vec<Announcement>, AllocError>
        ensures said { IfOk result (λ said. said.items
            ≡ announcements_of self.now.speaker (farewell self.now.announcer.state)) }
        ensures failed { self.now.failed ≡ true → IsErr result }
    {
        if self.failed {
            return Err(AllocError);
        }
        let mut sends = Vec::new(alloc);
        self.announcer.farewell(alloc, &mut sends)?;
        self.speaker.write_all(alloc, sends)
    }
}
