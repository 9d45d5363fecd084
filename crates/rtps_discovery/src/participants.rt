//! Applying the announcements of participants (DDSI-RTPS 8.5.3).

ghost use Rattle.std.specs.Prelude.{◌≡◌, List, None, OnOk};
ghost use Rattle.rtps_proxy.specs.Matches.{AllStand, Match};
ghost use Rattle.rtps_discovery.specs.Announcement as announcement;
ghost use Rattle.rtps_discovery.specs.Changes.{ChangeAt};
ghost use Rattle.rtps_discovery.specs.Kept.{Applies, kept, participant_in};
ghost use Rattle.rtps_discovery.specs.Known.{announcer, heard_at, publications_reader, publications_writer, subscriptions_reader, subscriptions_writer, where_announced};
ghost use Rattle.rtps_discovery.specs.Seen.{facts_seen};

use crate::addressed::{
    ENTITYID_SEDP_BUILTIN_PUBLICATIONS_ANNOUNCER, ENTITYID_SEDP_BUILTIN_PUBLICATIONS_DETECTOR,
    ENTITYID_SEDP_BUILTIN_SUBSCRIPTIONS_ANNOUNCER, ENTITYID_SEDP_BUILTIN_SUBSCRIPTIONS_DETECTOR,
};
use crate::announcement::Facts;
use crate::known::{RemoteParticipant, collected};
use crate::leases::deadline;
use crate::registry::Registry;
use rtps_proxy::{Matches, ProxyConfig};
use rtps_types::{EntityId, Guid, GuidPrefix, Locator, Locators};
use std::alloc::{AllocError, Allocator};

/// A builtin reader of ours, and the announcer of a remote participant that writes to it.
#[derive(Clone, Copy)]
struct Link {
    own: GuidPrefix,
    prefix: GuidPrefix,
    writer: EntityId,
    reader: EntityId,
    /// Whether the participant has this announcer.
    announces: bool,
}

/// Begins the match of a builtin reader with an announcer, if the participant has this announcer.
fn begin_where<A: Allocator + Copy>(
    alloc: A,
    link: Link,
    metatraffic: &[Locator],
    announcers: &mut Matches<A>,
) -> Result<(), AllocError>
    ensures { (ms : List Match) → AllStand ms announcers.old
        → OnOk result (AllStand (where_announced link.announces (announcer link.own link.prefix
        link.writer link.reader metatraffic.now) ms) announcers.new) }
{
    if !link.announces {
        return Ok(());
    }
    let config = ProxyConfig {
        own: link.own,
        writer: Guid {
            prefix: link.prefix,
            entity: link.writer,
        },
        reader: link.reader,
        reliable: true,
        locators: Locators::copied(alloc, metatraffic)?,
    };
    announcers.begin(alloc, config)
}

/// Returns our builtin reader of writers, with the announcer of a participant's writers.
fn publications(own: GuidPrefix, prefix: GuidPrefix, announces: bool) -> Link
    ensures { result ≡ record {
      own = own;
      prefix = prefix;
      writer = publications_writer;
      reader = publications_reader;
      announces = announces;
    } }
{
    Link {
        own,
        prefix,
        writer: ENTITYID_SEDP_BUILTIN_PUBLICATIONS_ANNOUNCER,
        reader: ENTITYID_SEDP_BUILTIN_PUBLICATIONS_DETECTOR,
        announces,
    }
}

/// Returns our builtin reader of readers, with the announcer of a participant's readers.
fn subscriptions(own: GuidPrefix, prefix: GuidPrefix, announces: bool) -> Link
    ensures { result ≡ record {
      own = own;
      prefix = prefix;
      writer = subscriptions_writer;
      reader = subscriptions_reader;
      announces = announces;
    } }
{
    Link {
        own,
        prefix,
        writer: ENTITYID_SEDP_BUILTIN_SUBSCRIPTIONS_ANNOUNCER,
        reader: ENTITYID_SEDP_BUILTIN_SUBSCRIPTIONS_DETECTOR,
        announces,
    }
}

impl<A: Allocator + Copy> RemoteParticipant<A> {
    /// Replaces what this participant announced of itself by what it announces now, at this moment,
    /// in milliseconds: its default locators and its lease. No match changes by it. An error is a
    /// refused growth, and then nothing is replaced.
    fn hear(&mut self, alloc: A, facts: Facts<'_>, moment: u64) -> Result<(), AllocError>
        ensures { OnOk result (self.new ≡ heard_at moment (facts_seen facts.entry)) }
    {
        self.locators = collected(alloc, facts.locators)?;
        self.lease = facts.lease;
        self.heard = moment;
        Ok(())
    }
}

impl<A: Allocator + Copy> Registry<A> {
    /// Adds a participant, and matches our builtin readers with its announcers.
    fn welcome(&mut self, alloc: A, prefix: GuidPrefix, facts: Facts<'_>) -> Result<(), AllocError>
        requires { participant_in prefix (kept self.old).participants ≡ None }
        ensures { (earlier : List ChangeAt) → OnOk result (Applies
            (announcement.Comes prefix (facts_seen facts.entry)) (kept self.old) (kept self.new)
            earlier earlier) }
    {
        let metatraffic = collected(alloc, facts.metatraffic)?;
        let to = metatraffic.as_slice();
        let writers = publications(self.own, prefix, facts.announces_writers);
        begin_where(alloc, writers, to, &mut self.announcers)?;
        let readers = subscriptions(self.own, prefix, facts.announces_readers);
        begin_where(alloc, readers, to, &mut self.announcers)?;
        let participant = RemoteParticipant {
            locators: collected(alloc, facts.locators)?,
            lease: facts.lease,
            heard: self.moment,
        };
        self.leases
            .begin(prefix, deadline(participant.heard, participant.lease))?;
        match self.participants.insert(prefix, participant) {
            Ok(_) => Ok(()),
            Err(_) => Err(AllocError),
        }
    }

    /// Applies the record of a participant. A new participant is added, and our builtin readers are
    /// matched with its announcers. For a known one only its default locators, its lease and the
    /// moment at which it was heard are updated.
    pub fn come(&mut self, alloc: A, prefix: GuidPrefix, facts: Facts<'_>) -> Result<(), AllocError>
        ensures { (earlier : List ChangeAt) → OnOk result (Applies
            (announcement.Comes prefix (facts_seen facts.entry)) (kept self.old) (kept self.new)
            earlier earlier) }
    {
        let Some(known) = self.participants.get_mut(&prefix) else {
            return self.welcome(alloc, prefix, facts);
        };
        let earlier = deadline(known.heard, known.lease);
        let last = deadline(self.moment, facts.lease);
        known.hear(alloc, facts, self.moment)?;
        self.leases.renew(prefix, earlier, last)?;
        Ok(())
    }
}
