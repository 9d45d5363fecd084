//! What is said, as octets.

ghost use Rattle.std.specs.Prelude.{◌≡◌, ◌+◌, ◌≤◌, ◌++◌, ◌∷◌, [], IfErr, IfOk, OnErr, OnOk, vec_capacity, vec_len};
ghost use Rattle.rtps_discovery.specs.Start.{wish_of};
ghost use Rattle.rtps_announcement.specs.Fault.{IsTooLong};
ghost use Rattle.rtps_announcement.specs.Reader.{reader_record};
ghost use Rattle.dds_announced.specs.Speaker.{BlamesLong, announced, announcements as announcements_of, beat_octets, own_reader, own_readers, prefix_of, said_octets, told_octets, void_octets};

use crate::announcement::Announcement;
use rtps_announcement::{
    Presence, ReaderRecord, RecordFault, write_gap, write_heartbeat, write_participant,
    write_participant_gone, write_reader, write_reader_gone,
};
use rtps_announcer::{Change, Destination, Said, Sending};
use rtps_discovery::ReaderConfig;
use rtps_types::{EntityId, GuidPrefix, MAX_NUMBER, Number, Octets};
use std::alloc::{AllocError, Global};

/// A reader of ours, as it is announced.
#[derive(Debug, Drop)]
pub struct OwnReader {
    /// By this its end is announced.
    pub(crate) entity: EntityId,
    /// By this it is announced itself: made once, and copied into each datagram.
    pub(crate) announced: ReaderRecord,
}

/// Who speaks: our participant and, by rank, its readers, those that went too.
#[derive(Debug, Drop)]
pub struct Speaker {
    pub(crate) own: GuidPrefix,
    pub(crate) here: Presence,
    pub(crate) readers: Vec<OwnReader>,
}

impl Speaker {
    /// Returns the participant `own`, which is reached here and has no readers. It takes no memory.
    pub fn new(alloc: Global, own: GuidPrefix, here: Presence) -> Speaker
        ensures own { result.own ≡ own }
        ensures here { result.here ≡ here }
        ensures readers { result.readers.items ≡ [] }
    {
        Speaker {
            own,
            here,
            readers: Vec::new(alloc),
        }
    }

    /// Appends a reader. Its rank is the number of readers before it. `TooLong` where its record
    /// would have more than 60,000 octets, and `NoMemory` where memory is refused; either leaves
    /// the readers as they were.
    pub fn add_reader(&mut self, alloc: Global, reader: &ReaderConfig) -> Result<(), RecordFault>
        ensures added { OnOk result (self.new.readers.items
            ≡ self.old.readers.items ++ own_reader self.old.own (wish_of reader.now) ∷ []) }
        ensures refused { OnErr result (self.new.readers.items ≡ self.old.readers.items) }
        ensures too_long { IsTooLong result (reader_record self.old.own (wish_of reader.now)) }
        ensures same { (self.new.own ≡ self.old.own) × (self.new.here ≡ self.old.here) }
    {
        let announced = ReaderRecord::new(alloc, self.own, reader)?;
        let entity = reader.entity;
        match self.readers.push(OwnReader { entity, announced }) {
            Ok(()) => Ok(()),
            Err(_) => Err(RecordFault::NoMemory),
        }
    }

    /// Appends readers, in order. The error is that of the first that can't be appended; the
    /// readers before it stay appended.
    #[tactic(auto, unfolding(crate::specs::Speaker::own_readers))]
    pub fn add_all(&mut self, alloc: Global, readers: &[ReaderConfig]) -> Result<(), RecordFault>
        ensures added { OnOk result (self.new.readers.items ≡ self.old.readers.items
            ++ own_readers self.old.own readers.now) }
        ensures too_long { IfErr result (BlamesLong self.old.own readers.now) }
        ensures same { (self.new.own ≡ self.old.own) × (self.new.here ≡ self.old.here) }
    {
        for reader in readers {
            self.add_reader(alloc, reader)?;
        }
        Ok(())
    }

    /// Returns the datagrams by which all of this is said, one after the other. Nothing is written
    /// of what can't be said: of a rank that wasn't given, of a number that no change has, or to
    /// everyone what is for one participant. `AllocError` where memory is refused.
    pub fn write_all(
        &self,
        alloc: Global,
        sends: Vec<Sending>,
    ) -> Result<Vec<Announcement>, AllocError>
        ensures { IfOk result (λ more. more.items ≡ announcements_of self.now sends.items) }
    {
        let mut more = Vec::new(alloc);
        for sending in sends {
            if let Some(announcement) = self.write(alloc, sending)? {
                more.push(announcement)?;
            }
        }
        Ok(more)
    }

    /// Returns the same, once there is room for it at the end of `announcements`.
    pub(crate) fn write_for(
        &self,
        alloc: Global,
        sends: Vec<Sending>,
        announcements: &mut Vec<Announcement>,
    ) -> Result<Vec<Announcement>, AllocError>
        ensures more { IfOk result (λ more. more.items ≡ announcements_of self.now sends.items) }
        ensures room { IfOk result (λ more.
            vec_len announcements.new + vec_len more ≤ vec_capacity announcements.new) }
        ensures same { announcements.new.items ≡ announcements.old.items }
    {
        let more = self.write_all(alloc, sends)?;
        announcements.reserve(more.len())?;
        Ok(more)
    }

    /// Returns the datagram by which one thing is said, if it can be.
    pub fn write(&self, alloc: Global, sending: Sending) -> Result<Option<Announcement>, AllocError>
        ensures { IfOk result (λ written. written ≡ announced self.now sending) }
    {
        let Sending { to, said } = sending;
        match self.octets_of(alloc, prefix_of(&to), said)? {
            Some(octets) => Ok(Some(Announcement { to, octets })),
            None => Ok(None),
        }
    }

    /// Returns the octets by which something is said to the participant `to`, or to everyone.
    fn octets_of(
        &self,
        alloc: Global,
        to: Option<GuidPrefix>,
        said: Said,
    ) -> Result<Option<Octets>, AllocError>
        ensures { IfOk result (λ octets. octets ≡ said_octets self.now to said) }
    {
        match said {
            Said::Bye => Ok(Some(write_participant_gone(alloc, self.own, to)?)),
            Said::Hello => Ok(Some(write_participant(alloc, self.own, to, self.here)?)),
            Said::Told(number, change) => match to {
                Some(to) => self.told(alloc, to, number, change),
                None => Ok(None),
            },
            Said::Void(first, last) => match to {
                Some(to) => self.void(alloc, to, first, last),
                None => Ok(None),
            },
            Said::Beat(last, count) => match to {
                Some(to) => self.beat(alloc, to, last, count),
                None => Ok(None),
            },
        }
    }

    /// Returns the octets of a change.
    fn told(
        &self,
        alloc: Global,
        to: GuidPrefix,
        number: u64,
        change: Change,
    ) -> Result<Option<Octets>, AllocError>
        ensures { IfOk result (λ octets. octets ≡ told_octets self.now to number change) }
    {
        let Some(number) = Number::new(number) else {
            return Ok(None);
        };
        match change {
            Change::Asks(rank) => match self.readers.get(rank as usize) {
                Some(reader) => Ok(Some(write_reader(
                    alloc,
                    self.own,
                    to,
                    number,
                    &reader.announced,
                )?)),
                None => Ok(None),
            },
            Change::Ends(rank) => match self.readers.get(rank as usize) {
                Some(reader) => Ok(Some(write_reader_gone(
                    alloc,
                    self.own,
                    to,
                    number,
                    reader.entity,
                )?)),
                None => Ok(None),
            },
        }
    }

    /// Returns the octets of a GAP.
    fn void(
        &self,
        alloc: Global,
        to: GuidPrefix,
        first: u64,
        last: u64,
    ) -> Result<Option<Octets>, AllocError>
        ensures { IfOk result (λ octets. octets ≡ void_octets self.now.own to first last) }
    {
        let Some(first) = Number::new(first) else {
            return Ok(None);
        };
        let Some(last) = Number::new(last) else {
            return Ok(None);
        };
        Ok(Some(write_gap(alloc, self.own, to, first, last)?))
    }

    /// Returns the octets of a HEARTBEAT.
    fn beat(
        &self,
        alloc: Global,
        to: GuidPrefix,
        last: u64,
        count: u32,
    ) -> Result<Option<Octets>, AllocError>
        ensures { IfOk result (λ octets. octets ≡ beat_octets self.now.own to last count) }
    {
        if last > MAX_NUMBER {
            return Ok(None);
        }
        Ok(Some(write_heartbeat(alloc, self.own, to, last, count)?))
    }
}

/// The participant that something is for, or `None` where it is for everyone.
fn prefix_of(to: &Destination) -> Option<GuidPrefix>
    ensures { result ≡ prefix_of to.now }
{
    match to {
        Destination::Everyone => None,
        Destination::Peer(prefix, _) => Some(*prefix),
    }
}
