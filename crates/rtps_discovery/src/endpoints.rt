//! Applying the announcements of writers and of readers (DDSI-RTPS 8.5.4).

ghost use Rattle.std.specs.Prelude.{◌≡◌, List, OnOk, map};
ghost use Rattle.rtps_discovery.specs.Announcement as announcement;
ghost use Rattle.rtps_discovery.specs.Changes.{ChangeAt};
ghost use Rattle.rtps_discovery.specs.Kept.{Applies, kept};
ghost use Rattle.rtps_discovery.specs.Seen.{change_seen, offer_seen};

use crate::announcement::Offer;
use crate::changes::MatchChange;
use crate::hear::put_ranks;
use crate::known::Writer;
use crate::registry::Registry;
use rtps_types::Guid;
use std::alloc::{AllocError, Allocator};

impl<A: Allocator + Copy> Registry<A> {
    /// Adds a writer, or changes what it offers.
    pub fn offer(
        &mut self,
        alloc: A,
        writer: Guid,
        offer: Offer<'_>,
        changes: &mut Vec<MatchChange<A>, A>,
    ) -> Result<(), AllocError>
        ensures { OnOk result (Applies (announcement.Offers writer (offer_seen offer.entry))
            (kept self.old) (kept self.new) (map change_seen changes.old.items)
            (map change_seen changes.new.items)) }
    {
        let offered = Writer::of_offer(alloc, offer)?;
        let ranks = self.hear(alloc, writer, Some(&offered), changes)?;
        put_ranks(&mut self.ranks, writer, ranks)?;
        match self.writers.insert(writer, offered) {
            Ok(_) => Ok(()),
            Err(_) => Err(AllocError),
        }
    }

    /// Removes a writer.
    pub fn withdraw(
        &mut self,
        alloc: A,
        writer: Guid,
        changes: &mut Vec<MatchChange<A>, A>,
    ) -> Result<(), AllocError>
        ensures { OnOk result (Applies (announcement.Withdraws writer) (kept self.old)
            (kept self.new) (map change_seen changes.old.items)
            (map change_seen changes.new.items)) }
    {
        let ranks = self.hear(alloc, writer, None, changes)?;
        put_ranks(&mut self.ranks, writer, ranks)?;
        self.writers.remove(&writer);
        Ok(())
    }

    /// Adds a remote reader, if it isn't known.
    pub fn ask(&mut self, reader: Guid) -> Result<(), AllocError>
        ensures { (earlier : List ChangeAt) → OnOk result (Applies (announcement.Asks reader)
            (kept self.old) (kept self.new) earlier earlier) }
    {
        match self.remote_readers.insert(reader, ()) {
            Ok(_) => Ok(()),
            Err(_) => Err(AllocError),
        }
    }

    /// Removes a remote reader.
    pub fn ask_no_more(&mut self, reader: Guid)
        ensures { (earlier : List ChangeAt) → Applies (announcement.AsksNoMore reader)
            (kept self.old) (kept self.new) earlier earlier }
    {
        self.remote_readers.remove(&reader);
    }
}
