//! The records that a batch holds.

ghost use Rattle.std.specs.Prelude.{◌≡◌, ◌+◌, ◌<◌, ◌≤◌, ◌↔◌, [], ◌∷◌, All, IfErr, IfOk, IsOk, IsTrue, MatchOption, None, OnErr, OnOk, drop, false, length, map, take, true, vec_len};
ghost use Rattle.std.specs.Io.KnownBytes.{};
ghost use Rattle.rtps_records.specs.Batches.{datagrams_in, record_of, records_in};
ghost use Rattle.rtps_records.specs.Heads.{ReadsHead};
ghost use Rattle.rtps_records.specs.RecordFile.{FaultHere, Tick};
ghost use Rattle.rtps_records.specs.Steps.{ReadsOne};

use crate::batch::{Batch, MAX_LEN, ROOM};
use crate::batch_end::BatchEnd;
use crate::fault::RunFault;
use crate::format::Format;
use crate::head::Head;
use crate::records::read_record;
use rtps_types::Datagram;
use std::alloc::{AllocError, Allocator};
use std::io::Read;

/// The buffer of a batch grows by this many octets at a time.
const STEP: usize = 65_536;

/// Reads the record with this number, counted from 0: the octets of a datagram into `octets` after
/// the first `used` ones. Returns the rest of the record, or `None` where the file ends.
fn read_after<R: Read>(
    reader: &mut R,
    format: Format,
    octets: &mut [u8],
    used: usize,
    number: u32,
) -> Result<Option<Head>, RunFault>
    requires { used + 65507 ≤ length octets.old }
    ensures length { length octets.new ≡ length octets.old }
    ensures same { take used octets.new ≡ take used octets.old }
    ensures reads { IfOk result (λ next. ReadsHead format next number
        (R.remaining reader.old) (R.remaining reader.new) (drop used octets.new)) }
    ensures fault { IfErr result (λ fault. FaultHere format fault number
        (R.remaining reader.old) (R.remaining reader.new)) }
{
    let (_, room) = octets.split_at_mut(used);
    read_record(reader, format, room, number)
}

impl<A: Allocator + Copy> Batch<A> {
    /// Returns an empty batch. No memory is taken yet, so there is no error.
    pub fn new(alloc: A) -> Result<Batch<A>, AllocError>
        ensures ok { IsOk result }
        ensures none { IfOk result (λ b. records_in b ≡ []) }
    {
        Ok(Batch {
            octets: Vec::new(alloc),
            pieces: Vec::new(alloc),
            used: 0,
            tick: None,
        })
    }
}

impl<A: Allocator> Batch<A> {
    /// Removes the records, and keeps the room.
    pub fn clear(&mut self)
        ensures { records_in self.new ≡ [] }
    {
        self.pieces.clear();
        self.used = 0;
        self.tick = None;
    }

    /// Replaces the records by a tick at this moment, in milliseconds, and keeps the room.
    pub fn hold_tick(&mut self, moment: u64)
        ensures { records_in self.new ≡ Tick moment ∷ [] }
    {
        self.clear();
        self.tick = Some(moment);
    }

    /// Returns the moment of the tick, in milliseconds, if the batch is one. Else it has datagrams
    /// alone.
    pub fn tick(&self) -> Option<u64>
        ensures { MatchOption result (records_in self.now ≡ datagrams_in self.now)
            (λ moment. records_in self.now ≡ Tick moment ∷ []) }
    {
        self.tick
    }

    /// Returns the number of records.
    pub fn len(&self) -> usize
        ensures { result ≡ length (records_in self.now) }
    {
        match self.tick {
            Some(_) => 1,
            None => self.pieces.len(),
        }
    }

    /// Whether there are no records.
    pub fn is_empty(&self) -> bool
        ensures { IsTrue result ↔ (length (records_in self.now) ≡ 0) }
    {
        self.len() == 0
    }

    /// Whether there is room for one more datagram of the greatest length.
    pub(crate) fn has_room(&self) -> bool
        ensures yes { result ≡ true → self.now.used + 65507 ≤ 1048576 }
        ensures no { result ≡ false → 1048576 < self.now.used + 65507 }
    {
        self.used + MAX_LEN <= ROOM
    }

    /// Lengthens the buffer where it is too short for one more datagram of the greatest length. An
    /// error is a refused growth. The records stay.
    #[tactic(auto, using(crate::proofs::Cuts::lengthened))]
    pub(crate) fn make_room(&mut self) -> Result<(), AllocError>
        requires room { self.old.used + 65507 ≤ 1048576 }
        ensures room { OnOk result (self.new.used + 65507 ≤ vec_len self.new.octets) }
        ensures used { self.new.used ≡ self.old.used }
        ensures tick { self.new.tick ≡ self.old.tick }
        ensures same { records_in self.new ≡ records_in self.old }
    {
        let needed = self.used + MAX_LEN;
        if self.octets.len() >= needed {
            return Ok(());
        }
        let length = ((needed / STEP + 1) * STEP).min(ROOM);
        self.octets.resize(length, 0)
    }

    /// Reads the next record of a file, with this number, counted from 0. A datagram is appended:
    /// [`BatchEnd::More`]. At a tick, at the end of the file or at a fault nothing is appended. An
    /// error is a refused growth, and then nothing is read.
    pub(crate) fn read<R: Read>(
        &mut self,
        reader: &mut R,
        format: Format,
        number: u32,
    ) -> Result<BatchEnd, AllocError>
        requires room { self.old.used + 65507 ≤ 1048576 }
        requires datagrams { self.old.tick ≡ None }
        ensures datagrams { self.new.tick ≡ None }
        ensures reads { IfOk result (λ end. ReadsOne format end number
            (R.remaining reader.old) (R.remaining reader.new)
            (records_in self.old) (records_in self.new)) }
        ensures unread { OnErr result (R.remaining reader.new ≡ R.remaining reader.old) }
        ensures same { OnErr result (records_in self.new ≡ records_in self.old) }
    {
        self.make_room()?;
        self.read_here(reader, format, number)
    }

    /// The same where the buffer is long enough.
    #[tactic(auto, unfolding(crate::specs::Steps::ReadsOne))]
    fn read_here<R: Read>(
        &mut self,
        reader: &mut R,
        format: Format,
        number: u32,
    ) -> Result<BatchEnd, AllocError>
        requires room { self.old.used + 65507 ≤ vec_len self.old.octets }
        requires datagrams { self.old.tick ≡ None }
        ensures datagrams { self.new.tick ≡ None }
        ensures reads { IfOk result (λ end. ReadsOne format end number
            (R.remaining reader.old) (R.remaining reader.new)
            (records_in self.old) (records_in self.new)) }
        ensures unread { OnErr result (R.remaining reader.new ≡ R.remaining reader.old) }
        ensures same { OnErr result (records_in self.new ≡ records_in self.old) }
    {
        self.pieces.reserve(1)?;
        match read_after(
            reader,
            format,
            self.octets.as_mut_slice(),
            self.used,
            number,
        ) {
            Ok(Some(Head::Datagram(piece))) => {
                self.pieces.push(piece)?;
                self.used += piece.length;
                Ok(BatchEnd::More)
            }
            Ok(Some(Head::Tick(moment))) => Ok(BatchEnd::Tick(moment)),
            Ok(None) => Ok(BatchEnd::End),
            Err(fault) => Ok(BatchEnd::Fault(fault)),
        }
    }

    /// Returns the datagrams of the batch, in order; none if it is a tick. An error is a refused
    /// growth.
    pub fn datagrams<B: Allocator>(&self, alloc: B) -> Result<Vec<Datagram<'_>, B>, AllocError>
        ensures are { IfOk result (λ datagrams.
            map record_of datagrams.items ≡ datagrams_in self.now) }
        ensures fit { IfOk result (λ datagrams.
            All (λ d. length d.bytes.now ≤ 65507) datagrams.items) }
    {
        let mut datagrams = Vec::with_capacity(alloc, self.pieces.len())?;
        let mut rest = self.octets.as_slice();
        for piece in &self.pieces {
            let (bytes, more) = rest.split_at(piece.length);
            datagrams.push(Datagram {
                moment: piece.moment,
                bytes,
            })?;
            rest = more;
        }
        Ok(datagrams)
    }
}
