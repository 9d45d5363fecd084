//! Writing values one after another.

ghost use Rattle.std.specs.Prelude.{◌≡◌, ◌+◌, ◌<◌, ◌≤◌, ◌^◌, [], length, IsUtf8, take, is_ok, OnOk, OnErr, if◌then◌else◌};
ghost use Rattle.std.specs.Int.{w8, w16, w32, w64};
ghost use Rattle.rtps_cdr.specs.Cdr.{Unsigned, Signed, Boolean, Text, Octets};
ghost use Rattle.rtps_cdr.specs.Writing.{Output, Writes, appended, field_appended};

use crate::place::gap_before;
use rtps_types::Endian;
use std::alloc::{AllocError, Allocator, Global};
use std::marker::Model;

/// Writes values one after another into a buffer of its own.
///
/// Alignment counts from the first octet, and padding has zeros. When a call runs out of memory,
/// the writer is as it was before.
#[derive(Drop)]
pub struct CdrWriter<A: Allocator = Global> {
    octets: Vec<u8, A>,
    endian: Endian,
}

impl<A: Allocator> Model for CdrWriter<A> {
    ghost Value = { Output };

    ghost view = { λ w. record { octets = w.octets.items; endian = w.endian } };
}

/// The octets of padding.
const ZEROS: [u8; 8] = [0; 8];

impl<A: Allocator> CdrWriter<A> {
    /// Returns an empty writer.
    pub fn new(alloc: A, endian: Endian) -> CdrWriter<A>
        ensures { result ≡ record { octets = []; endian = endian } }
    {
        CdrWriter {
            octets: Vec::new(alloc),
            endian,
        }
    }

    /// Returns the octets that were written.
    pub fn finish(self) -> Vec<u8, A>
        ensures { result.items ≡ self.octets }
    {
        self.octets
    }

    /// Writes a field after its padding.
    #[tactic(auto, using(crate::proofs::Written::zeros))]
    fn append(&mut self, size: usize, field: &[u8]) -> Result<(), AllocError>
        requires some { 0 < size }
        requires small { size ≤ 8 }
        ensures { self.new
            ≡ (if is_ok result then field_appended size field.now self.old else self.old) }
    {
        let start = self.octets.len();
        let (gap, _) = ZEROS.split_at(gap_before(start, size));
        self.octets.extend_from_slice(gap)?;
        if self.octets.extend_from_slice(field).is_err() {
            self.octets.truncate(start);
            return Err(AllocError);
        }
        Ok(())
    }

    /// Writes an unsigned number of 8 bits.
    pub fn write_u8(&mut self, value: u8) -> Result<(), AllocError>
        ensures value { self.new
            ≡ (if is_ok result then appended (Unsigned 1) value self.old else self.old) }
        ensures writes { OnOk result (Writes (Unsigned 1) self.old self.new value) }
    {
        match self.endian {
            Endian::Big => self.append(1, &value.to_be_bytes()),
            Endian::Little => self.append(1, &value.to_le_bytes()),
        }
    }

    /// Writes an unsigned number of 16 bits, aligned to 2 octets.
    pub fn write_u16(&mut self, value: u16) -> Result<(), AllocError>
        ensures value { self.new
            ≡ (if is_ok result then appended (Unsigned 2) value self.old else self.old) }
        ensures writes { OnOk result (Writes (Unsigned 2) self.old self.new value) }
    {
        match self.endian {
            Endian::Big => self.append(2, &value.to_be_bytes()),
            Endian::Little => self.append(2, &value.to_le_bytes()),
        }
    }

    /// Writes an unsigned number of 32 bits, aligned to 4 octets.
    pub fn write_u32(&mut self, value: u32) -> Result<(), AllocError>
        ensures value { self.new
            ≡ (if is_ok result then appended (Unsigned 4) value self.old else self.old) }
        ensures writes { OnOk result (Writes (Unsigned 4) self.old self.new value) }
    {
        match self.endian {
            Endian::Big => self.append(4, &value.to_be_bytes()),
            Endian::Little => self.append(4, &value.to_le_bytes()),
        }
    }

    /// Writes an unsigned number of 64 bits, aligned to 8 octets.
    pub fn write_u64(&mut self, value: u64) -> Result<(), AllocError>
        ensures value { self.new
            ≡ (if is_ok result then appended (Unsigned 8) value self.old else self.old) }
        ensures writes { OnOk result (Writes (Unsigned 8) self.old self.new value) }
    {
        match self.endian {
            Endian::Big => self.append(8, &value.to_be_bytes()),
            Endian::Little => self.append(8, &value.to_le_bytes()),
        }
    }

    /// Writes a signed number of 8 bits.
    pub fn write_i8(&mut self, value: i8) -> Result<(), AllocError>
        ensures value { self.new
            ≡ (if is_ok result then appended (Signed w8) value self.old else self.old) }
        ensures writes { OnOk result (Writes (Signed w8) self.old self.new value) }
    {
        self.write_u8(value.cast_unsigned())
    }

    /// Writes a signed number of 16 bits, aligned to 2 octets.
    pub fn write_i16(&mut self, value: i16) -> Result<(), AllocError>
        ensures value { self.new
            ≡ (if is_ok result then appended (Signed w16) value self.old else self.old) }
        ensures writes { OnOk result (Writes (Signed w16) self.old self.new value) }
    {
        self.write_u16(value.cast_unsigned())
    }

    /// Writes a signed number of 32 bits, aligned to 4 octets.
    pub fn write_i32(&mut self, value: i32) -> Result<(), AllocError>
        ensures value { self.new
            ≡ (if is_ok result then appended (Signed w32) value self.old else self.old) }
        ensures writes { OnOk result (Writes (Signed w32) self.old self.new value) }
    {
        self.write_u32(value.cast_unsigned())
    }

    /// Writes a signed number of 64 bits, aligned to 8 octets.
    pub fn write_i64(&mut self, value: i64) -> Result<(), AllocError>
        ensures value { self.new
            ≡ (if is_ok result then appended (Signed w64) value self.old else self.old) }
        ensures writes { OnOk result (Writes (Signed w64) self.old self.new value) }
    {
        self.write_u64(value.cast_unsigned())
    }

    /// Writes a boolean, as an octet that is 0 or 1.
    pub fn write_bool(&mut self, value: bool) -> Result<(), AllocError>
        ensures value { self.new
            ≡ (if is_ok result then appended Boolean value self.old else self.old) }
        ensures writes { OnOk result (Writes Boolean self.old self.new value) }
    {
        self.append(1, &[u8::from(value)])
    }

    /// Writes the number of items of a sequence, aligned to 4 octets. The items have to be written
    /// after it (CORBA CDR 9.3.2.5).
    pub fn write_len(&mut self, count: u32) -> Result<(), AllocError>
        ensures value { self.new
            ≡ (if is_ok result then appended (Unsigned 4) count self.old else self.old) }
        ensures writes { OnOk result (Writes (Unsigned 4) self.old self.new count) }
    {
        self.write_u32(count)
    }

    /// Writes a string: its length, which counts its NUL, the string and the NUL (CORBA CDR
    /// 9.3.2.7).
    #[tactic(auto, using(crate::proofs::Written::text_writes))]
    pub fn write_string(&mut self, text: &str) -> Result<(), AllocError>
        requires { length text.now + 1 < 2 ^ 32 }
        ensures value { self.new
            ≡ (if is_ok result then appended Text text.now self.old else self.old) }
        ensures writes { OnOk result (Writes Text self.old self.new text.now) }
    {
        let start = self.octets.len();
        let written = self.put_string(text);
        if written.is_err() {
            self.octets.truncate(start);
        }
        written
    }

    /// Writes a string. When memory runs out, a part of it may be left.
    fn put_string(&mut self, text: &str) -> Result<(), AllocError>
        requires { length text.now + 1 < 2 ^ 32 }
        ensures text { IsUtf8 text.now }
        ensures ok { OnOk result (self.new ≡ appended Text text.now self.old) }
        ensures err { OnErr result ((take (length self.old.octets) self.new.octets
            ≡ self.old.octets) × (self.new.endian ≡ self.old.endian)) }
    {
        self.write_u32(text.len() as u32 + 1)?;
        self.octets.extend_from_slice(text.as_bytes())?;
        Ok(self.octets.push(0)?)
    }

    /// Writes octets as they are, without padding or a length.
    pub fn write_octets(&mut self, octets: &[u8]) -> Result<(), AllocError>
        ensures value { self.new
            ≡ (if is_ok result then appended (Octets
            (length octets.now)) octets.now self.old else self.old) }
        ensures writes { OnOk result (Writes (Octets
            (length octets.now)) self.old self.new octets.now) }
    {
        self.append(1, octets)
    }
}
