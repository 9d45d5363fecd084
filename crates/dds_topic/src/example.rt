//! An example of a user's catalog: a type with two key fields,
//! `struct Sensor { @key unsigned long station; @key unsigned long channel; long value; }`.

ghost use Rattle.std.specs.Prelude.{◌≡◌, ◌<◌, ◌^◌, ℕ, ℤ, [], IfOk};
ghost use Rattle.dds_topic.specs.SensorMeaning.{key_of, hash_of, sensor_decoding, sensor_key_again};
ghost use Rattle.dds_topic.specs.Answer.{Gives};

use crate::{Catalog, CatalogError, byte_order};
use rtps_cdr::{CdrReader, CdrWriter};
use rtps_types::{Endian, KeyHash, put_u32};
use std::alloc::{AllocError, Global};

#[derive(Debug, Drop)]
pub struct Sensor {
    pub station: u32,
    pub channel: u32,
    pub value: i32,
    ghost station_fits: { station < 2 ^ 32 },
    ghost channel_fits: { channel < 2 ^ 32 },
}

#[derive(Drop)]
pub struct Sensors;

impl Catalog for Sensors {
    type Value = Sensor;

    type Memo = ();

    ghost Meaning = { ℕ × ℕ × ℤ };

    ghost view = { λ s. (s.station, s.channel, s.value) };

    ghost decoding = { λ _. sensor_decoding };

    ghost key = { λ _ s. key_of s };

    ghost text_of = { λ _ _. [] };

    fn decode(&self, _: Global, kind: u16, body: &[u8]) -> Result<Sensor, CatalogError> {
        let mut reader = CdrReader::new(body, byte_order(kind)?);
        let station = reader.read_u32()?;
        let channel = reader.read_u32()?;
        let value = reader.read_i32()?;
        Ok(Sensor {
            station,
            channel,
            value,
        })
    }

    fn decode_keyed(
        &self,
        _: &mut (),
        alloc: Global,
        kind: u16,
        body: &[u8],
    ) -> Result<(KeyHash, Sensor), CatalogError> {
        let value = self.decode(alloc, kind, body)?;
        Ok((padded(value.station, value.channel), value))
    }

    fn key_of(&self, _: Global, value: &Sensor) -> Result<KeyHash, AllocError> {
        Ok(padded(value.station, value.channel))
    }

    fn key_payload(&self, alloc: Global, value: &Sensor) -> Result<Vec<u8>, AllocError> {
        let mut writer = CdrWriter::new(alloc, Endian::Little);
        writer.write_u32(value.station)?;
        writer.write_u32(value.channel)?;
        Ok(writer.finish())
    }

    fn key_of_payload(&self, _: Global, kind: u16, body: &[u8]) -> Result<KeyHash, CatalogError> {
        let mut reader = CdrReader::new(body, byte_order(kind)?);
        Ok(padded(reader.read_u32()?, reader.read_u32()?))
    }

    ghost key_again = { λ _ v.
        sensor_key_again v.station v.channel v.value v.station_fits v.channel_fits };
}

/// Returns the hash of a key: its eight octets, big-endian, and then zeros.
fn padded(station: u32, channel: u32) -> KeyHash
    ensures { result ≡ hash_of station channel }
{
    let mut octets = [0; 16];
    put_u32(&mut octets, 0, Endian::Big, station);
    put_u32(&mut octets, 4, Endian::Big, channel);
    KeyHash(octets)
}
