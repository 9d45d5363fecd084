//! A struct whose key has a maximum size of six octets.

ghost use Rattle.std.specs.Prelude.{◌<◌, ◌^◌, [], refl};
ghost use Rattle.rtps_cdr.specs.Cdr.{Both, Signed, Unsigned};
ghost use Rattle.std.specs.Int.{w32};

use crate::{KeyMember, Member, Structure, copy_member};
use dds_topic::CatalogError;
use rtps_cdr::{CdrReader, CdrWriter};
use std::alloc::{AllocError, Allocator, Global};

/// `struct Point { @key unsigned long station; @key unsigned short channel; long level; };`
#[derive(Drop)]
pub struct Point {
    pub station: u32,
    pub channel: u16,
    pub level: i32,
    ghost station_fits: { station < 256 ^ 4 },
    ghost channel_fits: { channel < 256 ^ 2 },
}

impl Structure for Point {
    ghost cdr = { Both (Unsigned 4) (Both (Unsigned 2) (Signed w32)) };

    ghost key_cdr = { Both (Unsigned 4) (Unsigned 2) };

    ghost view = { λ p. (p.station, (p.channel, p.level)) };

    ghost key = { λ v. (v.0, v.1.0) };

    ghost text = { λ _. [] };

    fn read(alloc: Global, reader: &mut CdrReader<'_>) -> Result<Point, CatalogError> {
        let (station, (channel, level)) = Member::read(alloc, reader)?;
        Ok(Point {
            station,
            channel,
            level,
        })
    }

    fn key_is_short() -> bool {
        true
    }

    fn write_key<A: Allocator>(&self, writer: &mut CdrWriter<A>) -> Result<(), AllocError> {
        self.station.write(writer)?;
        self.channel.write(writer)
    }

    fn copy_key<A: Allocator>(
        alloc: Global,
        reader: &mut CdrReader<'_>,
        writer: &mut CdrWriter<A>,
    ) -> Result<(), CatalogError> {
        copy_member::<(u32, u16), A>(alloc, reader, writer)
    }

    fn push_text<A: Allocator>(&self, _: &mut Vec<u8, A>) -> Result<(), AllocError> {
        Ok(())
    }

    ghost key_is_plain = { refl };

    ghost key_fits = { λ p. (p.station_fits, p.channel_fits) };
}
