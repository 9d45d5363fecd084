//! The data type of an application: a sensor's reading.

ghost use Rattle.std.specs.Prelude.{◌≡◌, ◌++◌, ◌<◌, ◌^◌, OnOk, refl};
ghost use Rattle.std.specs.String.{string_bytes};
ghost use Rattle.rtps_cdr.specs.Cdr.{Unsigned};
ghost use Rattle.examples.specs.Reading.{reading_cdr, reading_text};

use dds_struct::{KeyMember, Member, Structure, copy_member};
use dds_topic::CatalogError;
use rtps_ascii::{push_hex, push_number, push_octet};
use rtps_cdr::{CdrReader, CdrWriter};
use std::alloc::{AllocError, Allocator, Global};

/// `struct Reading { @key unsigned long station; unsigned long long taken; string place;
/// sequence<short> levels; };`
#[derive(Drop)]
pub struct Reading {
    pub station: u32,
    pub taken: u64,
    pub place: String,
    pub levels: Vec<i16>,
    ghost station_fits: { station < 256 ^ 4 },
}

impl Structure for Reading {
    ghost cdr = { reading_cdr };

    ghost key_cdr = { Unsigned 4 };

    ghost view = { λ r. (r.station, (r.taken, (string_bytes r.place, r.levels.items))) };

    ghost key = { λ v. v.0 };

    ghost text = { reading_text };

    #[tactic(auto, using(dds_struct::proofs::Texts::same_items))]
    fn read(alloc: Global, reader: &mut CdrReader<'_>) -> Result<Reading, CatalogError> {
        let (station, (taken, (place, levels))) = Member::read(alloc, reader)?;
        Ok(Reading {
            station,
            taken,
            place,
            levels,
        })
    }

    fn key_is_short() -> bool {
        true
    }

    fn write_key<A: Allocator>(&self, writer: &mut CdrWriter<A>) -> Result<(), AllocError> {
        self.station.write(writer)
    }

    fn copy_key<A: Allocator>(
        alloc: Global,
        reader: &mut CdrReader<'_>,
        writer: &mut CdrWriter<A>,
    ) -> Result<(), CatalogError> {
        copy_member::<u32, A>(alloc, reader, writer)
    }

    fn push_text<A: Allocator>(&self, out: &mut Vec<u8, A>) -> Result<(), AllocError> {
        push_number(out, u64::from(self.station))?;
        push_octet(out, b' ')?;
        push_number(out, self.taken)?;
        push_octet(out, b' ')?;
        push_hex(out, self.place.as_bytes())?;
        push_octet(out, b' ')?;
        push_number(out, self.levels.len() as u64)
    }

    ghost key_is_plain = { refl };

    ghost key_fits = { λ r. r.station_fits };
}
