//! A struct whose key has no maximum size.

ghost use Rattle.std.specs.Prelude.{◌≡◌, ◌<◌, ◌+◌, ◌^◌, length, true, refl};
ghost use Rattle.dds_struct.specs.Texts.{text_view, text_fits};
ghost use Rattle.dds_struct.specs.Log.{log_cdr, log_key_cdr, log_key};

use crate::{KeyMember, Member, Structure, Text, copy_member};
use dds_topic::{CatalogError, Unread};
use rtps_cdr::{CdrReader, CdrWriter};
use std::alloc::{AllocError, Allocator, Global};

/// `struct Log { boolean open; octet level; short shift; unsigned long count; long long at;
/// @key string name; @key unsigned short part; sequence<unsigned long> marks; };`
#[derive(Drop)]
pub struct Log {
    pub open: bool,
    pub level: u8,
    pub shift: i16,
    pub count: u32,
    pub at: i64,
    pub name: Text,
    pub part: u16,
    pub marks: Vec<u32>,
    ghost part_fits: { part < 256 ^ 2 },
}

impl Structure for Log {
    ghost cdr = { log_cdr };

    ghost key_cdr = { log_key_cdr };

    ghost view = { λ l. (
      l.open,
      (
        l.level,
        (
          l.shift,
          (
            l.count,
            (l.at, (text_view l.name, (l.part, l.marks.items))),
          ),
        ),
      ),
    ) };

    ghost key = { log_key };

    ghost text = { λ v. v.1.1.1.1.1.0 };

    #[tactic(auto, using(crate::proofs::Texts::same_items))]
    fn read(alloc: Global, reader: &mut CdrReader<'_>) -> Result<Log, CatalogError> {
        let (open, (level, (shift, (count, (at, (name, (part, marks))))))) = Member::read(
            alloc, reader,
        )?;
        Ok(Log {
            open,
            level,
            shift,
            count,
            at,
            name,
            part,
            marks,
        })
    }

    fn key_is_short() -> bool {
        false
    }

    fn write_key<A: Allocator>(&self, writer: &mut CdrWriter<A>) -> Result<(), AllocError> {
        self.name.write(writer)?;
        self.part.write(writer)
    }

    fn copy_key<A: Allocator>(
        alloc: Global,
        reader: &mut CdrReader<'_>,
        writer: &mut CdrWriter<A>,
    ) -> Result<(), CatalogError> {
        copy_member::<(Text, u16), A>(alloc, reader, writer)
    }

    fn push_text<A: Allocator>(&self, out: &mut Vec<u8, A>) -> Result<(), AllocError> {
        out.extend_from_slice(self.name.as_str().as_bytes())
    }

    ghost key_is_plain = { refl };

    ghost key_fits = { λ v. (text_fits v.name, v.part_fits) };
}
