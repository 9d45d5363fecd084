//! Numbers at the end of octets that are written, all of them little-endian (DDSI-RTPS 9.3.2,
//! 9.4.2.5).

ghost use Rattle.std.specs.Prelude.{◌≡◌, pos, ◌^◌, ◌<◌, ◌++◌, OnOk};
ghost use Rattle.rtps_types.specs.declared.field.Endian.TheVariants.{Little};
ghost use Rattle.rtps_types.specs.Field.{encoded, encoded_sn};

use rtps_types::{Endian, put_sn, put_u16, put_u32};
use std::alloc::{AllocError, Allocator};

/// Appends a 16-bit number. An error is a refused growth.
pub(crate) fn push_u16<A: Allocator>(octets: &mut Vec<u8, A>, value: u16) -> Result<(), AllocError>
    ensures { OnOk result (octets.new.items
        ≡ octets.old.items ++ encoded Little 2 value) }
{
    let mut field = [0; 2];
    put_u16(&mut field, 0, Endian::Little, value);
    octets.extend_from_slice(&field)
}

/// Appends a 32-bit number. An error is a refused growth.
pub(crate) fn push_u32<A: Allocator>(octets: &mut Vec<u8, A>, value: u32) -> Result<(), AllocError>
    ensures { OnOk result (octets.new.items
        ≡ octets.old.items ++ encoded Little 4 value) }
{
    let mut field = [0; 4];
    put_u32(&mut field, 0, Endian::Little, value);
    octets.extend_from_slice(&field)
}

/// Appends a sequence number. An error is a refused growth.
pub(crate) fn push_sn<A: Allocator>(octets: &mut Vec<u8, A>, value: u64) -> Result<(), AllocError>
    requires { value < 2 ^ 63 }
    ensures { OnOk result (octets.new.items
        ≡ octets.old.items ++ encoded_sn Little (pos value)) }
{
    let mut field = [0; 8];
    put_sn(&mut field, 0, Endian::Little, value.cast_signed());
    octets.extend_from_slice(&field)
}
