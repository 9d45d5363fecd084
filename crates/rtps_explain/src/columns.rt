//! Columns of a line: each begins with a blank.

ghost use Rattle.std.specs.Prelude.{◌≡◌, ◌++◌, OnOk};
ghost use Rattle.std.specs.Int.{w32, to_be_bytes};
ghost use Rattle.std.specs.Io.{StartsWith};
ghost use Rattle.rtps_explain.specs.Columns.{ends_columns, hash_text, hex_column, number_column, sender_columns, signed_column, time_text, version_text, word_column};

use rtps_ascii::{push_hex_array, push_number, push_octet, push_signed, push_word};
use rtps_types::{EntityId, GuidPrefix, KeyHash, Timestamp};
use std::alloc::{AllocError, Allocator};

/// Appends a blank and a word.
pub(crate) fn push_word_column<A: Allocator>(
    out: &mut Vec<u8, A>,
    word: &str,
) -> Result<(), AllocError>
    ensures ok { OnOk result (out.new.items ≡ out.old.items ++ word_column word.now) }
    ensures keeps { StartsWith out.new.items out.old.items }
{
    push_octet(out, b' ')?;
    push_word(out, word)
}

/// Appends a blank and a number in decimal.
pub(crate) fn push_number_column<A: Allocator>(
    out: &mut Vec<u8, A>,
    number: u64,
) -> Result<(), AllocError>
    ensures ok { OnOk result (out.new.items ≡ out.old.items ++ number_column number) }
    ensures keeps { StartsWith out.new.items out.old.items }
{
    push_octet(out, b' ')?;
    push_number(out, number)
}

/// Appends a blank and a signed number in decimal.
pub(crate) fn push_signed_column<A: Allocator>(
    out: &mut Vec<u8, A>,
    number: i32,
) -> Result<(), AllocError>
    ensures ok { OnOk result (out.new.items ≡ out.old.items ++ signed_column number) }
    ensures keeps { StartsWith out.new.items out.old.items }
{
    push_octet(out, b' ')?;
    push_signed(out, number)
}

/// Appends a blank and octets in hex.
pub(crate) fn push_hex_column<const N: usize, A: Allocator>(
    out: &mut Vec<u8, A>,
    octets: &[u8; N],
) -> Result<(), AllocError>
    ensures ok { OnOk result (out.new.items ≡ out.old.items ++ hex_column octets.now) }
    ensures keeps { StartsWith out.new.items out.old.items }
{
    push_octet(out, b' ')?;
    push_hex_array(out, octets)
}

/// Appends a writer and a reader.
pub(crate) fn push_ends<A: Allocator>(
    out: &mut Vec<u8, A>,
    writer: EntityId,
    reader: EntityId,
) -> Result<(), AllocError>
    ensures ok { OnOk result (out.new.items ≡ out.old.items ++ ends_columns writer reader) }
    ensures keeps { StartsWith out.new.items out.old.items }
{
    push_hex_column(out, &writer.0)?;
    push_hex_column(out, &reader.0)
}

/// Appends a time in hex, seconds and fraction with a dot between, or a dash for none.
pub(crate) fn push_time<A: Allocator>(
    out: &mut Vec<u8, A>,
    time: Option<Timestamp>,
) -> Result<(), AllocError>
    ensures ok { OnOk result (out.new.items ≡ out.old.items ++ time_text time) }
    ensures keeps { StartsWith out.new.items out.old.items }
{
    let Some(time) = time else {
        return push_octet(out, b'-');
    };
    push_hex_array(out, &time.seconds.to_be_bytes())?;
    push_octet(out, b'.')?;
    push_hex_array(out, &time.fraction.to_be_bytes())
}

/// Appends a key hash in hex, or a dash for none.
pub(crate) fn push_hash<A: Allocator>(
    out: &mut Vec<u8, A>,
    hash: Option<KeyHash>,
) -> Result<(), AllocError>
    ensures ok { OnOk result (out.new.items ≡ out.old.items ++ hash_text hash) }
    ensures keeps { StartsWith out.new.items out.old.items }
{
    let Some(hash) = hash else {
        return push_octet(out, b'-');
    };
    push_hex_array(out, &hash.0)
}

/// Appends a major and a minor version with a dot between.
fn push_version<A: Allocator>(out: &mut Vec<u8, A>, version: &[u8; 2]) -> Result<(), AllocError>
    ensures ok { OnOk result (out.new.items ≡ out.old.items ++ version_text version.now) }
    ensures keeps { StartsWith out.new.items out.old.items }
{
    push_number(out, u64::from(version[0]))?;
    push_octet(out, b'.')?;
    push_number(out, u64::from(version[1]))
}

/// Appends a sender's protocol version, vendor and prefix.
pub(crate) fn push_sender<A: Allocator>(
    out: &mut Vec<u8, A>,
    version: &[u8; 2],
    vendor: &[u8; 2],
    prefix: GuidPrefix,
) -> Result<(), AllocError>
    ensures ok { OnOk result (out.new.items ≡ out.old.items
        ++ sender_columns version.now vendor.now prefix.0) }
    ensures keeps { StartsWith out.new.items out.old.items }
{
    push_octet(out, b' ')?;
    push_version(out, version)?;
    push_hex_column(out, vendor)?;
    push_hex_column(out, &prefix.0)
}
