//! The contents of a valid submessage as columns, by its kind (DDSI-RTPS 8.3.7).

ghost use Rattle.std.specs.Prelude.{◌≡◌, ◌++◌, OnOk, length};
ghost use Rattle.std.specs.Io.{StartsWith};
ghost use Rattle.rtps_wire.specs.Data.{data_view};
ghost use Rattle.rtps_wire.specs.DataFrag.{frag_view};
ghost use Rattle.rtps_wire.specs.Gap.{gap_view};
ghost use Rattle.rtps_wire.specs.Submessage.{parts_view};
ghost use Rattle.rtps_explain.specs.Contents.{contents_columns, data_columns, data_frag_columns, form_word, gap_columns, heartbeat_columns, heartbeat_frag_columns, payload_columns, pieces_columns, status_columns};

use crate::columns::{
    push_ends, push_hash, push_hex_column, push_number_column, push_sender, push_signed_column,
    push_time, push_word_column,
};
use rtps_ascii::push_octet;
use rtps_events::push_members;
use rtps_wire::{ChangeInfo, Data, DataFrag, Form, Gap, Heartbeat, HeartbeatFrag, Parts};
use std::alloc::{AllocError, Allocator};

/// Appends the columns of the contents; none for a kind without contents or one that isn't read.
pub(crate) fn push_contents<A: Allocator>(
    out: &mut Vec<u8, A>,
    parts: &Parts<'_>,
) -> Result<(), AllocError>
    ensures ok { OnOk result (out.new.items ≡ out.old.items
        ++ contents_columns (parts_view parts.now)) }
    ensures keeps { StartsWith out.new.items out.old.items }
{
    match parts {
        Parts::Pad | Parts::Skipped => Ok(()),
        Parts::InfoTimestamp(time) => {
            push_octet(out, b' ')?;
            push_time(out, *time)
        }
        Parts::InfoSource(source) => {
            push_sender(out, &source.version, &source.vendor, source.prefix)
        }
        Parts::InfoDestination(prefix) => push_hex_column(out, &prefix.0),
        Parts::Heartbeat(heartbeat) => push_heartbeat(out, heartbeat),
        Parts::Gap(gap) => push_gap(out, gap),
        Parts::HeartbeatFrag(heartbeat) => push_heartbeat_frag(out, heartbeat),
        Parts::Data(change) => push_data(out, change),
        Parts::DataFrag(fragments) => push_data_frag(out, fragments),
    }
}

fn push_heartbeat<A: Allocator>(
    out: &mut Vec<u8, A>,
    heartbeat: &Heartbeat,
) -> Result<(), AllocError>
    ensures ok { OnOk result (out.new.items ≡ out.old.items ++ heartbeat_columns heartbeat.now) }
    ensures keeps { StartsWith out.new.items out.old.items }
{
    push_ends(out, heartbeat.writer, heartbeat.reader)?;
    push_number_column(out, heartbeat.first)?;
    push_number_column(out, heartbeat.last)?;
    push_signed_column(out, heartbeat.count)
}

fn push_gap<A: Allocator>(out: &mut Vec<u8, A>, gap: &Gap) -> Result<(), AllocError>
    ensures ok { OnOk result (out.new.items ≡ out.old.items ++ gap_columns (gap_view gap.now)) }
    ensures keeps { StartsWith out.new.items out.old.items }
{
    push_ends(out, gap.writer, gap.reader)?;
    push_number_column(out, gap.start)?;
    push_number_column(out, gap.list.base)?;
    push_octet(out, b' ')?;
    push_members(out, &gap.list)
}

fn push_heartbeat_frag<A: Allocator>(
    out: &mut Vec<u8, A>,
    heartbeat: &HeartbeatFrag,
) -> Result<(), AllocError>
    ensures ok { OnOk result (out.new.items ≡ out.old.items
        ++ heartbeat_frag_columns heartbeat.now) }
    ensures keeps { StartsWith out.new.items out.old.items }
{
    push_ends(out, heartbeat.writer, heartbeat.reader)?;
    push_number_column(out, heartbeat.number)?;
    push_number_column(out, u64::from(heartbeat.last))?;
    push_signed_column(out, heartbeat.count)
}

fn push_data<A: Allocator>(out: &mut Vec<u8, A>, change: &Data<'_>) -> Result<(), AllocError>
    ensures ok { OnOk result
        (out.new.items ≡ out.old.items ++ data_columns (data_view change.now)) }
    ensures keeps { StartsWith out.new.items out.old.items }
{
    push_ends(out, change.writer, change.reader)?;
    push_number_column(out, change.number)?;
    push_status(out, &change.info)?;
    push_payload(out, change.payload, &change.info)
}

fn push_data_frag<A: Allocator>(
    out: &mut Vec<u8, A>,
    fragments: &DataFrag<'_>,
) -> Result<(), AllocError>
    ensures ok { OnOk result (out.new.items ≡ out.old.items
        ++ data_frag_columns (frag_view fragments.now)) }
    ensures keeps { StartsWith out.new.items out.old.items }
{
    push_ends(out, fragments.writer, fragments.reader)?;
    push_number_column(out, fragments.number)?;
    push_status(out, &fragments.info)?;
    push_pieces(out, fragments)?;
    push_payload(out, fragments.payload, &fragments.info)
}

/// Appends the first fragment, the number of fragments, their size, and the size of the payload.
fn push_pieces<A: Allocator>(
    out: &mut Vec<u8, A>,
    fragments: &DataFrag<'_>,
) -> Result<(), AllocError>
    ensures ok { OnOk result (out.new.items ≡ out.old.items
        ++ pieces_columns (frag_view fragments.now)) }
    ensures keeps { StartsWith out.new.items out.old.items }
{
    push_number_column(out, u64::from(fragments.start))?;
    push_number_column(out, u64::from(fragments.count))?;
    push_number_column(out, u64::from(fragments.size))?;
    push_number_column(out, u64::from(fragments.sample))
}

/// Appends the status of a change and the form of its payload.
fn push_status<A: Allocator>(out: &mut Vec<u8, A>, info: &ChangeInfo) -> Result<(), AllocError>
    ensures ok { OnOk result (out.new.items ≡ out.old.items ++ status_columns info.now) }
    ensures keeps { StartsWith out.new.items out.old.items }
{
    push_hex_column(out, &[info.status])?;
    push_word_column(out, form_word(info.form))
}

fn form_word(form: Form) -> &'static str
    ensures { result.now ≡ form_word form }
{
    match form {
        Form::Value => "value",
        Form::Key => "key",
        Form::Other => "other",
        Form::Nothing => "none",
    }
}

/// Appends the number of octets of a payload, and the key hash of the change.
fn push_payload<A: Allocator>(
    out: &mut Vec<u8, A>,
    payload: &[u8],
    info: &ChangeInfo,
) -> Result<(), AllocError>
    ensures ok { OnOk result (out.new.items ≡ out.old.items
        ++ payload_columns payload.now info.now) }
    ensures keeps { StartsWith out.new.items out.old.items }
{
    push_number_column(out, payload.len() as u64)?;
    push_octet(out, b' ')?;
    push_hash(out, info.hash)
}
