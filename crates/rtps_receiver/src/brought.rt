//! The event body of a submessage, by its kind (DDSI-RTPS 8.3.7). There is none if the submessage
//! names a number above [`MAX_NUMBER`].

ghost use Rattle.std.specs.Prelude.{◌≡◌};
ghost use Rattle.std.specs.List.{list_all};
ghost use Rattle.std.specs.Option.{option_map};
ghost use Rattle.rtps_types.specs.NumberSet.{members};
ghost use Rattle.rtps_types.specs.Sets.{sn_view};
ghost use Rattle.rtps_wire.specs.Data.{data_view};
ghost use Rattle.rtps_wire.specs.DataFrag.{frag_view};
ghost use Rattle.rtps_wire.specs.Gap.{gap_view};
ghost use Rattle.rtps_wire.specs.Submessage as wire;
ghost use Rattle.rtps_receiver.specs.Addressed.{brought_by};
ghost use Rattle.rtps_receiver.specs.EventBody.{are_taken, is_taken};
ghost use Rattle.rtps_receiver.specs.Views.{body_view};

use crate::event_body::{EventBody, Fragment, Gap, Heartbeat, HeartbeatFrag, Whole};
use rtps_types::{MAX_NUMBER, Number, SnSet};
use rtps_wire::{self, Data, DataFrag};

pub(crate) fn whole_of<'a>(change: &Data<'a>) -> Option<EventBody<'a>>
    ensures { option_map body_view result ≡ brought_by (wire.Data (data_view change.now)) }
{
    Some(EventBody::Whole(Whole {
        number: Number::new(change.number)?,
        info: change.info,
        payload: change.payload,
    }))
}

pub(crate) fn fragment_of<'a>(fragments: &DataFrag<'a>) -> Option<EventBody<'a>>
    ensures { option_map body_view result ≡ brought_by (wire.DataFrag (frag_view fragments.now)) }
{
    Some(EventBody::Fragment(Fragment {
        number: Number::new(fragments.number)?,
        start: fragments.start,
        count: fragments.count,
        size: fragments.size,
        sample: fragments.sample,
        info: fragments.info,
        payload: fragments.payload,
    }))
}

pub(crate) fn heartbeat_of<'a>(heartbeat: &rtps_wire::Heartbeat) -> Option<EventBody<'a>>
    ensures { option_map body_view result ≡ brought_by (wire.Heartbeat heartbeat.now) }
{
    let first = Number::new(heartbeat.first)?;
    if heartbeat.last > MAX_NUMBER {
        return None;
    }
    Some(EventBody::Heartbeat(Heartbeat {
        first,
        last: heartbeat.last,
        count: heartbeat.count,
        final_flag: heartbeat.final_flag,
        liveliness: heartbeat.liveliness,
    }))
}

pub(crate) fn gap_of<'a>(gap: &rtps_wire::Gap) -> Option<EventBody<'a>>
    ensures { option_map body_view result ≡ brought_by (wire.Gap (gap_view gap.now)) }
{
    let start = Number::new(gap.start)?;
    if !names_changes(&gap.list) {
        return None;
    }
    Some(EventBody::Gap(Gap {
        start,
        list: gap.list,
    }))
}

/// Whether neither the base nor a member of a set is above [`MAX_NUMBER`].
fn names_changes(list: &SnSet) -> bool
    ensures { result ≡ are_taken (sn_view list.now) }
{
    list.base <= MAX_NUMBER && has_only_changes(list)
}

/// Whether no member of a set is above [`MAX_NUMBER`].
fn has_only_changes(list: &SnSet) -> bool
    ensures { result ≡ list_all is_taken (members (sn_view list.now)) }
{
    for number in list.members() {
        if number > MAX_NUMBER {
            return false;
        }
    }
    true
}

pub(crate) fn heartbeat_frag_of<'a>(heartbeat: &rtps_wire::HeartbeatFrag) -> Option<EventBody<'a>>
    ensures { option_map body_view result ≡ brought_by (wire.HeartbeatFrag heartbeat.now) }
{
    Some(EventBody::HeartbeatFrag(HeartbeatFrag {
        number: Number::new(heartbeat.number)?,
        last: heartbeat.last,
        count: heartbeat.count,
    }))
}
