//! The locators that a discovery record lists.

ghost use Rattle.std.specs.Prelude.{◌≡◌};
ghost use Rattle.std.specs.Iterator.{YieldsFirstBy, item_count};
ghost use Rattle.rtps_params.specs.Reading.{view};
ghost use Rattle.dds_qos.specs.Settings as settings;
ghost use Rattle.dds_qos.specs.Settings.{locators_of};

use crate::values::locator_in;
use rtps_cdr::CdrReader;
use rtps_params::{Param, ParamList, Params};
use rtps_types::{Endian, Locator};
use std::marker::Model;

/// An iterator over the locators of all parameters with one id, in their order in the record. It
/// lists only locators of UDP over IPv4 that have a port (DDSI-RTPS 9.3.2.4). It reads them from
/// the record's octets, so no memory is taken.
#[derive(Drop)]
pub struct ListedLocators<'a> {
    params: Params<'a>,
    endian: Endian,
    id: u16,
}

impl<'a> Model for ListedLocators<'a> {
    ghost use Rattle.std.specs.Prelude.{List};
    ghost use Rattle.rtps_types.specs.declared.locator.Locator.{Locator};
    ghost use Rattle.dds_qos.specs.Settings.{locators_of};

    ghost Value = { List Locator };

    ghost view = { λ l. locators_of l.id l.endian l.params };
}

impl<'a> ListedLocators<'a> {
    /// Returns an iterator over the locators of the parameters with this id in a list.
    pub(crate) fn new(list: &ParamList<'a>, id: u16) -> ListedLocators<'a>
        ensures { result ≡ locators_of id list.now.endian list.now.parameters }
    {
        ListedLocators {
            params: list.iter(),
            endian: list.endian(),
            id,
        }
    }
}

/// Returns the locator of a parameter, if the parameter has this id and the locator is to be
/// listed.
fn locator_at(id: u16, endian: Endian, param: Param<'_>) -> Option<Locator>
    ensures { result ≡ settings.locator_at id endian (view param.entry) }
{
    if param.id == id {
        locator_in(CdrReader::new(param.value, endian))?
    } else {
        None
    }
}

impl<'a> Iterator for ListedLocators<'a> {
    type Item = Locator;

    ghost next_gives = { YieldsFirstBy (λ locator. locator) (λ left. left) };

    ghost remaining = { item_count (λ left. left) };

    fn next(&mut self) -> Option<Locator> {
        loop {
            let param = self.params.next()?;
            if let Some(locator) = locator_at(self.id, self.endian, param) {
                return Some(locator);
            }
        }
    }
}
