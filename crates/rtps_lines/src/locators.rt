//! Locators, and lists of them.

ghost use Rattle.std.specs.Prelude.{◌≡◌, ◌++◌, OnOk};
ghost use Rattle.std.specs.Io.{StartsWith};
ghost use Rattle.rtps_lines.specs.Locators.{address_text, locator_text, locators_text, more_locators};

use rtps_ascii::{push_number, push_octet};
use rtps_types::Locator;
use std::alloc::{AllocError, Allocator};

/// Appends locators, joined by commas; a dash where there are none.
pub(crate) fn push_locators<A: Allocator>(
    out: &mut Vec<u8, A>,
    locators: &[Locator],
) -> Result<(), AllocError>
    ensures ok { OnOk result (out.new.items ≡ out.old.items ++ locators_text locators.now) }
    ensures keeps { StartsWith out.new.items out.old.items }
{
    let Some((first, rest)) = locators.split_first() else {
        return push_octet(out, b'-');
    };
    push_locator(out, first)?;
    push_more(out, rest)
}

/// Appends locators after others, each after a comma.
fn push_more<A: Allocator>(out: &mut Vec<u8, A>, locators: &[Locator]) -> Result<(), AllocError>
    ensures ok { OnOk result (out.new.items ≡ out.old.items ++ more_locators locators.now) }
    ensures keeps { StartsWith out.new.items out.old.items }
{
    for locator in locators {
        push_octet(out, b',')?;
        push_locator(out, locator)?;
    }
    Ok(())
}

/// Appends an address and its port, with a colon between.
fn push_locator<A: Allocator>(out: &mut Vec<u8, A>, locator: &Locator) -> Result<(), AllocError>
    ensures ok { OnOk result (out.new.items ≡ out.old.items ++ locator_text locator.now) }
    ensures keeps { StartsWith out.new.items out.old.items }
{
    push_address(out, locator.address)?;
    push_octet(out, b':')?;
    push_number(out, u64::from(locator.port))
}

/// Appends the octets of an address with dots between.
fn push_address<A: Allocator>(out: &mut Vec<u8, A>, address: [u8; 4]) -> Result<(), AllocError>
    ensures ok { OnOk result (out.new.items ≡ out.old.items ++ address_text address) }
    ensures keeps { StartsWith out.new.items out.old.items }
{
    push_number(out, u64::from(address[0]))?;
    push_octet(out, b'.')?;
    push_number(out, u64::from(address[1]))?;
    push_octet(out, b'.')?;
    push_number(out, u64::from(address[2]))?;
    push_octet(out, b'.')?;
    push_number(out, u64::from(address[3]))
}
