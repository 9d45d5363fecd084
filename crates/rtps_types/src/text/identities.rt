//! Identities in hex: their octets in the order of DDSI-RTPS 9.3.1, two digits each.

ghost use Rattle.std.specs.Prelude.{◌≡◌, Some};
ghost use Rattle.hex.specs.Hex.{encode_lower};
ghost use Rattle.rtps_types.specs.Order.{guid_octets};
ghost use Rattle.rtps_types.specs.Text.{entity_in, guid_in, guid_of, hash_in, prefix_in};

use super::{TextFault, read_octets, show_octets};
use crate::{EntityId, Guid, GuidPrefix, KeyHash, put_octets};
use std::fmt;
use std::str::FromStr;

/// 24 digits.
impl fmt::Display for GuidPrefix {
    ghost output = { λ prefix. Some (encode_lower prefix.0) };

    fn fmt<W: fmt::Write>(&self, f: &mut fmt::Formatter<W>) -> fmt::Result {
        show_octets(&self.0, f)
    }
}

/// As it is displayed.
impl fmt::Debug for GuidPrefix {
    fn fmt<W: fmt::Write>(&self, f: &mut fmt::Formatter<W>) -> fmt::Result {
        fmt::Display::fmt(self, f)
    }
}

/// 24 digits, in either case.
impl FromStr for GuidPrefix {
    type Err = TextFault;

    ghost from_str_gives = { λ text r. r ≡ prefix_in text };

    fn from_str(text: &str) -> Result<GuidPrefix, TextFault> {
        Ok(GuidPrefix(read_octets(text)?))
    }
}

/// Eight digits.
impl fmt::Display for EntityId {
    ghost output = { λ entity. Some (encode_lower entity.0) };

    fn fmt<W: fmt::Write>(&self, f: &mut fmt::Formatter<W>) -> fmt::Result {
        show_octets(&self.0, f)
    }
}

/// As it is displayed.
impl fmt::Debug for EntityId {
    fn fmt<W: fmt::Write>(&self, f: &mut fmt::Formatter<W>) -> fmt::Result {
        fmt::Display::fmt(self, f)
    }
}

/// Eight digits, in either case.
impl FromStr for EntityId {
    type Err = TextFault;

    ghost from_str_gives = { λ text r. r ≡ entity_in text };

    fn from_str(text: &str) -> Result<EntityId, TextFault> {
        Ok(EntityId(read_octets(text)?))
    }
}

/// Returns the endpoint of twelve octets of prefix and four of entity id.
fn guid_of(octets: [u8; 16]) -> Guid
    ensures { result ≡ guid_of octets }
{
    let mut prefix = [0; 12];
    prefix.copy_from_slice(&octets[..12]);
    let mut entity = [0; 4];
    entity.copy_from_slice(&octets[12..]);
    Guid {
        prefix: GuidPrefix(prefix),
        entity: EntityId(entity),
    }
}

/// 32 digits, the participant's prefix first.
impl fmt::Display for Guid {
    ghost output = { λ guid. Some (encode_lower (guid_octets guid)) };

    fn fmt<W: fmt::Write>(&self, f: &mut fmt::Formatter<W>) -> fmt::Result {
        let mut octets = [0; 16];
        put_octets(&mut octets, 0, &self.prefix.0);
        put_octets(&mut octets, 12, &self.entity.0);
        show_octets(&octets, f)
    }
}

/// As it is displayed.
impl fmt::Debug for Guid {
    fn fmt<W: fmt::Write>(&self, f: &mut fmt::Formatter<W>) -> fmt::Result {
        fmt::Display::fmt(self, f)
    }
}

/// 32 digits, in either case.
impl FromStr for Guid {
    type Err = TextFault;

    ghost from_str_gives = { λ text r. r ≡ guid_in text };

    fn from_str(text: &str) -> Result<Guid, TextFault> {
        Ok(guid_of(read_octets(text)?))
    }
}

/// 32 digits.
impl fmt::Display for KeyHash {
    ghost output = { λ hash. Some (encode_lower hash.0) };

    fn fmt<W: fmt::Write>(&self, f: &mut fmt::Formatter<W>) -> fmt::Result {
        show_octets(&self.0, f)
    }
}

/// As it is displayed.
impl fmt::Debug for KeyHash {
    fn fmt<W: fmt::Write>(&self, f: &mut fmt::Formatter<W>) -> fmt::Result {
        fmt::Display::fmt(self, f)
    }
}

/// 32 digits, in either case.
impl FromStr for KeyHash {
    type Err = TextFault;

    ghost from_str_gives = { λ text r. r ≡ hash_in text };

    fn from_str(text: &str) -> Result<KeyHash, TextFault> {
        Ok(KeyHash(read_octets(text)?))
    }
}
