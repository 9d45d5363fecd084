//! The body that a change is presented with.

ghost use Rattle.std.specs.Prelude.{◌≡◌, Err, IfErr, IfOk, Ok};
ghost use Rattle.dds_topic.specs.Answer.{Gives};
ghost use Rattle.rtps_reader.specs.Body.{body_by, body_map, encapsulated, key_for};

use crate::body::Body;
use dds_topic::{Catalog, CatalogError, Decoder, Unread};
use rtps_types::KeyHash;
use rtps_wire::{ChangeInfo, Form};
use std::alloc::AllocError;

/// The number of octets of the encapsulation header: kind and options, two each.
const ENCAPSULATION: usize = 4;

/// The status bit of an instance that was disposed.
const DISPOSED: u8 = 0x01;

/// The status bit of an instance that was unregistered.
const UNREGISTERED: u8 = 0x02;

/// Returns the body that a change is presented with.
///
/// Without status bits it is the value that the catalog decodes. With status bits it is the end of
/// an instance, whose key hash comes from the value or the key payload, or, if there is no payload,
/// from the key hash that was sent in the inline QoS. What the catalog can't decode is presented as
/// unread, with the reason.
pub fn body_of<C: Catalog>(
    decoder: &mut Decoder<C>,
    info: ChangeInfo,
    payload: &[u8],
) -> Result<Body<C::Value>, AllocError>
    ensures body { IfOk result (λ b. body_map C.view b
        ≡ body_by (C.decoding decoder.old) info payload.now) }
    ensures same { decoder.new ≡ decoder.old }
{
    if info.status & (DISPOSED | UNREGISTERED) != 0 {
        return match key_of(decoder, info, payload) {
            Ok(hash) => Ok(if info.status & DISPOSED != 0 {
                Body::Disposed(hash)
            } else {
                Body::Unregistered(hash)
            }),
            Err(CatalogError::Unread(unread)) => Ok(Body::Unread(unread)),
            Err(CatalogError::NoMemory) => Err(AllocError),
        };
    }
    let Form::Value = info.form else {
        return Ok(Body::Unread(Unread::NonStandard));
    };
    let (kind, body) = match unpack(payload) {
        Ok(unpacked) => unpacked,
        Err(unread) => return Ok(Body::Unread(unread)),
    };
    // Decoded here and not in a helper function: each function that a value is returned through
    // copies it.
    match decoder.decode(kind, body) {
        Ok((hash, value)) => Ok(Body::Value(hash, value)),
        Err(CatalogError::Unread(unread)) => Ok(Body::Unread(unread)),
        Err(CatalogError::NoMemory) => Err(AllocError),
    }
}

/// Returns the kind in a payload's encapsulation header, and the data after the header.
fn unpack(payload: &[u8]) -> Result<(u16, &[u8]), Unread>
    ensures ok { IfOk result (λ p. encapsulated payload.now ≡ Ok (p.0, p.1.now)) }
    ensures err { IfErr result (λ unread. encapsulated payload.now ≡ Err unread) }
{
    if payload.len() < ENCAPSULATION {
        return Err(Unread::Encapsulation);
    }
    let kind = u16::from(payload[0]) * 256 + u16::from(payload[1]);
    let (_, body) = payload.split_at(ENCAPSULATION);
    Ok((kind, body))
}

/// Returns the key hash of a change with status bits.
fn key_of<C: Catalog>(
    decoder: &mut Decoder<C>,
    info: ChangeInfo,
    payload: &[u8],
) -> Result<KeyHash, CatalogError>
    ensures key { Gives (λ h. h) result (key_for (C.decoding decoder.old)
        info.hash info.form payload.now) }
    ensures same { decoder.new ≡ decoder.old }
{
    match info.form {
        Form::Value => {
            let (kind, body) = unpack(payload)?;
            let (hash, _value) = decoder.decode(kind, body)?;
            Ok(hash)
        }
        Form::Key => {
            let (kind, body) = unpack(payload)?;
            decoder.key_of_payload(kind, body)
        }
        Form::Other => Err(CatalogError::Unread(Unread::NonStandard)),
        Form::Nothing => match info.hash {
            Some(hash) => Ok(hash),
            None => Err(CatalogError::Unread(Unread::NoKey)),
        },
    }
}
