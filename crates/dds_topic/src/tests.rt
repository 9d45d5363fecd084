//! Catalogs, with octets from other sources.

ghost use Rattle.std.specs.Prelude.{Ok};
ghost use Rattle.dds_topic.specs.Answer.{Gives};

mod memory;

use crate::example::{Sensor, Sensors};
use crate::{
    Catalog, CatalogError, ColorKeys, Raw, Shape, Shapes, TextCatalog, Unread, byte_order,
};
use rtps_cdr::CdrWriter;
use rtps_types::{Endian, KeyHash};
use std::alloc::Global;
use std::test::Fail;

const ENCAPSULATION: CatalogError = CatalogError::Unread(Unread::Encapsulation);

const MALFORMED: CatalogError = CatalogError::Unread(Unread::Malformed);

/// Returns the key hash with these hex digits.
fn hash(alloc: Global, digits: &str) -> Result<KeyHash, Fail> {
    let octets = hex::decode(alloc, digits)?;
    Ok(KeyHash(
        *octets
            .as_slice()
            .first_chunk::<16>()
            .ok_or("sixteen octets")?,
    ))
}

/// Returns the hash of a value, computed from its key payload, for any catalog.
fn hash_by_payload<C: Catalog>(
    alloc: Global,
    catalog: &C,
    value: &C::Value,
) -> Result<KeyHash, CatalogError>
    ensures { Gives (λ h. h) result (Ok ((C.decoding catalog.now).hash (C.view value.now))) }
{
    let payload = catalog.key_payload(alloc, value)?;
    catalog.key_of_payload(alloc, 1, payload.as_slice())
}

#[test]
fn a_blue_shape(rt: HostRuntime) -> Result<(), Fail> {
    let alloc = rt.alloc();
    let blue = hash(alloc, "cac217c318363f8ef1160eeedef9e886")?;
    let bodies = [
        (1, "05000000424c5545000000000a000000140000001e000000"),
        (0, "00000005424c5545000000000000000a000000140000001e"),
        (1, "05000000424c554500ffffff0a000000140000001e000000aa"),
    ];
    for (kind, body) in bodies {
        let body = hex::decode(alloc, body)?;
        let shape = Shapes.decode(alloc, kind, body.as_slice())?;
        assert!(rt; Shapes.text(alloc, &shape)?.as_slice() == b"424c5545 10 20 30".as_slice());
        assert_eq!(rt; Shapes.key_of(alloc, &shape)?, blue);
        assert_eq!(rt; hash_by_payload(alloc, &Shapes, &shape)?, blue);
        let payload = Shapes.key_payload(alloc, &shape)?;
        assert!(rt; payload.as_slice() == b"\x05\0\0\0BLUE\0".as_slice());
        assert_eq!(rt; Shapes.key_of_payload(alloc, 1, payload.as_slice())?, blue);
        assert_eq!(rt; Shapes.key_of_payload(alloc, 0, b"\0\0\0\x05BLUE\0")?, blue);
        assert_eq!(rt; Shapes.key_of_payload(alloc, kind, body.as_slice())?, blue);
    }
    Ok(())
}

/// Returns the text of the value of a little-endian body, twice: as a text of its own, and appended
/// to it.
fn printed_twice<C: TextCatalog>(alloc: Global, catalog: C, body: &[u8]) -> Result<Vec<u8>, Fail> {
    let value = catalog.decode(alloc, 1, body)?;
    let mut text = catalog.text(alloc, &value)?;
    catalog.push_text(&mut text, &value)?;
    Ok(text)
}

/// Whether the values of two little-endian bodies are known to have the same text.
fn are_alike<C: TextCatalog>(
    alloc: Global,
    catalog: C,
    one: &[u8],
    other: &[u8],
) -> Result<bool, Fail> {
    let one = catalog.decode(alloc, 1, one)?;
    let other = catalog.decode(alloc, 1, other)?;
    Ok(catalog.has_same_text(&one, &other))
}

#[test]
fn values_with_the_same_text(rt: HostRuntime) -> Result<(), Fail> {
    let alloc = rt.alloc();
    let blue = hex::decode(alloc, "05000000424c5545000000000a000000140000001e000000")?;
    let others = [
        ("05000000424c554500ffffff0a000000140000001e000000aa", true),
        ("05000000424c5546000000000a000000140000001e000000", false),
        ("05000000424c5545000000000b000000140000001e000000", false),
        ("05000000424c5545000000000a000000150000001e000000", false),
        ("05000000424c5545000000000a000000140000001f000000", false),
    ];
    for (other, alike) in others {
        let other = hex::decode(alloc, other)?;
        assert_eq!(rt; are_alike(alloc, Shapes, &blue, &other)?, alike);
        assert_eq!(rt; are_alike(alloc, &Shapes, &blue, &other)?, alike);
        assert!(rt; !are_alike(alloc, Raw, &blue, &other)?);
    }
    assert!(rt; are_alike(alloc, Raw, &blue, &blue)?);
    Ok(())
}

#[test]
fn a_catalog_that_is_lent_prints(rt: HostRuntime) -> Result<(), Fail> {
    let alloc = rt.alloc();
    let body = hex::decode(alloc, "05000000424c5545000000000a000000140000001e000000")?;
    let text = printed_twice(alloc, &Shapes, body.as_slice())?;
    assert!(rt; text.as_slice() == b"424c5545 10 20 30424c5545 10 20 30".as_slice());
    Ok(())
}

/// Colors, and the MD5 of their keys in big-endian CDR, from another program.
const KEYS: [(&str, &str); 10] = [
    ("BLUE", "cac217c318363f8ef1160eeedef9e886"),
    ("RED", "d36de865fac295155f18df7157b217e6"),
    ("GREEN", "30219b4293ba6b3fee6a4fe029813882"),
    ("YELLOW", "9ed0e8b29f0249becf6b24567d3b0da9"),
    ("MAGENTA", "f9625959be09d27fb02b253a3c34ae5f"),
    ("CYAN", "9a645a7c40249a606e2fc7e727beee86"),
    ("ORANGE", "f7633de59c2ab88464ba6718232d3921"),
    ("PURPLE", "76ccd5cd1341d7749828d43ec1432aca"),
    ("BLACK", "ade9b9b23b1c95e5979c1be3ad79b312"),
    ("", "113b7f2f33d9035e4d9c5f52fc8b54d6"),
];

/// Returns the body of a shape with this color, in little-endian CDR.
fn body_in(alloc: Global, color: &str) -> Result<Vec<u8>, Fail> {
    if color.len() > 8 {
        return Err(Fail::new("a longer color than the table has"));
    }
    let mut writer = CdrWriter::new(alloc, Endian::Little);
    writer.write_string(color)?;
    for number in 0..3 {
        writer.write_u32(number)?;
    }
    Ok(writer.finish())
}

#[test]
fn keys_are_told_again(rt: HostRuntime) -> Result<(), Fail> {
    let alloc = rt.alloc();
    let mut memo = ColorKeys::default();
    for (color, digits) in KEYS.iter().chain(&KEYS[..3]).chain(KEYS.iter().rev()) {
        let body = body_in(alloc, color)?;
        let wanted = hash(alloc, digits)?;
        for _ in 0..2 {
            let (key, shape) = Shapes.decode_keyed(&mut memo, alloc, 1, body.as_slice())?;
            assert_eq!(rt; key, wanted);
            assert!(rt; shape.color.as_str() == *color);
            assert_eq!(rt; (shape.x, shape.y, shape.size), (0, 1, 2));
        }
    }
    let (key, raw) = Raw.decode_keyed(&mut (), alloc, 1, b"\x01")?;
    assert_eq!(rt; key, KeyHash([0; 16]));
    assert!(rt; raw.body.as_slice() == b"\x01".as_slice());
    Ok(())
}

#[test]
fn the_colors_of_the_demo_stay_known(rt: HostRuntime) -> Result<(), Fail> {
    let alloc = rt.alloc();
    for first in 0..8 {
        let mut memo = ColorKeys::default();
        for step in 0..8 {
            let (color, _) = KEYS[(first + step) % 8];
            let body = body_in(alloc, color)?;
            Shapes.decode_keyed(&mut memo, alloc, 1, body.as_slice())?;
        }
        for (color, _) in &KEYS[..8] {
            assert!(rt;
                memo.known(color.as_bytes()).is_some(),
                "{} from {}",
                color,
                first
            );
        }
    }
    Ok(())
}

#[test]
fn an_empty_color(rt: HostRuntime) -> Result<(), Fail> {
    let alloc = rt.alloc();
    let empty = hash(alloc, "113b7f2f33d9035e4d9c5f52fc8b54d6")?;
    let bodies = [
        "0100000000000000ffffffff0000008001000000",
        "00000000ffffffff0000008001000000",
    ];
    for body in bodies {
        let body = hex::decode(alloc, body)?;
        let shape = Shapes.decode(alloc, 1, body.as_slice())?;
        assert!(rt; Shapes.text(alloc, &shape)?.as_slice() == b"- -1 -2147483648 1".as_slice());
        assert_eq!(rt; Shapes.key_of(alloc, &shape)?, empty);
        assert_eq!(rt; Shapes.key_of_payload(alloc, 1, body.as_slice())?, empty);
    }
    Ok(())
}

#[test]
fn what_is_no_shape(rt: HostRuntime) -> Result<(), Fail> {
    let alloc = rt.alloc();
    let whole: &[u8] = b"\x02\0\0\0A\0\0\0\x01\0\0\0\x02\0\0\0\x03\0\0\0";
    let rows: [(u16, &[u8], CatalogError); 7] = [
        (2, whole, ENCAPSULATION),
        (3, b"", ENCAPSULATION),
        (0x0100, whole, ENCAPSULATION),
        (1, &whole[..19], MALFORMED),
        (1, b"", MALFORMED),
        (0, whole, MALFORMED),
        (
            1,
            b"\x02\0\0\0AA\0\0\x01\0\0\0\x02\0\0\0\x03\0\0\0",
            MALFORMED,
        ),
    ];
    for (kind, body, fault) in rows {
        assert_eq!(rt; Shapes.decode(alloc, kind, body).err(), Some(fault));
    }
    for (kind, fault) in [(7, ENCAPSULATION), (1, MALFORMED)] {
        assert_eq!(rt;
            Shapes.key_of_payload(alloc, kind, b"\x01\0\0\0A").err(),
            Some(fault)
        );
    }
    assert_eq!(rt; byte_order(1), Ok(Endian::Little));
    Ok(())
}

#[test]
fn a_color_has_at_most_128_octets(rt: HostRuntime) -> Result<(), Fail> {
    let alloc = rt.alloc();
    for (count, fault) in [(128, None), (129, Some(MALFORMED))] {
        let mut letters = String::new(alloc);
        for _ in 0..count {
            letters.push_str("c")?;
        }
        let color = letters.as_str();
        assert!(rt; color.len() <= 129);
        let mut writer = CdrWriter::new(alloc, Endian::Little);
        writer.write_string(color)?;
        let key = writer.finish();
        assert_eq!(rt;
            Shapes.key_of_payload(alloc, 1, key.as_slice()).err(),
            fault
        );
        let mut writer = CdrWriter::new(alloc, Endian::Big);
        writer.write_string(color)?;
        for member in [10, 20, 30] {
            writer.write_i32(member)?;
        }
        let body = writer.finish();
        let shape = Shapes.decode(alloc, 0, body.as_slice());
        if let Ok(shape) = &shape {
            assert!(rt; shape.color.as_str() == color);
            assert_eq!(rt;
                Shapes.key_of(alloc, shape)?,
                hash(alloc, "bec0899d4b0530c3bbafc488294e574a")?
            );
        }
        assert_eq!(rt; shape.err(), fault);
    }
    Ok(())
}

#[test]
fn raw_values_have_no_key(rt: HostRuntime) -> Result<(), Fail> {
    let alloc = rt.alloc();
    let rows: [(u16, &[u8], &[u8]); 3] = [
        (0, b"", b"-"),
        (3, b"\x01\xab", b"01ab"),
        (0xffff, b"BLUE", b"424c5545"),
    ];
    for (kind, body, text) in rows {
        let value = Raw.decode(alloc, kind, body)?;
        assert!(rt; value.kind == kind && value.body.as_slice() == body);
        assert!(rt; Raw.text(alloc, &value)?.as_slice() == text);
        assert_eq!(rt; Raw.key_of(alloc, &value)?, KeyHash([0; 16]));
        assert_eq!(rt; Raw.key_of_payload(alloc, kind, body)?, KeyHash([0; 16]));
        assert!(rt; Raw.key_payload(alloc, &value)?.is_empty());
        assert_eq!(rt; hash_by_payload(alloc, &Raw, &value)?, KeyHash([0; 16]));
    }
    Ok(())
}

#[test]
fn a_key_of_two_members(rt: HostRuntime) -> Result<(), Fail> {
    let alloc = rt.alloc();
    let wanted = hash(alloc, "00000001000000020000000000000000")?;
    let sensor = Sensors.decode(alloc, 0, b"\0\0\0\x01\0\0\0\x02\xff\xff\xff\xff")?;
    let Sensor {
        station,
        channel,
        value,
    } = &sensor;
    assert!(rt; *station == 1 && *channel == 2 && *value == -1);
    assert_eq!(rt; Sensors.key_of(alloc, &sensor)?, wanted);
    assert_eq!(rt; hash_by_payload(alloc, &Sensors, &sensor)?, wanted);
    assert_eq!(rt;
        Sensors.decode(alloc, 1, b"\x01\0\0").err(),
        Some(MALFORMED)
    );
    Ok(())
}

#[test]
fn causes_have_numbers_and_names(rt: HostRuntime) {
    let causes = [
        (Unread::Encapsulation, 1, "Encapsulation"),
        (Unread::Malformed, 2, "Malformed"),
        (Unread::NonStandard, 3, "NonStandard"),
        (Unread::NoKey, 4, "NoKey"),
    ];
    for (cause, code, name) in causes {
        assert_eq!(rt; (cause.code(), cause.name()), (code, name));
    }
}
