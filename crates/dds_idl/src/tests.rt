//! Texts in IDL, and what they declare.

mod texts;

use crate::{Declarations, IdlError, Source, parse};
use dds_xcdr::TopicType;
use std::alloc::{AllocError, Global};
use std::test::Fail;
use texts::{PEER, ROBOT, VALUES};

/// Reads one text.
fn declared(alloc: Global, text: &str) -> Result<Declarations, IdlError> {
    let source = Source {
        name: "robot.idl",
        text: text.as_bytes(),
    };
    parse(alloc, &[source])
}

/// Returns what is printed of why a text is refused, and nothing if it isn't.
fn refusal(alloc: Global, text: &[u8]) -> Result<String, AllocError> {
    let source = Source {
        name: "robot.idl",
        text,
    };
    match parse(alloc, &[source]) {
        Ok(_) => Ok(String::new(alloc)),
        Err(error) => format!(in alloc; "{error}"),
    }
}

#[test]
fn values_of_a_peer_are_of_the_types(rt: HostRuntime) -> Result<(), Fail> {
    let alloc = rt.alloc();
    for (name, payload) in VALUES {
        let made = declared(alloc, PEER)?;
        let of = made.find(name).ok_or("a name")?;
        let topic = TopicType::new(made.into_types(), of)?;
        let octets = hex::decode(alloc, payload)?;
        let (header, body) = octets
            .as_slice()
            .split_first_chunk::<4>()
            .ok_or("four octets")?;
        let padding = (header[3] % 4) as usize;
        let kind = u16::from(header[1]);
        assert_eq!(rt;
            topic.look_through(kind, body),
            Ok(body.len().saturating_sub(padding))
        );
    }
    Ok(())
}

#[test]
fn the_example_is_run(rt: HostRuntime) -> Result<(), Fail> {
    let alloc = rt.alloc();
    let text = "module shapes { struct Shape { @key string<32> color; long x, y; }; };";
    let source = Source {
        name: "shapes.idl",
        text: text.as_bytes(),
    };
    let declared = parse(alloc, &[source])?;
    let shape = declared.find("shapes::Shape").ok_or("no such type")?;
    assert!(rt; declared.types().contains(shape));
    let topic = TopicType::new(declared.into_types(), shape)?;
    let body = b"\x04\0\0\0RED\0\x01\0\0\0\x02\0\0\0";
    assert_eq!(rt; topic.look_through(1, body), Ok(16));
    Ok(())
}

#[test]
fn types_of_several_texts_are_found(rt: HostRuntime) -> Result<(), Fail> {
    let alloc = rt.alloc();
    let mut sources = Vec::new(alloc);
    for (name, text) in ROBOT {
        sources.push(Source {
            name,
            text: text.as_bytes(),
        })?;
    }
    let made = parse(alloc, sources.as_slice())?;
    assert_eq!(rt; made.topics().len(), 13);
    for topic in made.topics() {
        assert_eq!(rt; made.find(topic.name.as_str()), Some(topic.of));
    }
    assert!(rt; made.find("tf2_msgs::msg::dds_::TFMessage_").is_some());
    assert!(rt; made.find("geometry_msgs::msg::dds_::double__36").is_some());
    assert_eq!(rt; made.find("tf2_msgs::msg::dds_::TFmessage_"), None);
    assert_eq!(rt; made.find("tf2_msgs::msg"), None);
    Ok(())
}

#[test]
fn constants_are_computed(rt: HostRuntime) -> Result<(), Fail> {
    let alloc = rt.alloc();
    // The body of a value is as long as the array, which is the constant.
    for (expression, number) in [
        ("7", 7),
        ("017", 15),
        ("0x1F", 31),
        ("2 + 3 * 4", 14),
        ("(2 + 3) * 4", 20),
        ("2 * 3 + 4 * 5", 26),
        ("20 - 4 - 3", 13),
        ("-(-5)", 5),
        ("~0 & 6 | 1 ^ 3", 6),
        ("1 << 3 >> 1", 4),
        ("100 / 7 % 5", 4),
        ("FOUR << 2", 16),
    ] {
        let text = format!(in alloc;
            "const long FOUR = 4; const long N = {expression}; struct A {{ octet a[N]; }};"
        )?;
        let made = declared(alloc, text.as_str())?;
        let of = made.find("A").ok_or("A")?;
        let topic = TopicType::new(made.into_types(), of)?;
        assert_eq!(rt; topic.look_through(0, &[0; 64]), Ok(number), "{expression}");
    }
    Ok(())
}

/// Adds a text several times.
fn repeat(text: &mut String, part: &str, times: usize) -> Result<(), AllocError> {
    for _ in 0..times {
        text.push_str(part)?;
    }
    Ok(())
}

#[test]
fn hostile_texts_are_refused(rt: HostRuntime) -> Result<(), Fail> {
    let alloc = rt.alloc();
    let mut sequences = String::from_str(alloc, "struct A { ")?;
    repeat(&mut sequences, "sequence<", 10_000)?;
    sequences.push_str("long")?;
    repeat(&mut sequences, ">", 10_000)?;
    sequences.push_str(" a; };")?;
    let mut parentheses = String::from_str(alloc, "const long A = ")?;
    repeat(&mut parentheses, "-(", 10_000)?;
    parentheses.push_str("1")?;
    repeat(&mut parentheses, ")", 10_000)?;
    parentheses.push_str(" / 0;")?;
    let mut name = String::from_str(alloc, "struct ")?;
    repeat(&mut name, "abcdefgh", 8_192)?;
    name.push_str(" { long a; };")?;
    let mut modules = String::new(alloc);
    repeat(&mut modules, "module m { ", 10_000)?;
    let mut doubled = String::from_str(alloc, "typedef octet T[2]; ")?;
    repeat(&mut doubled, "module m { typedef T T[2]; ", 40)?;
    for (text, wanted) in [
        (&sequences, "' isn't described: a type is nested too deeply"),
        (
            &parentheses,
            "robot.idl:1:30018: '/' gives no number of 64 bits",
        ),
        (&name, "' is too long"),
        (&modules, "robot.idl:1:943: the name 'm' is too long"),
        (&doubled, "' isn't described: a type is nested too deeply"),
    ] {
        let printed = refusal(alloc, text.as_bytes())?;
        assert!(rt; printed.as_str().ends_with(wanted), "{printed}");
    }
    Ok(())
}

/// Texts that are refused, and what is printed of them.
const REFUSED: [(&str, &str); 47] = [
    (
        "struct A { long a[N]; };",
        "1:19: the constant 'N' isn't declared",
    ),
    (
        "enum A { @value(5) B };",
        "1:11: the annotation 'value' isn't supported",
    ),
    ("@nested module m { };", "1:9: 'module' isn't supported"),
    (
        "#include \"robot.idl\"",
        "1:10: the text \"robot.idl\" has to be given before this one",
    ),
    (
        "#include \"pose.idl\"",
        "1:10: the text \"pose.idl\" isn't given",
    ),
    ("#include <msg/robot.idl", "1:24: 'the end' isn't expected"),
    (
        "#pragma keylist A a",
        "1:9: 'keylist' isn't supported: mark the members of a key by @key",
    ),
    ("#pragma once", "1:9: 'once' isn't supported"),
    ("#ifndef A", "1:2: 'ifndef' isn't supported"),
    (
        "const long A = 1 / 0;",
        "1:18: '/' gives no number of 64 bits",
    ),
    (
        "const long A = 0x7fffffffffffffff + 1;",
        "1:35: '+' gives no number of 64 bits",
    ),
    (
        "const long A = 1 << 64;",
        "1:18: '<' gives no number of 64 bits",
    ),
    ("const long A = (1;", "1:18: ';' isn't expected"),
    ("const long A = 1);", "1:17: ')' isn't expected"),
    (
        "const long A = 9223372036854775808;",
        "1:16: '9223372036854775808' isn't a number that fits",
    ),
    (
        "const double A = -1.5e-3; const string B = \"a\" \"b\"; const boolean C = TRUE;",
        "",
    ),
    (
        "const float F = 1.5; struct A { long a[F]; };",
        "1:40: 'F' isn't a number that fits",
    ),
    (
        "struct A { Pose p; };",
        "1:12: the type 'Pose' isn't declared",
    ),
    (
        "struct Pose { long x; };\nstruct A { pose p; };",
        "2:12: the type 'pose' isn't declared",
    ),
    (
        "/* \u{e9}\n\u{e9} */ struct A { long \u{e9}; };",
        "2:22: no word begins so",
    ),
    ("/* struct", "1:1: the comment doesn't end"),
    (
        "module m { struct A { long a; };",
        "1:33: a module doesn't end",
    ),
    (
        "struct A { long a; long A; };",
        "1:25: the name 'A' is declared already",
    ),
    (
        "struct A { long a; }; struct a { long b; };",
        "1:30: the name 'a' is declared already",
    ),
    (
        "struct A { sequence<A> a; };",
        "1:21: the type 'A' contains itself",
    ),
    (
        "struct A; struct B { A a; };",
        "1:22: the type 'A' contains itself",
    ),
    ("module m { }; struct A { m a; };", "1:26: 'm' isn't a type"),
    (
        "struct A { };",
        "1:8: the type of 'A' isn't described: an enumeration or a struct is empty",
    ),
    (
        "struct A { long a[0]; };",
        "1:19: '0' isn't a bound from 1 to 4294967295",
    ),
    (
        "struct A { long a[4294967296]; };",
        "1:19: '4294967296' isn't a bound from 1 to 4294967295",
    ),
    (
        "struct A { long a[08]; };",
        "1:19: '08' isn't a number that fits",
    ),
    (
        "struct A { long a[65536][65536]; };",
        "1:18: the type of '[' isn't described: an array has no items or too many",
    ),
    (
        "struct A { long long; };",
        "1:21: a name is expected before ';'",
    ),
    (
        "struct A { long boolean; };",
        "1:17: a name is expected before 'boolean'",
    ),
    (
        "struct A { long double a; };",
        "1:17: 'double' isn't supported",
    ),
    (
        "struct A { wstring a; };",
        "1:12: 'wstring' isn't supported",
    ),
    (
        "struct A { map<long, long> a; };",
        "1:12: 'map' isn't supported",
    ),
    (
        "union U switch (long) { case 1: long a; };",
        "1:1: 'union' isn't supported",
    ),
    (
        "@final @appendable struct A { long a; };",
        "1:9: the annotation 'appendable' isn't supported",
    ),
    (
        "struct A { @optional long a; };",
        "1:13: the annotation 'optional' isn't supported",
    ),
    ("struct A : B { long a; };", "1:10: ':' isn't supported"),
    ("struct A { long a; }", "1:21: 'the end' isn't expected"),
    (
        "struct A { string<> a; };",
        "1:19: a name is expected before '>'",
    ),
    (
        "const string A = \"b\n",
        "1:18: the literal doesn't end on its line",
    ),
    ("}", "1:1: '}' isn't expected"),
    ("module m { module M { }; };", ""),
    (
        "module m { }; module M { };",
        "1:22: the name 'M' is declared already",
    ),
];

#[test]
fn each_fault_has_its_place(rt: HostRuntime) -> Result<(), Fail> {
    let alloc = rt.alloc();
    for (text, wanted) in REFUSED {
        let printed = refusal(alloc, text.as_bytes())?;
        let printed = printed.as_str();
        match printed.strip_prefix("robot.idl:") {
            Some(printed) => assert_eq!(rt; printed, wanted),
            None => assert_eq!(rt; printed, wanted, "{text}"),
        }
    }
    let printed = refusal(alloc, b"// \xc3\xa9\n// \xff")?;
    assert_eq!(rt; printed.as_str(), "robot.idl:2:4: the text isn't UTF-8");
    Ok(())
}
