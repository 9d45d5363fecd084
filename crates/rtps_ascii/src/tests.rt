//! Tests of each push onto a text that isn't empty.

use crate::*;
use linked_list_allocator::LocalHeap;
use std::test::Fail;

#[test]
fn what_is_pushed_stands_behind(rt: HostRuntime) -> Result<(), Fail> {
    let mut out = b"> ".to_vec(rt.alloc())?;
    push_word(&mut out, "sample ")?;
    push_hex(&mut out, b"\x00\x9f\xab")?;
    push_octet(&mut out, b' ')?;
    push_hex(&mut out, b"")?;
    push_octet(&mut out, b' ')?;
    push_hex(
        &mut out,
        b"\x01\x23\x45\x67\x89\xab\xcd\xef\x90\xa9\xff\x0a\xf0\x00\x7f\x80\x5d",
    )?;
    push_octet(&mut out, b' ')?;
    push_hex_array(&mut out, &[])?;
    push_octet(&mut out, b' ')?;
    push_hex_array(&mut out, b"\x00\x0f\x9a\xff")?;
    push_octet(&mut out, b' ')?;
    push_hex_array(&mut out, b"0123456789:;<=>?@")?;
    push_octet(&mut out, b' ')?;
    for number in [18_446_744_073_709_551_615, 0, 9, 10] {
        push_number(&mut out, number)?;
        push_octet(&mut out, b' ')?;
    }
    push_signed(&mut out, -2_147_483_648)?;
    assert_eq!(rt;
        out.as_slice(),
        b"> sample 009fab - 0123456789abcdef90a9ff0af0007f805d - 000f9aff 303132333435363738393a3b3c3d3e3f40 18446744073709551615 0 9 10 -2147483648".as_slice()
    );
    Ok(())
}

#[test]
fn refused_growths(rt: HostRuntime) -> Result<(), Fail> {
    let (mut refused, mut pushed) = (0, 0);
    for step in 0..16 {
        let heap = LocalHeap::new(rt.alloc(), step * 8)?;
        let outcomes = [
            push_word(
                &mut Vec::new(&heap),
                "a word that is longer than the least heap",
            ),
            push_octet(&mut Vec::new(&heap), b' '),
            push_hex(&mut Vec::new(&heap), b"\x00\x9f\xab"),
            push_hex_array(&mut Vec::new(&heap), b"\x00\x9f\xab"),
            push_number(&mut Vec::new(&heap), 256),
            push_signed(&mut Vec::new(&heap), -1),
        ];
        for (bit, outcome) in outcomes.iter().enumerate() {
            match outcome {
                Ok(()) => pushed |= 1 << bit,
                Err(_) => refused |= 1 << bit,
            }
        }
    }
    assert_eq!(rt; (refused, pushed), (63, 63));
    Ok(())
}
