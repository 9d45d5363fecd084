//! Tests against the digits that Python prints: `repr`, and for one of them `'%.16e'`.

use crate::*;
use linked_list_allocator::LocalHeap;
use std::test::Fail;

const DOUBLES: [(u64, &str); 46] = [
    (0x0000000000000000, "0.0"),
    (0x8000000000000000, "-0.0"),
    (0x3ff0000000000000, "1.0"),
    (0xbff8000000000000, "-1.5"),
    (0x3fb999999999999a, "0.1"),
    (0x3fd5555555555555, "0.3333333333333333"),
    (0x4059000000000000, "100.0"),
    (0x40fe240c9fbe76c9, "123456.789"),
    (0x7fefffffffffffff, "1.7976931348623157e308"),
    (0x0000000000000001, "5e-324"),
    (0x0010000000000000, "2.2250738585072014e-308"),
    (0x000fffffffffffff, "2.225073858507201e-308"),
    (0x4480f0cf064dd592, "1e22"),
    (0x44b52d02c7e14af6, "1e23"),
    (0x4340000000000000, "9007199254740992.0"),
    (0x430c6bf526340000, "1000000000000000.0"),
    (0x4341c37937e08000, "1e16"),
    (0x437b69b4ba630f35, "1.2345678901234568e17"),
    (0x3f1a36e2eb1c432d, "0.0001"),
    (0x3ee4f8b588e368f1, "0.00001"),
    (0x3f1f75104d551d69, "0.00012"),
    (0x3e8421f5f40d8376, "1.5e-7"),
    (0x4023000000000000, "9.5"),
    (0x0000000000000003, "1.5e-323"),
    (0x4450000000000000, "1.1805916207174113e21"),
    (0x41b1de784a000000, "299792458.0"),
    (0x400921fb54442d18, "3.141592653589793"),
    (0xc071126666666666, "-273.15"),
    (0x44b52d02c7e14af6, "1e23"),
    (0x4011666666666666, "4.35"),
    (0x3eb0000000000000, "9.5367431640625e-7"),
    (0xf2a74de452e6b438, "-1.989032661366619e244"),
    (0x6513270e269e0d37, "7.761117632285041e178"),
    (0x0c5c7fd0a6a3a450, "3.980498358697587e-249"),
    (0xd23f0824128b2f33, "-1.5432835417340557e88"),
    (0x1818e811892f902b, "1.3647584518757569e-192"),
    (0x9531985d5d9dc9f8, "-1.3701135617873088e-206"),
    (0xe8e25d940ed90475, "-1.7160537630466207e197"),
    (0x36f675cc81e74ef5, "6.294675241195386e-44"),
    (0x1600a35a099950d8, "1.0613447212142254e-202"),
    (0x6b0d549b6f03675a, "4.708325160387546e207"),
    (0x3d9c172411e20b8f, "6.387016158513563e-12"),
    (0x8d116ece1738f7d9, "-9.973130378568733e-246"),
    (0x0f21ddb66cad4a26, "8.779753225680271e-236"),
    (0x90c192cfd3ac94af, "-5.795503248498993e-228"),
    // A power of two: 7.120236347223044e-307 reads as the float below, and 7.120236347223045e-307,
    // which reads as this one, isn't what 16 digits are rounded to.
    (0x0060_0000_0000_0000, "7.1202363472230444e-307"),
];

const FLOATS: [(u32, &str); 32] = [
    (0x00000000, "0.0"),
    (0x80000000, "-0.0"),
    (0x3f800000, "1.0"),
    (0x3dcccccd, "0.1"),
    (0x3eaaaaab, "0.33333334"),
    (0xc0200000, "-2.5"),
    (0x4b800000, "16777216.0"),
    (0x7f7fffff, "3.4028235e38"),
    (0x00000001, "1e-45"),
    (0x00800000, "1.1754944e-38"),
    (0x501502f9, "10000000000.0"),
    (0x5368d4a5, "1000000000000.0"),
    (0x551184e7, "1e13"),
    (0x538fb6f8, "1234500000000.0"),
    (0x3727c5ac, "0.00001"),
    (0x358637bd, "0.000001"),
    (0x33d6bf95, "1e-7"),
    (0x411ce80a, "9.80665"),
    (0x40490fdb, "3.1415927"),
    (0x3e99999a, "0.3"),
    (0x4c000000, "33554432.0"),
    (0x66ff0c2e, "6.0221406e23"),
    (0x0fd8be11, "2.1372455e-29"),
    (0x7946082e, "6.4265043e34"),
    (0x1c93182c, "9.733892e-22"),
    (0x50b8599c, "24743043000.0"),
    (0x504fbb5a, "13940648000.0"),
    (0x4a9fa478, "5231164.0"),
    (0x794e86d4, "6.7021737e34"),
    (0x07eb1878, "3.5373252e-34"),
    (0x49de8267, "1822796.9"),
    (0x4af3057a, "7963325.0"),
];

#[test]
fn doubles(rt: HostRuntime) -> Result<(), Fail> {
    for (bits, text) in DOUBLES {
        let mut out = Vec::new(rt.alloc());
        push_double(&mut out, bits)?;
        assert_eq!(rt; out.as_slice(), text.as_bytes());
    }
    Ok(())
}

#[test]
fn floats(rt: HostRuntime) -> Result<(), Fail> {
    for (bits, text) in FLOATS {
        let mut out = Vec::new(rt.alloc());
        push_float(&mut out, bits)?;
        assert_eq!(rt; out.as_slice(), text.as_bytes());
    }
    Ok(())
}

#[test]
fn what_is_no_number_is_a_string(rt: HostRuntime) -> Result<(), Fail> {
    let mut out = b"> ".to_vec(rt.alloc())?;
    push_double(&mut out, 0x7ff0_0000_0000_0000)?;
    push_double(&mut out, 0xfff0_0000_0000_0000)?;
    push_double(&mut out, 0x7ff8_0000_0000_0000)?;
    push_float(&mut out, 0x7f80_0000)?;
    push_float(&mut out, 0xff80_0000)?;
    push_float(&mut out, 0xffc0_0000)?;
    assert_eq!(rt;
        out.as_slice(),
        b"> \"Infinity\"\"-Infinity\"\"NaN\"\"Infinity\"\"-Infinity\"\"NaN\"".as_slice()
    );
    Ok(())
}

#[test]
fn refused_growths(rt: HostRuntime) -> Result<(), Fail> {
    let (mut refused, mut pushed) = (0, 0);
    for step in 0..64 {
        let heap = LocalHeap::new(rt.alloc(), step * 64)?;
        match push_double(&mut Vec::new(&heap), 0x3fb9_9999_9999_999a) {
            Ok(()) => pushed |= 1,
            Err(_) => refused |= 1,
        }
    }
    assert_eq!(rt; (refused, pushed), (1, 1));
    Ok(())
}
