//! Tests of doubles as decimals. The texts are those of Python's `repr`, except for the notation of
//! exponents, whole numbers and values that are not numbers.

use std::test::Fail;
use text_decimal::decimal::write_double;

static TEXTS: [(u64, &str); 18] = [
    (0x0000_0000_0000_0000, "0."),
    (0x8000_0000_0000_0000, "-0."),
    (0x3ff0_0000_0000_0000, "1."),
    (0xc059_0000_0000_0000, "-100."),
    (0x3fb9_9999_9999_999a, "0.1"),
    (0x3fd3_3333_3333_3334, "0.30000000000000004"),
    (0x3f1a_36e2_eb1c_432d, "0.0001"),
    (0x3ee4_f8b5_88e3_68f1, "0.00001"),
    (0x3eb0_c6f7_a0b5_ed8d, "1e-6"),
    (0x41da_c2aa_5f93_5021, "1795860862.3017657"),
    (0x4341_c379_37e0_8000, "1e16"),
    (0x4340_0000_0000_0000, "9007199254740992."),
    (0x4330_0000_0000_0001, "4503599627370497."),
    (0x0000_0000_0000_0001, "5e-324"),
    (0x0010_0000_0000_0000, "2.2250738585072014e-308"),
    (0x7fef_ffff_ffff_ffff, "1.7976931348623157e308"),
    (0x7ff0_0000_0000_0000, "$7ff0000000000000"),
    (0xfff8_0000_0000_0001, "$fff8000000000001"),
];

#[test]
fn doubles_have_their_texts(rt: HostRuntime) -> Result<(), Fail> {
    for (bits, want) in TEXTS.iter() {
        let mut text = Vec::new(rt.alloc());
        write_double(&mut text, *bits)?;
        assert!(rt; text.as_slice() == want.as_bytes());
    }
    Ok(())
}
