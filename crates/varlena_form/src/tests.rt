use super::*;
use std::alloc::{AllocError, Global};
use std::test::Fail;

#[test]
fn forms_of_each_kind(rt: HostRuntime) {
    let rows: [(&[u8], Result<(Form<'_>, usize), FormFault>); 12] = [
        (&[0x09, 1, 2, 3], Ok((Form::Short(&[1, 2, 3]), 4))),
        (&[0x1c, 0, 0, 0, 1, 2, 3], Ok((Form::Plain(&[1, 2, 3]), 7))),
        (
            &[0x1e, 0, 0, 0, 1, 2, 3],
            Ok((Form::Compressed(&[1, 2, 3]), 7)),
        ),
        (&[0x01, 0x13], Err(FormFault::BadTag { tag: 19 })),
        (
            &[0x01, 0x12, 0, 0],
            Err(FormFault::Truncated { need: 18, have: 4 }),
        ),
        (&[0, 0, 0, 0], Err(FormFault::BadLength { length: 0 })),
        (&[], Err(FormFault::Truncated { need: 1, have: 0 })),
        (&[0x0c, 0, 0, 0], Err(FormFault::BadLength { length: 3 })),
        (&[0x10, 0, 0, 0], Ok((Form::Plain(&[]), 4))),
        (&[0x12, 0, 0, 0, 9], Ok((Form::Compressed(&[]), 4))),
        (
            &[0xfc, 0xff, 0xff, 0xff],
            Err(FormFault::Truncated {
                need: 1_073_741_823,
                have: 4,
            }),
        ),
        (
            &[0xfe, 0xff, 0xff, 0xff],
            Err(FormFault::Truncated {
                need: 1_073_741_823,
                have: 4,
            }),
        ),
    ];
    for (bytes, want) in rows {
        assert_eq!(rt; parse_form(bytes), want, "at {bytes:?}");
    }
}

#[test]
fn every_two_bytes(rt: HostRuntime) {
    for a in 0..=255u8 {
        let one = match a {
            1 => Err(FormFault::Truncated { need: 2, have: 1 }),
            3 => Ok((Form::Short(&[]), 1)),
            _ if a % 2 == 1 => Err(FormFault::Truncated {
                need: usize::from(a / 2),
                have: 1,
            }),
            _ => Err(FormFault::Truncated { need: 4, have: 1 }),
        };
        assert_eq!(rt; parse_form(&[a]), one, "at {a}");
        for b in 0..=255u8 {
            let payload = [b];
            let two = match a {
                1 if b == 18 => Err(FormFault::Truncated { need: 18, have: 2 }),
                1 => Err(FormFault::BadTag { tag: b }),
                3 => Ok((Form::Short(&[]), 1)),
                5 => Ok((Form::Short(&payload), 2)),
                _ if a % 2 == 1 => Err(FormFault::Truncated {
                    need: usize::from(a / 2),
                    have: 2,
                }),
                _ => Err(FormFault::Truncated { need: 4, have: 2 }),
            };
            assert_eq!(rt; parse_form(&[a, b]), two, "at {a} {b}");
        }
    }
}

#[test]
fn every_tag(rt: HostRuntime) {
    let mut bytes = [7; 20];
    bytes[0] = 1;
    for tag in 0..=255u8 {
        bytes[1] = tag;
        let want = if tag == 18 {
            Ok((Form::External(&bytes[..18]), 18))
        } else {
            Err(FormFault::BadTag { tag })
        };
        assert_eq!(rt; parse_form(&bytes), want, "at {tag}");
    }
}

fn payload_of(alloc: Global, len: usize) -> Result<Vec<u8>, AllocError> {
    vec![in alloc; 5u8; len]
}

#[test]
fn short_written_and_read(rt: HostRuntime) -> Result<(), Fail> {
    let rows: [(usize, u8); 5] = [(0, 3), (3, 9), (4, 11), (125, 253), (126, 255)];
    for (len, header) in rows {
        let payload = payload_of(rt.alloc(), len)?;
        let mut out = vec![in rt.alloc(); 0xaa]?;
        assert!(rt; payload.len() <= 126);
        write_short(&payload, &mut out)?;
        assert!(rt; out.len() >= 2);
        assert_eq!(rt; out[1], header, "at {len}");
        assert_eq!(rt; parse_form(&out[1..]), Ok((Form::Short(&payload), len + 1)));
    }
    Ok(())
}

#[test]
fn plain_written_and_read(rt: HostRuntime) -> Result<(), Fail> {
    let rows: [(usize, [u8; 4]); 6] = [
        (0, [0x10, 0, 0, 0]),
        (3, [0x1c, 0, 0, 0]),
        (4, [0x20, 0, 0, 0]),
        (126, [0x08, 2, 0, 0]),
        (127, [0x0c, 2, 0, 0]),
        (65_536, [0x10, 0, 4, 0]),
    ];
    for (len, header) in rows {
        let payload = payload_of(rt.alloc(), len)?;
        let mut out = vec![in rt.alloc(); 0xaa]?;
        assert!(rt; payload.len() <= 65_536);
        write_plain(&payload, &mut out)?;
        assert!(rt; out.len() >= 5);
        assert_eq!(rt; &out[1..5], header.as_slice(), "at {len}");
        assert_eq!(rt; parse_form(&out[1..]), Ok((Form::Plain(&payload), len + 4)));
    }
    Ok(())
}
