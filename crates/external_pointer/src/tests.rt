ghost use Rattle.std.specs.Prelude.{◌≡◌};

use super::*;

// A value of 1,997 bytes with the id 16384 in the relation 8193.
const BYTES: [u8; 18] = [
    0x01, 0x12, 0xd1, 0x07, 0, 0, 0xcd, 0x07, 0, 0, 0x00, 0x40, 0, 0, 0x01, 0x20, 0, 0,
];

fn pointer_of(size: u32) -> Pointer
    ensures { result.size ≡ size }
{
    Pointer {
        size,
        value_id: 16_384,
        toast_rel: 8193,
    }
}

#[test]
fn fronts(rt: HostRuntime) {
    assert_eq!(rt; read_pointer(&BYTES), Ok(pointer_of(1997)));
    let mut longer = [0; 20];
    longer[..18].copy_from_slice(&BYTES);
    for (have, _) in longer.iter().enumerate() {
        let want = if have == 18 {
            Ok(pointer_of(1997))
        } else {
            Err(PointerFault::WrongLength { have })
        };
        assert_eq!(rt; read_pointer(&longer[..have]), want, "at {have}");
    }
    for byte in 0..=255u8 {
        let mut header = BYTES;
        header[0] = byte;
        if byte != 1 {
            assert_eq!(rt;
                read_pointer(&header),
                Err(PointerFault::BadHeader { byte })
            );
        }
        let mut tag = BYTES;
        tag[1] = byte;
        if byte != 18 {
            assert_eq!(rt; read_pointer(&tag), Err(PointerFault::BadTag { tag: byte }));
        }
    }
}

fn with_sizes(raw_size: u32, ext_info: u32) -> [u8; 18] {
    let mut bytes = BYTES;
    bytes[2..6].copy_from_slice(&raw_size.to_le_bytes());
    bytes[6..10].copy_from_slice(&ext_info.to_le_bytes());
    bytes
}

#[test]
fn plain_sizes(rt: HostRuntime) {
    let rows = [
        (4, 0),
        (5, 1),
        (2001, 1997),
        (2005, 2001),
        (1_073_741_823, 1_073_741_819),
    ];
    for (raw_size, ext_info) in rows {
        let bytes = with_sizes(raw_size, ext_info);
        assert_eq!(rt;
            read_pointer(&bytes),
            Ok(pointer_of(ext_info)),
            "at {raw_size} {ext_info}"
        );
    }
}

#[test]
fn compressed_sizes(rt: HostRuntime) {
    // Of the size words the second and third name the methods 1 and 2 beside the stored size 100.
    let rows = [
        (2001, 100),
        (2001, 0x4000_0064),
        (2001, 0x8000_0064),
        (2001, 1996),
        (5, 0),
        (1_073_741_824, 1_073_741_819),
        (4_294_967_295, 4_294_967_295),
    ];
    for (raw_size, ext_info) in rows {
        let bytes = with_sizes(raw_size, ext_info);
        let want = Err(PointerFault::Compressed { raw_size, ext_info });
        assert_eq!(rt; read_pointer(&bytes), want, "at {raw_size} {ext_info}");
    }
}

#[test]
fn bad_sizes(rt: HostRuntime) {
    // The size words 0x400007cd, 0x800007cd and 0xc00007cd name a method beside the stored size 1997.
    let rows = [
        (0, 0),
        (1, 0),
        (2, 0),
        (3, 0),
        (4, 1),
        (0, 4_294_967_292),
        (2001, 1998),
        (2001, 2000),
        (2001, 0x4000_07cd),
        (2001, 0x8000_07cd),
        (2001, 0xc000_07cd),
        (1_073_741_823, 1_073_741_820),
        (1_073_741_824, 1_073_741_820),
    ];
    for (raw_size, ext_info) in rows {
        let bytes = with_sizes(raw_size, ext_info);
        let want = Err(PointerFault::BadSize { raw_size, ext_info });
        assert_eq!(rt; read_pointer(&bytes), want, "at {raw_size} {ext_info}");
    }
}

#[test]
fn written_bytes(rt: HostRuntime) {
    let mut out = [0xaa; 18];
    write_pointer(&pointer_of(1997), &mut out);
    assert_eq!(rt; out, BYTES);
    write_pointer(&pointer_of(2001), &mut out);
    assert_eq!(rt;
        &out[2..10],
        [0xd5, 0x07, 0, 0, 0xd1, 0x07, 0, 0].as_slice()
    );
    let largest = Pointer {
        size: 1_073_741_819,
        value_id: 4_294_967_295,
        toast_rel: 8208,
    };
    write_pointer(&largest, &mut out);
    let words = [
        0xff, 0xff, 0xff, 0x3f, 0xfb, 0xff, 0xff, 0x3f, 0xff, 0xff, 0xff, 0xff, 0x10, 0x20, 0, 0,
    ];
    assert_eq!(rt; &out[2..], words.as_slice());
    assert_eq!(rt; read_pointer(&out), Ok(largest));
}
