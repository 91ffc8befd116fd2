use crate::{capture_name, chains_name, generate, generated_chain_file};
use brick_base::{NoMemory, fnv1a};
use std::process::Abort;
use std::test::Fail;

/// A record's four numbers: second 0, fraction 0, 154 bytes captured of 154.
const RECORD_HEAD: [u8; 16] = [0, 0, 0, 0, 0, 0, 0, 0, 0x9a, 0, 0, 0, 0x9a, 0, 0, 0];

/// TCP from 10.0.0.1:2000 to 198.51.100.2:80 with the sequence number 1. Both checksums are right. 100 zero bytes follow.
const HEADERS: [u8; 54] = [
    0x02, 0x00, 0x00, 0x00, 0x00, 0x01, 0x02, 0x00, 0x00, 0x00, 0x00, 0x02, 0x08, 0x00, 0x45, 0x00,
    0x00, 0x8c, 0x00, 0x00, 0x40, 0x00, 0x40, 0x06, 0x06, 0x36, 0x0a, 0x00, 0x00, 0x01, 0xc6, 0x33,
    0x64, 0x02, 0x07, 0xd0, 0x00, 0x50, 0x00, 0x00, 0x00, 0x01, 0x00, 0x00, 0x00, 0x00, 0x50, 0x18,
    0xff, 0xff, 0x73, 0x11, 0x00, 0x00,
];

/// Numbers and counts, and the length and the hash (FNV-1a) of the capture, as `tools/make_gen.py` prints them.
const CAPTURES: [(u64, u32, usize, u64); 8] = [
    (7, 0, 24, 0x4cba_59b6_23d9_4d76),
    (7, 1, 194, 0x87f5_0f06_a459_42aa),
    (7, 14, 1_844, 0xd7f7_e940_482a_2699),
    (29, 1, 100, 0x8233_fcdf_fd60_09d6),
    (18_446_744_073_709_551_615, 3, 454, 0x10c0_6b74_26df_2322),
    (0, 100, 13_100, 0xc09b_c80f_9298_a8ec),
    (7, 2_000, 258_186, 0xdcb1_dee1_5114_8653),
    (7, 20_000, 2_588_836, 0x25c9_3a12_cdef_aa98),
];

#[test]
fn the_first_record_of_seven(rt: HostRuntime) -> Result<(), NoMemory> {
    let bytes = generate(rt.alloc(), 7, 1)?;
    assert_eq!(rt; bytes.len(), 194);
    assert_eq!(rt; &bytes[24..40], RECORD_HEAD.as_slice());
    assert_eq!(rt; &bytes[40..94], HEADERS.as_slice());
    assert_eq!(rt; &bytes[94..], [0; 100].as_slice());
    Ok(())
}

#[test]
fn captures_are_those_of_the_formats(rt: HostRuntime) -> Result<(), NoMemory> {
    for (number, count, length, hash) in CAPTURES {
        assert!(rt; count <= 20_000);
        let bytes = generate(rt.alloc(), number, count)?;
        assert_eq!(rt; bytes.len(), length);
        assert_eq!(rt; fnv1a(&bytes), hash);
    }
    Ok(())
}

#[test]
fn files_of_a_folder(rt: HostRuntime) -> Result<(), Fail> {
    let alloc = rt.alloc();
    assert_eq!(rt; capture_name(alloc, "out")?.as_str(), "out/gen.pcap");
    assert_eq!(rt; chains_name(alloc, "out")?.as_str(), "out/gen.toml");
    let text = generated_chain_file(alloc, "out")?;
    assert_eq!(rt;
        text.as_str(),
        "version = 1
[[tenant]]
name = \"gen\"
capture = \"out/gen.pcap\"
stages = [{ stage = \"ttl\" }]
[[tenant.group]]
name = \"web\"
match = { proto = \"tcp\", port = 80 }
stages = [{ stage = \"window\", size = 512 }]
[[tenant.group]]
name = \"rest\"
"
    );
    Ok(())
}
