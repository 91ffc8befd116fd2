use crate::write_generated;
use std::alloc::Global;
use std::process::Abort;
use std::test::Fail;
use store_io::{IoFault, MemStore};

/// The length of the capture of number 7, as `tools/make_gen.py` prints it.
const CAPTURE: usize = 2_588_836;

/// The length of the chain file of the folder `out`.
const CHAINS: usize = 232;

/// How many records there are, or why there are none; and how long the two files are, where they are there.
type Left = (Result<u32, IoFault>, Option<usize>, Option<usize>);

/// What is left of number 7 in the folder `out`, where calls of the store fail.
fn left(alloc: Global, fails: Vec<u32>) -> Result<Left, Fail> {
    let mut store = MemStore::new(alloc, Vec::new(alloc), fails)?;
    let answer = match write_generated(alloc, &mut store, 7, "out") {
        Ok(generated) => Ok(generated.capture.count()),
        Err(fault) => Err(fault),
    };
    let capture = store.file("out/gen.pcap").map(|bytes| bytes.len());
    let chains = store.file("out/gen.toml").map(|bytes| bytes.len());
    Ok((answer, capture, chains))
}

#[test]
fn both_files_are_written(rt: HostRuntime) -> Result<(), Fail> {
    let alloc = rt.alloc();
    let (answer, capture, chains) = left(alloc, Vec::new(alloc))?;
    assert_eq!(rt; answer, Ok(20_000));
    assert_eq!(rt; capture, Some(CAPTURE));
    assert_eq!(rt; chains, Some(CHAINS));
    Ok(())
}

/// The calls are: make the capture, three pieces of at most 1,048,576 bytes, make the chain file, and its text. A piece whose call fails
/// is written to its half.
#[test]
fn each_call_fails_in_turn(rt: HostRuntime) -> Result<(), Fail> {
    let alloc = rt.alloc();
    let table = [
        (0, None, None),
        (1, Some(524_288), None),
        (2, Some(1_572_864), None),
        (3, Some(2_342_994), None),
        (4, Some(CAPTURE), None),
        (5, Some(CAPTURE), Some(CHAINS / 2)),
    ];
    for (call, capture, chains) in table {
        let found = left(alloc, [call].to_vec(alloc)?)?;
        assert_eq!(rt; found.0, Err(IoFault::Failed));
        assert_eq!(rt; found.1, capture);
        assert_eq!(rt; found.2, chains);
    }
    Ok(())
}
