use crate::{ChainFault, address_of, prefix_of};
use brick_base::Name;
use lpm_fw::RouteFault;
use pcap_io::CaptureFault;
use std::test::Fail;

#[test]
fn addresses_and_prefixes(rt: HostRuntime) -> Result<(), Fail> {
    for (text, want) in [
        ("10.0.0.255", Some(167_772_415)),
        ("10.0.0.0255", None),
        ("10.0.0", None),
        ("10.0.0.256", None),
    ] {
        assert_eq!(rt; address_of(rt.alloc(), text)?, want, "for {text}");
    }
    for (text, there) in [
        ("10.0.0.0/8", true),
        ("0.0.0.0/0", true),
        ("10.0.0.1/32", true),
        ("10.0.0.1/8", false),
        ("10.0.0.0/08", false),
        ("10.0.0.0/33", false),
    ] {
        let prefix = prefix_of(rt.alloc(), text)?;
        assert_eq!(rt; prefix.is_some(), there, "for {text}");
    }
    Ok(())
}

#[test]
fn faults_have_a_text(rt: HostRuntime) -> Result<(), Fail> {
    let alloc = rt.alloc();
    let key = Name::new(alloc, "stage")?;
    let range = ChainFault::Range { place: 2, key };
    let routes = ChainFault::Route {
        place: 1,
        fault: RouteFault::SamePrefix {
            first: 3,
            second: 7,
        },
    };
    let magic = CaptureFault::Magic { word: 0xa1b2 };
    let text = format!(in alloc; "{range}; {routes}; {magic}")?;
    assert_eq!(rt;
        text.as_str(),
        "at place 2 the value of `stage` is none that may stand there; at place 1 the routes are refused: rows 3 and 7 have the same prefix; 0x0000a1b2 is no magic number of a capture"
    );
    Ok(())
}
