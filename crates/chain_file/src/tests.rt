use crate::{Below, ChainSet, Dry, Stage, Unparsed, fault_text};
use std::alloc::{Alloc, AllocError, Global};
use std::test::Fail;

const CHAINS: &str =
    "version = 1\n[[tenant]]\nname = \"a\"\ncapture = \"in.pcap\"\nunparsed = \"drop\"\nstages = [{ stage = \"ttl\" }]\n[[tenant.group]]\nname = \"web\"\n";

/// Two tenants with every stage that a file may name, and groups in a group.
const WHOLE: &str = "version = 2
[[tenant]]
name = \"a\"
capture = \"a.pcap\"
nat = { inside = \"10.0.0.0/8\", outside = \"203.0.113.1\", base = 40000, ports = 2 }
stages = [
    { stage = \"firewall\", default = \"deny\", established = true, rule = [{ verdict = \"allow\", match = { proto = \"tcp\", dport = 443 } }] },
    { stage = \"nat\" },
    { stage = \"route\", mac = \"02:00:00:00:00:FF\", route = [{ to = \"0.0.0.0/0\", via = \"02:00:00:00:00:01\" }] },
    { stage = \"balance\", backend = [{ name = \"one\", mac = \"02:00:00:00:00:02\" }], epoch = [{ from = 5, backend = [{ name = \"two\", mac = \"02:00:00:00:00:03\" }] }] },
]
[[tenant.group]]
name = \"tcp\"
match = { proto = \"tcp\" }
stages = [{ stage = \"window\", size = 512 }]
[[tenant.group.group]]
name = \"web\"
match = { port = 80 }
[[tenant.group.group]]
name = \"other\"
into = \"rest\"
[[tenant.group]]
name = \"rest\"
[[tenant]]
name = \"b\"
capture = \"a.pcap\"
[[tenant.group]]
name = \"all\"
";

#[test]
fn a_chain_is_read(rt: HostRuntime) -> Result<(), Fail> {
    let set = ChainSet::read(rt.alloc(), CHAINS.as_bytes(), "c.toml", "out")?;
    assert_eq!(rt; set.tenants(), 1);
    let chain = set.chain(0);
    assert_eq!(rt;
        (chain.name.as_str(), chain.capture.as_str()),
        ("a", "in.pcap")
    );
    assert_eq!(rt; (chain.buffers, chain.bytes), (256, 65_600));
    assert_eq!(rt; (chain.dry, chain.unparsed), (Dry::Wait, Unparsed::Drop));
    assert!(rt; chain.stages.len() == 1 && matches!(chain.stages[0], Stage::Ttl));
    assert!(rt; chain.outputs.len() == 1 && chain.outputs[0].as_str() == "web");
    assert_eq!(rt; set.into_chains().len(), 1);
    Ok(())
}

#[test]
fn every_stage_is_read(rt: HostRuntime) -> Result<(), Fail> {
    let set = ChainSet::read(rt.alloc(), WHOLE.as_bytes(), "c.toml", "out")?;
    assert_eq!(rt; set.tenants(), 2);
    let chain = set.chain(0);
    assert!(rt; chain.nat.is_some() && chain.stages.len() == 4);
    assert!(rt; matches!(chain.stages[3], Stage::Balance { .. }));
    assert_eq!(rt; chain.groups.len(), 2);
    assert!(rt; matches!(chain.groups[0].below, Below::Inner(_)));
    assert!(rt; matches!(chain.groups[1].below, Below::Output(1)));
    assert!(rt; chain.outputs.len() == 2 && chain.outputs[1].as_str() == "rest");
    Ok(())
}

#[test]
fn faults_are_told(rt: HostRuntime) -> Result<(), Fail> {
    for (text, want) in [
        ("a = ", "chains: 1 NotToml\n"),
        ("", "chains: 2 Missing place=0 key=version\n"),
        ("version = 3\n", "chains: 4 Range place=0 key=version\n"),
        (
            "version = 1\nzebra = 1\n",
            "chains: 3 Unknown place=0 key=zebra\n",
        ),
        (
            "version = 1\n[[tenant]]\nname = \"A\"\n",
            "chains: 5 Name place=1\n",
        ),
        (
            "version = 1\ntenant = [{},{},{},{},{},{},{},{},{},{},{},{},{},{},{},{},{}]\n",
            "chains: 8 TooManyTenants count=17\n",
        ),
        (
            "version = 1\n[[tenant]]\nname = \"a\"\ncapture = \"out/a.refused\"\n[[tenant.group]]\nname = \"web\"\n",
            "chains: 9 Collides out/a.refused\n",
        ),
    ] {
        let line = refusal(&rt, text)?;
        assert_eq!(rt; line.as_str(), want);
    }
    Ok(())
}

/// The line of the fault of a file that is refused.
fn refusal(rt: &impl Alloc<A = Global>, text: &str) -> Result<String, Fail> {
    match ChainSet::read(rt.alloc(), text.as_bytes(), "c.toml", "out") {
        Ok(_) => {
            let none = String::from_str(rt.alloc(), "accepted")?;
            Ok(none)
        }
        Err(fault) => {
            let line = fault_text(rt.alloc(), &fault)?;
            Ok(line)
        }
    }
}

/// The chain file, filled up with line feeds.
fn filled(rt: &impl Alloc<A = Global>, len: usize) -> Result<Vec<u8>, AllocError> {
    let mut bytes: Vec<u8> = Vec::new(rt.alloc());
    bytes.extend_from_slice(CHAINS.as_bytes())?;
    bytes.resize(len, b'\n')?;
    Ok(bytes)
}

#[test]
fn the_longest_file_is_read(rt: HostRuntime) -> Result<(), Fail> {
    let bytes = filled(&rt, 1_048_576)?;
    let set = ChainSet::read(rt.alloc(), &bytes, "c.toml", "out")?;
    assert_eq!(rt; set.chain(0).name.as_str(), "a");
    Ok(())
}

#[test]
fn a_longer_file_is_refused(rt: HostRuntime) -> Result<(), Fail> {
    let bytes = filled(&rt, 1_048_577)?;
    let Err(fault) = ChainSet::read(rt.alloc(), &bytes, "c.toml", "out") else {
        assert!(rt; false, "this file is refused");
        return Ok(());
    };
    let line = fault_text(rt.alloc(), &fault)?;
    assert_eq!(rt; line.as_str(), "chains: 10 TooLong\n");
    Ok(())
}
