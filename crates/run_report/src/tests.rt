use crate::{Line, Outcome, Output, Refusal, Tally, TenantEnd, outcome_text, status_of};
use brick_base::Name;
use chain_text::ChainFault;
use lpm_fw::RouteFault;
use std::alloc::Global;
use std::process::Abort;
use std::test::Fail;

/// The outcome has this text and this status.
fn tells(
    rt: &impl Abort,
    alloc: Global,
    outcome: &Outcome,
    text: &str,
    status: u8,
) -> Result<(), Fail> {
    let told = outcome_text(alloc, outcome)?;
    assert!(rt; told.as_str() == text, "{text}");
    assert_eq!(rt; status_of(outcome), status);
    Ok(())
}

/// A line of a tenant.
fn line(alloc: Global, name: &str, end: TenantEnd) -> Result<Line, Fail> {
    Ok(Line {
        name: Name::new(alloc, name)?,
        end,
    })
}

#[test]
fn outcomes_without_lines(rt: HostRuntime) -> Result<(), Fail> {
    let alloc = rt.alloc();
    let route = ChainFault::Route {
        place: 1,
        fault: RouteFault::HostBits { row: 0 },
    };
    let unknown = ChainFault::Route {
        place: 1,
        fault: RouteFault::NoMemory,
    };
    tells(
        &rt,
        alloc,
        &Outcome::Usage,
        "usage: bricks [--workers N] MODE CHAINS OUT\n",
        2,
    )?;
    tells(&rt, alloc, &Outcome::StoreFault, "store-fault\n", 4)?;
    tells(&rt, alloc, &Outcome::NoMemory, "out of memory\n", 6)?;
    tells(
        &rt,
        alloc,
        &Outcome::ChainsRefused(ChainFault::NotToml),
        "chains: 1 NotToml\n",
        3,
    )?;
    tells(
        &rt,
        alloc,
        &Outcome::ChainsRefused(ChainFault::NoMemory),
        "out of memory\n",
        6,
    )?;
    tells(
        &rt,
        alloc,
        &Outcome::ChainsRefused(unknown),
        "out of memory\n",
        6,
    )?;
    assert_eq!(rt; status_of(&Outcome::ChainsRefused(route)), 3);
    Ok(())
}

#[test]
fn lines_of_tenants(rt: HostRuntime) -> Result<(), Fail> {
    let alloc = rt.alloc();
    let outputs = vec![in alloc;
        Output {
            name: Name::new(alloc, "g")?,
            items: 2
        },
        Output {
            name: Name::new(alloc, "h")?,
            items: 0
        },
    ]?;
    let tally = Tally {
        accepted: 3,
        refused: 0,
        drops: [4, 0, 0, 0, 1, 0, 0, 0, 0],
        outputs,
    };
    let mut lines = Vec::new(alloc);
    lines.push(line(alloc, "a", TenantEnd::Done(tally))?)?;
    lines.push(line(alloc, "b", TenantEnd::TooLong)?)?;
    lines.push(line(
        alloc,
        "c",
        TenantEnd::BadCapture(Refusal::Magic {
            word: 3_569_594_895,
        }),
    )?)?;
    lines.push(line(alloc, "d", TenantEnd::ReadFault)?)?;
    lines.push(line(alloc, "e", TenantEnd::WriteFault)?)?;
    let text =
        "a done records=7 accepted=3 refused=0 Big=4 Unparsed=0 Fire=0 NoRoute=0 Ttl=1 NatFull=0 Filter=0 NoGroup=0 Reach=0 /g=2 /h=0\nb too-long\nc bad-capture 2 Magic word=d4c3b20f\nd read-fault\ne write-fault\n";
    tells(&rt, alloc, &Outcome::Reported(lines), text, 1)
}

#[test]
fn names_of_tenants_that_are_not_run(rt: HostRuntime) -> Result<(), Fail> {
    let alloc = rt.alloc();
    let names = vec![in alloc; Name::new(alloc, "a")?, Name::new(alloc, "b")?]?;
    tells(&rt, alloc, &Outcome::Checked(names), "a ok\nb ok\n", 0)
}
