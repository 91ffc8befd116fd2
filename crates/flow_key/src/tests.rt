use crate::{Classifier, NatPlan, classify_all};
use brick_base::{Class, Dir, Ends, Prefix};
use pcap_io::{Capture, Frame, Item, Writer};
use std::alloc::Global;
use std::process::Abort;
use std::test::Fail;

/// A frame with an IPv4 layer of this protocol, from one end to another. TCP, UDP and ICMP find their headers in it.
fn frame(proto: u8, source: (u32, u16), destination: (u32, u16)) -> [u8; 54] {
    let mut frame = [0; 54];
    frame[12] = 8;
    frame[14] = 0x45;
    frame[17] = 40;
    frame[22] = 64;
    frame[23] = proto;
    frame[26..30].copy_from_slice(&source.0.to_be_bytes());
    frame[30..34].copy_from_slice(&destination.0.to_be_bytes());
    frame[34..36].copy_from_slice(&source.1.to_be_bytes());
    frame[36..38].copy_from_slice(&destination.1.to_be_bytes());
    // the UDP length, and the TCP data offset
    frame[39] = 20;
    frame[46] = 0x50;
    frame
}

/// The classes of the records of a capture of these frames.
fn classes(
    rt: &impl Abort,
    alloc: Global,
    nat: Option<NatPlan>,
    frames: &[&[u8]],
) -> Result<Vec<Class>, Fail> {
    let mut writer = Writer::new(alloc, false)?;
    for frame in frames {
        assert!(rt; frame.len() <= 262144);
        writer.append(&Item {
            a: 0,
            j: 0,
            seconds: 0,
            fraction: 0,
            original: 0,
            frame: Frame::of(frame.to_vec(alloc)?),
        })?;
    }
    let bytes = writer.into_bytes();
    assert!(rt; bytes.len() <= 33554432);
    let capture = Capture::read(alloc, bytes)?;
    Ok(classify_all(alloc, nat, &capture)?)
}

/// The flow, the direction and the rank of each record.
fn told(alloc: Global, classes: &[Class]) -> Result<Vec<(u32, Dir, Option<u32>)>, Fail> {
    let mut told = Vec::new(alloc);
    for class in classes {
        told.push((class.flow, class.dir, class.rank))?;
    }
    Ok(told)
}

#[test]
fn flows_are_translated(rt: HostRuntime) -> Result<(), Fail> {
    let inside = Prefix::new(0x0a000000, 8);
    let plan = inside.and_then(|inside| NatPlan::new(inside, 0xcb007101, 40000, 2));
    assert!(rt; plan.is_some());
    let server = (0xc6336402, 80);
    let first = frame(6, (0x0a000001, 1000), server);
    let second = frame(6, (0x0a000002, 1000), server);
    let reply = frame(6, server, (0xcb007101, 40000));
    let third = frame(6, (0x0a000003, 1000), server);
    // to the port behind the last one of the plan, and from another peer
    let past = frame(6, server, (0xcb007101, 40002));
    let stranger = frame(6, (0xc6336403, 80), (0xcb007101, 40000));
    let frames: [&[u8]; 6] = [&first, &second, &reply, &third, &past, &stranger];
    let classes = classes(&rt, rt.alloc(), plan, &frames)?;
    let wanted = [
        (0, Dir::Forward, Some(0)),
        (1, Dir::Forward, Some(1)),
        (0, Dir::Reversed, Some(0)),
        (2, Dir::Forward, Some(2)),
        (3, Dir::Forward, None),
        (4, Dir::Forward, None),
    ];
    assert_eq!(rt; told(rt.alloc(), &classes)?.as_slice(), wanted.as_slice());
    Ok(())
}

/// The end of an address and a port.
const NEAR: (u32, u16) = (0x0a000001, 1000);

const FAR: (u32, u16) = (0x0a010203, 53);

/// The classes of frames of UDP between two ends and back, of TCP, of ICMP, of a fragment, between equal ends, and of class Other.
fn classes_of_ends(rt: &impl Abort, alloc: Global) -> Result<Vec<Class>, Fail> {
    let out = frame(17, NEAR, FAR);
    let back = frame(17, FAR, NEAR);
    let tcp = frame(6, NEAR, FAR);
    let icmp = frame(1, NEAR, FAR);
    let mut fragment = out;
    fragment[20] = 0x20;
    let alike = frame(17, NEAR, NEAR);
    let other = [0u8; 13];
    // The second record is cut in its capture.
    let frames: [&[u8]; 10] = [
        &out,
        &out[..46],
        &back,
        &tcp,
        &icmp,
        &fragment,
        &alike,
        &alike,
        &other,
        &[],
    ];
    let classes = classes(rt, alloc, None, &frames)?;
    Ok(classes)
}

#[test]
fn keys_have_two_ends(rt: HostRuntime) -> Result<(), Fail> {
    let classes = classes_of_ends(&rt, rt.alloc())?;
    let wanted = [
        (0, Dir::Forward, None),
        (0, Dir::Forward, None),
        (0, Dir::Reversed, None),
        (1, Dir::Forward, None),
        (2, Dir::Forward, None),
        (3, Dir::Forward, None),
        (4, Dir::Forward, None),
        (4, Dir::Forward, None),
        (5, Dir::Forward, None),
        (5, Dir::Forward, None),
    ];
    assert_eq!(rt; told(rt.alloc(), &classes)?.as_slice(), wanted.as_slice());
    Ok(())
}

#[test]
fn a_flow_has_the_ends_of_its_first_record(rt: HostRuntime) -> Result<(), Fail> {
    let classes = classes_of_ends(&rt, rt.alloc())?;
    let ends = |(src, sport): (u32, u16), (dst, dport): (u32, u16)| Ends {
        src,
        sport,
        dst,
        dport,
    };
    assert!(rt; classes.len() == 10);
    assert_eq!(rt;
        (classes[2].first, classes[2].hash),
        (ends(NEAR, FAR), 0x3a66306ebc5b73b7)
    );
    // without ports
    assert_eq!(rt; classes[4].first, ends((NEAR.0, 0), (FAR.0, 0)));
    assert_eq!(rt; classes[5].first, ends((NEAR.0, 0), (FAR.0, 0)));
    // class Other
    assert_eq!(rt; classes[9].first, ends((0, 0), (0, 0)));
    assert_eq!(rt;
        (classes[9].other, classes[9].hash),
        (true, 0xcbf29ce484222325)
    );
    Ok(())
}

#[test]
fn a_record_is_classified(rt: HostRuntime) -> Result<(), Fail> {
    let mut classifier = Classifier::new(rt.alloc(), None)?;
    let class = classifier.classify(&[])?;
    assert_eq!(rt;
        (class.flow, class.dir, class.other),
        (0, Dir::Forward, true)
    );
    Ok(())
}
