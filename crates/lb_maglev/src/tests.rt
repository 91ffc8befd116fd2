use crate::{Epoch, Epochs, Maglev, are_named, plain};
use brick_base::Name;
use std::alloc::Global;
use std::process::Abort;
use std::test::Fail;

/// As many names: `a`, `b`, `c` and so on, then `name26`, `name27` and so on.
fn names_of(alloc: Global, count: u8) -> Result<Vec<Name>, Fail> {
    let mut names = Vec::new(alloc);
    for i in 0..count {
        let name = if i < 26 {
            format!(in alloc; "{}", (b'a' + i) as char)?
        } else {
            format!(in alloc; "name{i}")?
        };
        names.push(Name::new(alloc, &name)?)?;
    }
    Ok(names)
}

#[test]
fn tables(rt: HostRuntime) -> Result<(), Fail> {
    // How many names, and the shares of the first backend, the last and one past the list.
    for (count, want) in [(1, [251, 251, 0]), (3, [84, 83, 0]), (64, [4, 3, 0])] {
        let names = names_of(rt.alloc(), count)?;
        assert!(rt; 0 < names.len() && names.len() <= 64);
        let table = Maglev::build(rt.alloc(), &names)?;
        let shares = [table.share(0), table.share(count - 1), table.share(count)];
        assert_eq!(rt; shares, want, "for {count} names");

        let slow = plain::balance_table(rt.alloc(), &names)?;
        for (place, backend) in slow.iter().enumerate() {
            assert_eq!(rt;
                table.backend(place as u64),
                *backend,
                "at place {place} for {count} names"
            );
        }
        assert_eq!(rt; slow.len(), 251);
    }
    Ok(())
}

#[test]
fn backends_of_hashes(rt: HostRuntime) -> Result<(), Fail> {
    let names = names_of(rt.alloc(), 3)?;
    assert!(rt; names.len() == 3);
    let table = Maglev::build(rt.alloc(), &names)?;
    // An independent program's answers.
    for (hash, want) in [(0, 0), (4, 2), (250, 1), (251, 0), (255, 2), (u64::MAX, 0)] {
        assert_eq!(rt; table.backend(hash), want, "at hash {hash}");
    }
    Ok(())
}

/// Epochs that begin at these records, with as many names.
fn epochs_of(rt: &impl Abort, alloc: Global, rows: &[(u32, u8)]) -> Result<Epochs, Fail> {
    let mut epochs = Vec::new(alloc);
    for (from, count) in rows {
        let names = names_of(alloc, *count)?;
        epochs.push(Epoch { from: *from, names })?;
    }
    assert!(rt; 1 <= epochs.len() && epochs.len() <= 16);
    assert!(rt; are_named(&epochs));
    Ok(Epochs::build(alloc, epochs)?)
}

#[test]
fn epochs(rt: HostRuntime) -> Result<(), Fail> {
    let one = epochs_of(&rt, rt.alloc(), &[(0, 1)])?;
    assert_eq!(rt; one.backend(7, 9), (0, 0));

    // one name to record 1, three from record 2 on, two from record 5 on
    let changing = epochs_of(&rt, rt.alloc(), &[(0, 1), (2, 3), (5, 2)])?;
    let rows = [(0, 0), (1, 0), (2, 1), (4, 1), (5, 2), (u32::MAX, 2)];
    for (opened, epoch) in rows {
        assert_eq!(rt; changing.backend(opened, 4).0, epoch, "at record {opened}");
    }
    assert_eq!(rt;
        (changing.backend(1, 4), changing.backend(2, 4)),
        ((0, 0), (1, 2))
    );
    Ok(())
}
