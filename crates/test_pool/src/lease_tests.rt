//! A value that is read beside its owner.
ghost use Rattle.std.specs.Prelude.{◌≡◌, ◌<◌, ◌^◌};

use lease::{Lease, Owner};
use std::test::Fail;
use std::thread::{Threads, join_mut};

/// Compiles where a value of the type may pass to another thread.
fn crosses<X: Send>(x: X) -> X
    ensures { result ≡ x }
{
    x
}

/// One thread reads its lease while the other lends two more and takes them back.
fn read_beside<R: Threads>(
    rt: &R,
    owner: &mut Owner<Vec<u64>>,
    lease: &Lease<Vec<u64>>,
    seen: &mut u64,
)
    requires few { owner.old.out < 2 ^ 64 }
    ensures as_before { owner.new ≡ owner.old }
{
    join_mut(
        rt,
        &mut || -> ()
            requires { owner.now.out < 2 ^ 64 }
            ensures { owner.exit.now ≡ owner.entry.now }
        {
            let second = owner.lend();
            let third = owner.lend();
            owner.give_back(second);
            owner.give_back(third)
        },
        &mut || -> () { *seen = lease.get().first().copied().unwrap_or(0) },
    );
}

#[test]
fn a_value_is_read_beside_its_owner_and_taken(rt: HostRuntime) -> Result<(), Fail> {
    let place = Box::new(rt.alloc(), vec![in rt.alloc(); 3u64; 5]?)?;
    let mut owner = crosses(Owner::new(place));
    let lease = crosses(owner.lend());
    let mut seen = 0;
    read_beside(&rt, &mut owner, &lease, &mut seen);
    let owner_sees = owner.get().len();
    owner.give_back(lease);
    let value = Box::into_inner(owner.take());
    assert_eq!(rt;
        (seen, owner_sees, value.as_slice()),
        (3, 5, [3, 3, 3, 3, 3].as_slice())
    );
    Ok(())
}
