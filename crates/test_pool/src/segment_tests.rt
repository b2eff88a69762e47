//! Rooms that are written in parts.
ghost use Rattle.std.specs.Prelude.{◌≡◌, [], ◌∷◌};
ghost use Rattle.segment.specs.Places.{unwritten, written};

use segment::{Room, Segment};
use std::test::Fail;
use std::thread::{Threads, join_mut};

/// Two threads write their own ranges.
fn fill_both<R: Threads>(rt: &R, low: &mut Segment<u64>, high: &mut Segment<u64>)
    requires low { low.old.places ≡ unwritten ∷ unwritten ∷ [] }
    requires high { high.old.places ≡ unwritten ∷ unwritten ∷ [] }
    ensures low { low.new ≡ record low.old { places = written 10 ∷ written 11 ∷ [] } }
    ensures high { high.new ≡ record high.old { places = written 12 ∷ written 13 ∷ [] } }
{
    join_mut(
        rt,
        &mut || -> ()
            requires { low.now.places ≡ unwritten ∷ unwritten ∷ [] }
            ensures { low.exit.now ≡ record low.entry.now { places = written 10 ∷ written 11 ∷ [] } }
        {
            low.write(1, 11);
            low.write(0, 10)
        },
        &mut || -> ()
            requires { high.now.places ≡ unwritten ∷ unwritten ∷ [] }
            ensures { high.exit.now ≡ record high.entry.now { places = written 12 ∷ written 13 ∷ [] } }
        {
            high.write(0, 12);
            high.write(1, 13)
        },
    );
}

#[test]
fn a_room_is_written_by_two_threads_and_sealed(rt: HostRuntime) -> Result<(), Fail> {
    let mut room = Room::new(Vec::with_capacity(rt.alloc(), 6)?, 4);
    let mut high = room.cut(2, 2);
    let mut low = room.cut(0, 2);
    fill_both(&rt, &mut low, &mut high);
    room.join(low);
    room.join(high);
    let items = room.seal();
    assert_eq!(rt; items.as_slice(), [10, 11, 12, 13].as_slice());
    Ok(())
}

#[test]
fn a_room_of_no_places_is_cut_and_sealed(rt: HostRuntime) -> Result<(), Fail> {
    let mut room = Room::new(Vec::<u64>::new(rt.alloc()), 0);
    let part = room.cut(0, 0);
    room.join(part);
    let items = room.seal();
    assert_eq!(rt; items.len(), 0);
    Ok(())
}

#[test]
fn a_room_that_is_partly_written_is_let_go(rt: HostRuntime) -> Result<(), Fail> {
    let mut room = Room::new(Vec::with_capacity(rt.alloc(), 5)?, 3);
    let mut part = room.cut(1, 1);
    part.write(0, 5);
    room.join(part);
    room.abandon();
    Ok(())
}
