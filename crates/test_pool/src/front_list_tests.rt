//! Lists that grow and shrink at both ends.
use flow_value::FrontList;
use std::test::Fail;

#[test]
fn items_are_added_and_taken_at_both_ends(rt: HostRuntime) -> Result<(), Fail> {
    let mut list = FrontList::new(rt.alloc());
    for n in 0..40u64 {
        list.add(n)?;
        list.add_first(100 + n)?;
    }
    assert_eq!(rt; list.len(), 80);
    assert_eq!(rt; list.take_first(), Some(139));
    assert_eq!(rt; list.pop(), Some(39));
    list.drop_first(37);
    list.truncate(5);
    assert_eq!(rt; list.len(), 5);
    list.set(1, 7);
    assert_eq!(rt; list.as_slice(), [101, 7, 0, 1, 2].as_slice());
    assert_eq!(rt; list.into_item(2), 0);
    Ok(())
}

#[test]
fn a_queue_keeps_its_order(rt: HostRuntime) -> Result<(), Fail> {
    let mut list = FrontList::with_room(rt.alloc(), 4)?;
    let mut sum = 0u64;
    for n in 0..1000u64 {
        list.add(n)?;
        list.add(n)?;
        sum = sum.wrapping_add(list.take_first().unwrap_or(0));
    }
    assert_eq!(rt; list.len(), 1000);
    assert_eq!(rt; sum, 249500);
    Ok(())
}

#[test]
fn a_vector_becomes_a_list_and_comes_back(rt: HostRuntime) -> Result<(), Fail> {
    let mut items = Vec::with_capacity(rt.alloc(), 4)?;
    items.push(1u64)?;
    items.push(2)?;
    items.push(3)?;
    let mut list = FrontList::from_vec(items);
    assert_eq!(rt; list.take_first(), Some(1));
    let more = list.push_in_room(4).is_ok();
    assert_eq!(rt; more, true);
    let back = list.into_vec();
    assert_eq!(rt; back.as_slice(), [2, 3, 4].as_slice());
    Ok(())
}

#[test]
fn lists_are_joined(rt: HostRuntime) -> Result<(), Fail> {
    let mut list = FrontList::new(rt.alloc());
    let mut more = list.fresh();
    list.add(1u64)?;
    more.add(2)?;
    more.add(3)?;
    let joined = list.append(more).is_ok();
    assert_eq!(rt; joined, true);
    assert_eq!(rt; list.as_slice(), [1, 2, 3].as_slice());
    assert_eq!(rt; list.is_empty(), false);
    Ok(())
}
