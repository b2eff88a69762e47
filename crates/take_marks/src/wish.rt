//! An order in which the takers that are presumed come after the other users of their ports.
//!
//! Nothing rests on how it is found: whoever uses it checks it.
ghost use Rattle.std.specs.List.Sorted.{IsStrictlyIncreasing};

use crate::places::is_twice;
use flow_value::{NoMemory, Numbers, Seq};
use if1_graph::{Edge, Origin};
use if1_order::{Places, place_of};
use if1_reach::PortUsers;
use std::alloc::Global;

/// Where links and wishes lead from each place, from where wishes lead to it, how many of both each place
/// waits for, and whether those from where wishes lead to it were called already.
#[derive(Drop)]
struct Waits {
    led: Vec<Places>,
    wished: Vec<Places>,
    wishing: Vec<Places>,
    links: Places,
    wishes: Places,
    called: Seq<bool>,
}

fn counts(alloc: Global, places: usize) -> Result<Places, NoMemory> {
    let mut counts = Seq::with_room(alloc, places)?;
    for _ in 0..places {
        counts.add(0)?;
    }
    Ok(counts)
}

fn lists(alloc: Global, places: usize) -> Result<Vec<Places>, NoMemory> {
    let mut lists = Vec::with_capacity(alloc, places)?;
    for _ in 0..places {
        lists.push(Seq::new(alloc))?;
    }
    Ok(lists)
}

fn raise(counts: &mut Places, place: usize) {
    if place < counts.len() {
        let more = counts.as_slice()[place].saturating_add(1);
        counts.set(place, more);
    }
}

// what is left where one is taken off
fn lower(counts: &mut Places, place: usize) -> usize {
    if place >= counts.len() {
        return 0;
    }
    let less = counts.as_slice()[place].saturating_sub(1);
    counts.set(place, less);
    less
}

fn count_at(counts: &[usize], place: usize) -> usize {
    match counts.get(place) {
        Some(count) => *count,
        None => 0,
    }
}

fn put(lists: &mut Vec<Places>, from: usize, to: usize) -> Result<(), NoMemory> {
    if from < lists.len() {
        lists[from].add(to)?;
    }
    Ok(())
}

fn add_links(waits: &mut Waits, feeders: &[usize], place: usize) -> Result<(), NoMemory> {
    for feeder in feeders {
        put(&mut waits.led, *feeder, place)?;
        raise(&mut waits.links, place);
    }
    Ok(())
}

fn add_wish(waits: &mut Waits, labels: &[u32], user: u32, taker: usize) -> Result<(), NoMemory>
    requires { IsStrictlyIncreasing labels.now }
{
    if let Some(place) = place_of(labels, user) {
        put(&mut waits.wished, place, taker)?;
        put(&mut waits.wishing, taker, place)?;
        raise(&mut waits.wishes, taker);
    }
    Ok(())
}

// each other user of a port comes before the taker, if that can be
fn add_wishes(
    waits: &mut Waits,
    labels: &[u32],
    users: &[u32],
    node: u32,
    taker: usize,
) -> Result<(), NoMemory>
    requires { IsStrictlyIncreasing labels.now }
{
    for user in users {
        if *user != node {
            add_wish(waits, labels, *user, taker)?;
        }
    }
    Ok(())
}

// the first taker of a port that can be one is presumed
fn presume(
    waits: &mut Waits,
    labels: &[u32],
    users: &[u32],
    node: u32,
    group: usize,
    presumed: &mut Seq<bool>,
) -> Result<(), NoMemory>
    requires { IsStrictlyIncreasing labels.now }
{
    if group >= presumed.len() {
        return Ok(());
    }
    if presumed.as_slice()[group] {
        return Ok(());
    }
    if users.contains(&0) {
        return Ok(());
    }
    if is_twice(users, node) {
        return Ok(());
    }
    let Some(taker) = place_of(labels, node) else {
        return Ok(());
    };
    presumed.set(group, true);
    add_wishes(waits, labels, users, node, taker)
}

fn presume_edge(
    waits: &mut Waits,
    labels: &[u32],
    users: &PortUsers,
    edge: &Edge,
    presumed: &mut Seq<bool>,
) -> Result<(), NoMemory>
    requires { IsStrictlyIncreasing labels.now }
{
    let Origin::Port(node, port) = &edge.from else {
        return Ok(());
    };
    let Some(group) = users.groups.get(&(*node, *port)) else {
        return Ok(());
    };
    match users.lists.as_slice().get(*group) {
        Some(list) => presume(waits, labels, list.as_slice(), edge.node, *group, presumed),
        None => Ok(()),
    }
}

fn no_flags(alloc: Global, count: usize) -> Result<Seq<bool>, NoMemory> {
    let mut flags = Seq::with_room(alloc, count)?;
    for _ in 0..count {
        flags.add(false)?;
    }
    Ok(flags)
}

fn presume_all(
    alloc: Global,
    waits: &mut Waits,
    labels: &[u32],
    users: &PortUsers,
    edges: &[Edge],
    flags: &[bool],
) -> Result<(), NoMemory>
    requires { IsStrictlyIncreasing labels.now }
{
    let mut presumed = no_flags(alloc, users.lists.as_slice().len())?;
    for (index, edge) in edges.iter().enumerate() {
        if let Some(true) = flags.get(index) {
            presume_edge(waits, labels, users, edge, &mut presumed)?;
        }
    }
    Ok(())
}

// ready where it waits for nothing, half ready where it waits for wishes alone
fn file(
    links: &[usize],
    wishes: &[usize],
    place: usize,
    ready: &mut Places,
    half: &mut Places,
) -> Result<(), NoMemory> {
    if count_at(links, place) > 0 {
        return Ok(());
    }
    if count_at(wishes, place) > 0 {
        return half.add(place);
    }
    ready.add(place)
}

fn take_fresh(stack: &mut Places, done: &[bool]) -> Option<usize> {
    while let Some(place) = stack.pop() {
        if let Some(false) = done.get(place) {
            return Some(place);
        }
    }
    None
}

fn next_of(ready: &mut Places, half: &mut Places, done: &[bool]) -> Option<usize> {
    if let Some(place) = take_fresh(ready, done) {
        return Some(place);
    }
    take_fresh(half, done)
}

fn release_links(
    led: &[usize],
    links: &mut Places,
    wishes: &[usize],
    ready: &mut Places,
    half: &mut Places,
) -> Result<(), NoMemory> {
    for place in led {
        if lower(links, *place) == 0 {
            file(links.as_slice(), wishes, *place, ready, half)?;
        }
    }
    Ok(())
}

fn release_wishes(
    wished: &[usize],
    links: &[usize],
    wishes: &mut Places,
    ready: &mut Places,
    half: &mut Places,
) -> Result<(), NoMemory> {
    for place in wished {
        if lower(wishes, *place) == 0 {
            file(links, wishes.as_slice(), *place, ready, half)?;
        }
    }
    Ok(())
}

// those that lack nothing come next
fn call(
    users: &[usize],
    links: &[usize],
    wishes: &[usize],
    ready: &mut Places,
) -> Result<(), NoMemory> {
    for user in users {
        if count_at(links, *user) == 0 && count_at(wishes, *user) == 0 {
            ready.add(*user)?;
        }
    }
    Ok(())
}

// when the first user of a presumed taker comes, so do the others, that they stand near each other
fn call_users(waits: &mut Waits, taker: usize, ready: &mut Places) -> Result<(), NoMemory> {
    let Some(false) = waits.called.as_slice().get(taker) else {
        return Ok(());
    };
    waits.called.set(taker, true);
    let Some(users) = waits.wishing.as_slice().get(taker) else {
        return Ok(());
    };
    call(
        users.as_slice(),
        waits.links.as_slice(),
        waits.wishes.as_slice(),
        ready,
    )
}

fn call_all(waits: &mut Waits, place: usize, ready: &mut Places) -> Result<(), NoMemory> {
    let takers = match waits.wished.as_slice().get(place) {
        Some(takers) => takers.len(),
        None => 0,
    };
    for index in 0..takers {
        if let Some(taker) = taker_at(waits.wished.as_slice(), place, index) {
            call_users(waits, taker, ready)?;
        }
    }
    Ok(())
}

fn taker_at(wished: &[Places], place: usize, index: usize) -> Option<usize> {
    let takers = wished.get(place)?;
    match takers.as_slice().get(index) {
        Some(taker) => Some(*taker),
        None => None,
    }
}

fn release_led(
    waits: &mut Waits,
    place: usize,
    ready: &mut Places,
    half: &mut Places,
) -> Result<(), NoMemory> {
    let Some(led) = waits.led.as_slice().get(place) else {
        return Ok(());
    };
    release_links(
        led.as_slice(),
        &mut waits.links,
        waits.wishes.as_slice(),
        ready,
        half,
    )
}

fn release_wished(
    waits: &mut Waits,
    place: usize,
    ready: &mut Places,
    half: &mut Places,
) -> Result<(), NoMemory> {
    let Some(wished) = waits.wished.as_slice().get(place) else {
        return Ok(());
    };
    release_wishes(
        wished.as_slice(),
        waits.links.as_slice(),
        &mut waits.wishes,
        ready,
        half,
    )
}

fn release(
    waits: &mut Waits,
    place: usize,
    ready: &mut Places,
    half: &mut Places,
) -> Result<(), NoMemory> {
    release_led(waits, place, ready, half)?;
    call_all(waits, place, ready)?;
    release_wished(waits, place, ready, half)
}

fn file_all(
    waits: &Waits,
    places: usize,
    ready: &mut Places,
    half: &mut Places,
) -> Result<(), NoMemory> {
    for below in 0..places {
        let place = places - 1 - below;
        file(
            waits.links.as_slice(),
            waits.wishes.as_slice(),
            place,
            ready,
            half,
        )?;
    }
    Ok(())
}

// the place that lacks nothing and came last, or was called last, is next, or else one that lacks wishes alone
fn order_by(alloc: Global, waits: &mut Waits, places: usize) -> Result<Places, NoMemory> {
    let mut done = no_flags(alloc, places)?;
    let mut ready = Seq::new(alloc);
    let mut half = Seq::new(alloc);
    file_all(waits, places, &mut ready, &mut half)?;
    let mut order = Seq::with_room(alloc, places)?;
    for _ in 0..places {
        let Some(next) = next_of(&mut ready, &mut half, done.as_slice()) else {
            return Ok(order);
        };
        order.add(next)?;
        if next < done.len() {
            done.set(next, true);
        }
        release(waits, next, &mut ready, &mut half)?;
    }
    Ok(order)
}

/// An order of places along links in which users come before presumed takers, where that can be. Linear
/// in the graph, but for a search among the nodes for each user of a port with a taker.
pub fn wished(
    alloc: Global,
    labels: &[u32],
    users: &PortUsers,
    edges: &[Edge],
    flags: &[bool],
    feeders: &[Places],
) -> Result<Places, NoMemory>
    requires { IsStrictlyIncreasing labels.now }
{
    let places = feeders.len();
    let mut waits = Waits {
        led: lists(alloc, places)?,
        wished: lists(alloc, places)?,
        wishing: lists(alloc, places)?,
        links: counts(alloc, places)?,
        wishes: counts(alloc, places)?,
        called: no_flags(alloc, places)?,
    };
    for (place, list) in feeders.iter().enumerate() {
        add_links(&mut waits, list.as_slice(), place)?;
    }
    presume_all(alloc, &mut waits, labels, users, edges, flags)?;
    order_by(alloc, &mut waits, places)
}
