// What comes of both sources.

use crate::datagrams::{Exchange, is_refused};
use crate::streams::{Scene, Step, told_of};
use crate::wrong::{Wrong, ask, quiet_calls};
use sample_messages::ONE_FLOW;
use site_io::SourceEvent;
use socket_io::{TcpSource, UdpSource, Waiting};
use std::test::Fail;
use std::thread;
use std::time::{Duration, Instant};

/// The first 64 bits and the others of 127.0.0.1 as an IPv4-mapped address.
const LOOPBACK: (u64, u64) = (0, 0xffff_7f00_0001);

#[test]
fn a_message_in_two_pieces_comes_joined(rt: HostRuntime) -> Result<(), Fail> {
    let told = told_of(
        rt,
        &[
            Step::Tick,
            Step::Connect,
            Step::Send(0, &ONE_FLOW[..20]),
            Step::Octets(0, 20),
            Step::Tick,
            Step::Send(0, &ONE_FLOW[20..]),
            Step::Leave(0),
            Step::Closes(1),
        ],
    )?;
    assert!(rt; told.has(0, ONE_FLOW));
    Ok(())
}

#[test]
fn octets_that_are_no_message_come_beside_others(rt: HostRuntime) -> Result<(), Fail> {
    let strange = [0xff; 40];
    let told = told_of(
        rt,
        &[
            Step::Connect,
            Step::Connect,
            Step::Send(0, &strange),
            Step::Send(1, ONE_FLOW),
            Step::Leave(0),
            Step::Closes(1),
            Step::Octets(1, ONE_FLOW.len()),
            Step::Leave(1),
            Step::Closes(2),
        ],
    )?;
    assert!(rt; told.has(0, &strange) && told.has(1, ONE_FLOW));
    Ok(())
}

#[test]
fn a_connection_that_was_reset_is_no_fault(rt: HostRuntime) -> Result<(), Fail> {
    let told = told_of(
        rt,
        &[
            Step::Connect,
            Step::Send(0, ONE_FLOW),
            Step::Reset(0),
            Step::Connect,
            Step::Send(1, ONE_FLOW),
            Step::Leave(1),
            Step::Closes(2),
        ],
    )?;
    assert!(rt; told.has(1, ONE_FLOW));
    Ok(())
}

/// A hundred peers connect, and each sends its number and then a message.
fn play_hundred(scene: &mut Scene) -> Result<bool, Wrong> {
    for number in 0..100u8 {
        scene.play(Step::Connect)?;
        scene.play(Step::Send(number as usize, &[number]))?;
    }
    scene.play(Step::Opens(100))?;
    for number in 0..100 {
        scene.play(Step::Octets(number, 1))?;
        scene.play(Step::Leave(number))?;
    }
    scene.play(Step::Closes(100))?;
    Ok((0..100u8).all(|number| scene.told.has(number as usize, &[number])))
}

#[test]
fn a_hundred_connections_have_their_numbers(rt: HostRuntime) -> Result<(), Fail> {
    let mut scene = Scene::new(rt, Waiting::Looks)?;
    assert!(rt; play_hundred(&mut scene)?);
    Ok(())
}

/// How many milliseconds so many calls of a source with a silent peer take, and how many of them found nothing.
fn silence_of_connections(
    rt: HostRuntime,
    waiting: Waiting,
    calls: u32,
) -> Result<(Duration, u32), Wrong> {
    let mut scene = Scene::new(rt, waiting)?;
    scene.play_all(&[Step::Connect, Step::Opens(1)])?;
    let begin = Instant::now(&rt)?;
    let quiet = quiet_calls(&mut scene.source, &mut scene.room, calls)?;
    Ok((Instant::now(&rt)?.duration_since(begin), quiet))
}

/// The same of a source to which nothing is sent.
fn silence_of_datagrams(
    rt: HostRuntime,
    waiting: Waiting,
    calls: u32,
) -> Result<(Duration, u32), Wrong> {
    let mut scene = Exchange::new(rt, "127.0.0.1:0", "127.0.0.1:0", waiting)?;
    let begin = Instant::now(&rt)?;
    let quiet = quiet_calls(&mut scene.source, &mut scene.room, calls)?;
    Ok((Instant::now(&rt)?.duration_since(begin), quiet))
}

#[test]
fn a_source_waits_a_tenth_of_a_second(rt: HostRuntime) -> Result<(), Fail> {
    for (spent, quiet) in [
        silence_of_connections(rt, Waiting::Waits, 6)?,
        silence_of_datagrams(rt, Waiting::Waits, 6)?,
    ] {
        assert!(rt; quiet > 2);
        assert!(rt; spent.as_millis() >= u128::from(quiet) * 100);
    }
    Ok(())
}

#[test]
fn a_source_that_looks_does_not_wait(rt: HostRuntime) -> Result<(), Fail> {
    for (spent, quiet) in [
        silence_of_connections(rt, Waiting::Looks, 100)?,
        silence_of_datagrams(rt, Waiting::Looks, 100)?,
    ] {
        assert!(rt; quiet > 50);
        assert!(rt; spent < Duration::from_secs(5));
    }
    Ok(())
}

/// Whether datagrams of many lengths, the longest among them, come as they were sent.
fn exchanges(scene: &mut Exchange, longest: &[u8]) -> Result<bool, Wrong> {
    let mut right = true;
    for octets in [ONE_FLOW, b"".as_slice(), longest, b"x".as_slice()] {
        scene.send([0; 8], octets)?;
        right = scene.gets(LOOPBACK.0, LOOPBACK.1, octets)? && right;
    }
    for number in 0..100u8 {
        scene.send([0; 8], &[number])?;
    }
    for number in 0..100u8 {
        right = scene.gets(LOOPBACK.0, LOOPBACK.1, &[number])? && right;
    }
    Ok(right)
}

#[test]
fn datagrams_come_whole_with_their_peer(rt: HostRuntime) -> Result<(), Fail> {
    let longest = vec![in rt.alloc(); 0xa5; 65507]?;
    let mut scene = Exchange::new(rt, "127.0.0.1:0", "127.0.0.1:0", Waiting::Waits)?;
    assert!(rt; exchanges(&mut scene, &longest)?);
    assert!(rt; !scene.source.has_failed());
    Ok(())
}

#[test]
fn a_socket_for_all_addresses_has_peers_of_both_families(rt: HostRuntime) -> Result<(), Fail> {
    // a system without IPv6 has nothing to show here
    let Ok(mut six) = Exchange::new(rt, "[::]:0", "[::1]:0", Waiting::Waits) else {
        return Ok(());
    };
    six.send([0, 0, 0, 0, 0, 0, 0, 1], ONE_FLOW)?;
    assert!(rt; six.gets(0, 1, ONE_FLOW)?);
    let mut four = Exchange::new(rt, "[::]:0", "127.0.0.1:0", Waiting::Waits)?;
    four.send([0; 8], ONE_FLOW)?;
    assert!(rt; four.gets(LOOPBACK.0, LOOPBACK.1, ONE_FLOW)?);
    Ok(())
}

#[test]
fn what_is_no_address_is_refused(rt: HostRuntime) -> Result<(), Fail> {
    for place in [
        "",
        "localhost:4739",
        "127.0.0.1",
        ":4739",
        "127.0.0.1:65536",
        "::1:4739",
        "203.0.113.1:0",
    ] {
        assert!(rt; is_refused(rt, place), "{place}");
    }
    Ok(())
}

/// Whether an address that one source of each kind has is refused to another.
fn refuses_a_second(rt: HostRuntime) -> Result<bool, Wrong> {
    let alloc = rt.alloc();
    let udp = UdpSource::open(&rt, rt, alloc, "127.0.0.1:0", Waiting::Waits)?;
    let place = format!(in alloc; "{}", udp.address()?)?;
    let _tcp = TcpSource::open(&rt, rt, alloc, place.as_str(), Waiting::Waits)?;
    Ok(is_refused(rt, place.as_str()))
}

#[test]
fn an_address_that_is_taken_is_refused(rt: HostRuntime) -> Result<(), Fail> {
    assert!(rt; refuses_a_second(rt)?);
    Ok(())
}

#[test]
fn a_source_goes_to_another_thread(rt: HostRuntime) -> Result<(), Fail> {
    let mut scene = Scene::new(rt, Waiting::Waits)?;
    let child = thread::spawn(&rt, move || ask(&mut scene.source, &mut scene.room))?;
    assert!(rt; matches!(child.join(&rt), Ok(SourceEvent::Tick(_))));
    Ok(())
}
