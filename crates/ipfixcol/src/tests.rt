// Runs over the files of the system: what is read, what is written, and what fails; and which sockets are refused.
use crate::real_site::RealSite;
use crate::test_folder::Folder;
use col_base::{Text, Transport};
use collector_top::collect_main;
use sample_messages::ONE_FLOW;
use site_io::{InputSpec, OutsideFault, Sink, Site};
use std::alloc::{AllocError, Global};
use std::fs::{self, OpenOptions};
use std::io::{Read, Write, pipe};
use std::net::UdpSocket;
use std::os::fd::AsRawFd;
use std::os::unix::fs::symlink;
use std::test::Fail;

const FLOW: &str =
    "{\"@type\":\"ipfix.entry\",\"iana:sourceIPv4Address\":\"10.0.0.1\",\"iana:destinationIPv4Address\":\"10.0.0.2\",\"iana:octetDeltaCount\":1000}\n";

const DESCRIPTION: &str =
    "version = 1\n[[input]]\nname = \"in\"\nkind = \"file\"\npath = \"flow.ipfix\"\n[[output]]\nname = \"out\"\nkind = \"json\"\npath = \"flow.json\"\n";

/// Words of a call.
fn words_of(alloc: Global, texts: [&str; 3]) -> Result<Vec<String>, Fail> {
    let mut words = Vec::new(alloc);
    for text in texts {
        words.push(String::from_str(alloc, text)?)?;
    }
    Ok(words)
}

#[test]
fn a_file_becomes_lines(rt: HostRuntime) -> Result<(), Fail> {
    let alloc = rt.alloc();
    let folder = Folder::new(&rt)?;
    let (place, out) = (
        folder.path(alloc, "flow.ipfix")?,
        folder.path(alloc, "flow.json")?,
    );
    fs::write(&rt, &place, ONE_FLOW)?;
    fs::write(
        &rt,
        &out,
        "what stood there before, and is longer than what comes, so that it would show at the end of the line if it were not emptied first\n",
    )?;
    let words = words_of(alloc, ["direct", place.as_str(), out.as_str()])?;
    let mut site = RealSite::new(&rt, alloc);
    assert_eq!(rt; collect_main(alloc, &rt, &words, &mut site), 0);
    let written = fs::read(&rt, &out)?;
    assert!(rt; written.as_slice() == FLOW.as_bytes());
    Ok(())
}

#[test]
fn what_the_system_refuses_has_its_status(rt: HostRuntime) -> Result<(), Fail> {
    let alloc = rt.alloc();
    let folder = Folder::new(&rt)?;
    let (flow, missing) = (
        folder.path(alloc, "flow.ipfix")?,
        folder.path(alloc, "missing")?,
    );
    let (out, nowhere) = (
        folder.path(alloc, "flow.json")?,
        folder.path(alloc, "missing/flow.json")?,
    );
    fs::write(&rt, &flow, ONE_FLOW)?;
    for (place, out, status) in [
        (flow.as_str(), out.as_str(), 0),
        (missing.as_str(), out.as_str(), 3),
        (".", out.as_str(), 3),
        (flow.as_str(), nowhere.as_str(), 4),
        (flow.as_str(), ".", 4),
        (flow.as_str(), "/dev/full", 4),
        (flow.as_str(), "/dev/null", 0),
    ] {
        let words = words_of(alloc, ["direct", place, out])?;
        let mut site = RealSite::new(&rt, alloc);
        assert_eq!(rt;
            collect_main(alloc, &rt, &words, &mut site),
            status,
            "{place} to {out}"
        );
    }
    Ok(())
}

#[test]
fn texts_are_read_up_to_their_greatest_length(rt: HostRuntime) -> Result<(), Fail> {
    let alloc = rt.alloc();
    let folder = Folder::new(&rt)?;
    let long = vec![in alloc; b'#'; 16_777_217]?;
    for (name, octets) in [
        ("right.toml", DESCRIPTION.as_bytes()),
        ("faulty.toml", "version = 2\n".as_bytes()),
        ("longest.toml", &long[1..]),
        ("long.toml", long.as_slice()),
    ] {
        fs::write(&rt, &folder.path(alloc, name)?, octets)?;
    }
    for (name, status) in [
        ("right.toml", 0),
        ("faulty.toml", 2),
        ("missing.toml", 3),
        (".", 3),
        ("longest.toml", 2),
        ("long.toml", 3),
    ] {
        let path = folder.path(alloc, name)?;
        let words = words_of(alloc, ["check", "-c", path.as_str()])?;
        let mut site = RealSite::new(&rt, alloc);
        assert_eq!(rt;
            collect_main(alloc, &rt, &words, &mut site),
            status,
            "{name}"
        );
    }
    Ok(())
}

#[test]
fn one_file_is_not_both_read_and_written(rt: HostRuntime) -> Result<(), Fail> {
    let alloc = rt.alloc();
    let folder = Folder::new(&rt)?;
    let (file, symbolic) = (folder.path(alloc, "file")?, folder.path(alloc, "symbolic")?);
    let (hard, other) = (folder.path(alloc, "hard")?, folder.path(alloc, "other")?);
    fs::write(&rt, &file, ONE_FLOW)?;
    fs::write(&rt, &other, ONE_FLOW)?;
    symlink(&rt, &file, &symbolic)?;
    fs::hard_link(&rt, &file, &hard)?;
    for (place, out) in [
        (&file, &file),
        (&file, &symbolic),
        (&file, &hard),
        (&symbolic, &file),
        (&hard, &symbolic),
    ] {
        let words = words_of(alloc, ["direct", place.as_str(), out.as_str()])?;
        let mut site = RealSite::new(&rt, alloc);
        assert_eq!(rt;
            collect_main(alloc, &rt, &words, &mut site),
            4,
            "{place} to {out}"
        );
        assert!(rt; fs::read(&rt, &file)?.as_slice() == ONE_FLOW);
    }
    let words = words_of(alloc, ["direct", other.as_str(), hard.as_str()])?;
    let mut site = RealSite::new(&rt, alloc);
    assert_eq!(rt; collect_main(alloc, &rt, &words, &mut site), 0);
    assert!(rt; fs::read(&rt, &file)?.as_slice() == FLOW.as_bytes());
    Ok(())
}

/// An input of that kind at a place.
fn input_of(alloc: Global, transport: Transport, place: &str) -> Result<InputSpec, AllocError> {
    Ok(InputSpec {
        name: Text::from_str(alloc, "in")?,
        transport,
        place: Text::from_str(alloc, place)?,
    })
}

/// Whether a sink opens while a source is out; none where the source doesn't open. Both come back.
fn opens_beside<S: Site>(site: &mut S, spec: &InputSpec, name: &str) -> Option<bool> {
    let source = site.open_source(spec).ok()?;
    let opens = match site.open_sink(name) {
        Ok(sink) => {
            site.back_sink(name, sink);
            true
        }
        Err(_) => false,
    };
    site.back_source(spec, source);
    Some(opens)
}

#[test]
fn a_file_that_is_read_is_no_sink(rt: HostRuntime) -> Result<(), Fail> {
    let alloc = rt.alloc();
    let folder = Folder::new(&rt)?;
    let (file, hard) = (folder.path(alloc, "file")?, folder.path(alloc, "hard")?);
    let (text, symbolic) = (folder.path(alloc, "text")?, folder.path(alloc, "symbolic")?);
    fs::write(&rt, &file, "what is read")?;
    fs::write(&rt, &text, "a text")?;
    fs::hard_link(&rt, &file, &hard)?;
    symlink(&rt, &text, &symbolic)?;
    let mut site = RealSite::new(&rt, alloc);
    assert!(rt; site.text(text.as_str()).is_ok());
    assert!(rt; site.open_sink(symbolic.as_str()).is_err());
    assert!(rt; fs::read(&rt, &text)?.as_slice() == "a text".as_bytes());
    let spec = input_of(alloc, Transport::File, file.as_str())?;
    assert_eq!(rt; opens_beside(&mut site, &spec, hard.as_str()), Some(false));
    assert!(rt; fs::read(&rt, &file)?.as_slice() == "what is read".as_bytes());
    assert!(rt; site.open_sink(hard.as_str()).is_ok());
    assert!(rt; fs::read(&rt, &file)?.is_empty());
    Ok(())
}

#[test]
fn a_file_that_is_written_is_no_second_sink(rt: HostRuntime) -> Result<(), Fail> {
    let alloc = rt.alloc();
    let folder = Folder::new(&rt)?;
    let (file, hard) = (folder.path(alloc, "file")?, folder.path(alloc, "hard")?);
    fs::write(&rt, &file, "before")?;
    fs::hard_link(&rt, &file, &hard)?;
    let mut site = RealSite::new(&rt, alloc);
    let first = site.open_sink(file.as_str()).ok().ok_or("no sink")?;
    site.back_sink(file.as_str(), first);
    let mut second = site.open_sink(hard.as_str()).ok().ok_or("no sink")?;
    assert_eq!(rt; second.write(b"written"), Ok(()));
    assert!(rt; site.open_sink(file.as_str()).is_err());
    assert!(rt; fs::read(&rt, &file)?.as_slice() == "written".as_bytes());
    Ok(())
}

#[test]
fn a_sink_appends_to_what_others_wrote(rt: HostRuntime) -> Result<(), Fail> {
    let alloc = rt.alloc();
    let folder = Folder::new(&rt)?;
    let path = folder.path(alloc, "file")?;
    fs::write(&rt, &path, "before")?;
    let mut site = RealSite::new(&rt, alloc);
    let mut sink = site.open_sink(path.as_str()).ok().ok_or("no sink")?;
    assert_eq!(rt; sink.write(b"one "), Ok(()));
    let mut how = OpenOptions::new();
    how.append(true);
    let mut other = how.open(&rt, &path)?;
    other.write_all(b"another ")?;
    assert_eq!(rt; sink.write(b"two"), Ok(()));
    assert!(rt; fs::read(&rt, &path)?.as_slice() == "one another two".as_bytes());
    other.set_len(0)?;
    assert_eq!(rt; sink.write(b"three"), Ok(()));
    assert!(rt; fs::read(&rt, &path)?.as_slice() == "three".as_bytes());
    site.back_sink(path.as_str(), sink);
    Ok(())
}

#[test]
fn a_sink_that_is_no_regular_file_is_not_emptied(rt: HostRuntime) -> Result<(), Fail> {
    let alloc = rt.alloc();
    let mut site = RealSite::new(&rt, alloc);
    let null = site.open_sink("/dev/null").ok().ok_or("no sink")?;
    let again = site
        .open_sink("/dev/../dev/null")
        .ok()
        .ok_or("no second sink")?;
    site.back_sink("/dev/../dev/null", again);
    site.back_sink("/dev/null", null);
    let (mut reader, writer) = pipe(&rt)?;
    let number = writer.as_raw_fd();
    let path = format!(in alloc; "/proc/self/fd/{number}")?;
    let mut sink = site.open_sink(path.as_str()).ok().ok_or("no pipe")?;
    assert_eq!(rt; sink.write(b"through"), Ok(()));
    let mut room = [0u8; 16];
    assert_eq!(rt; reader.read(&mut room)?, 7);
    assert!(rt; &room[..7] == b"through".as_slice());
    site.back_sink(path.as_str(), sink);
    Ok(())
}

#[test]
fn what_is_no_address_and_what_is_taken_is_refused(rt: HostRuntime) -> Result<(), Fail> {
    let alloc = rt.alloc();
    let mut site = RealSite::new(&rt, alloc);
    let other = UdpSocket::bind(&rt, "127.0.0.1:0")?;
    let taken = format!(in alloc; "{}", other.local_addr()?)?;
    for (transport, place) in [
        (Transport::Udp, taken.as_str()),
        (Transport::Udp, "localhost:4739"),
        (Transport::Tcp, "127.0.0.1"),
    ] {
        let input = input_of(alloc, transport, place)?;
        assert!(rt;
            matches!(site.open_source(&input), Err(OutsideFault::Failed)),
            "{place}"
        );
    }
    Ok(())
}
