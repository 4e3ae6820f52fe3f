// A source of any kind that a Site of the system opens.
ghost use Rattle.std.specs.Prelude.{◌≡◌, ◌↔◌, ◌<◌, IsTrue, IfOk, OnOk, OnErr};
ghost use Rattle.ipfixcol.specs.RealSource.{faults_of, IsOfTransport, OpensFiles};
ghost use Rattle.ipfixcol.specs.UsedFiles.{SameFiles};

use crate::opening;
use crate::used_files::UsedFiles;
use col_base::Transport;
use site_io::{InputSpec, OutsideFault, ReadSource, Source, SourceEvent};
use socket_io::{TcpSource, UdpSource, Waiting};
use std::alloc::Global;
use std::io::Read;
use std::net::Net;
use std::rt::Files;
use std::time::Clock;

/// What a socket does where nothing is there: it only looks, since all inputs are asked in turn on one thread.
const WAITING: Waiting = Waiting::Looks;

/// A file that is read, the connections to an address, or the datagrams that come to one.
#[derive(Drop)]
pub enum RealSource<F: Read, R: Clock + Drop> {
    File(ReadSource<F>),
    Tcp(TcpSource<R>),
    Udp(UdpSource<R>),
}

impl<F: Read, R: Clock + Drop> RealSource<F, R> {
    /// Whether a call has failed.
    pub fn has_failed(&self) -> bool
        ensures { IsTrue result ↔ (0 < faults_of self.now) }
    {
        match self {
            RealSource::File(source) => source.has_failed(),
            RealSource::Tcp(source) => source.has_failed(),
            RealSource::Udp(source) => source.has_failed(),
        }
    }
}

/// Opens a source of the kind that an input has. Its fault is not counted.
pub fn open<'a, R: Files + Net + Clock>(
    rt: &'a R,
    alloc: Global,
    used: &mut UsedFiles,
    spec: &InputSpec,
) -> Result<RealSource<R::File, &'a R>, OutsideFault>
    ensures fresh { IfOk result (λ source. faults_of source ≡ 0) }
    ensures kind { IfOk result (λ source. IsOfTransport spec.now.transport source) }
    ensures used { OnOk result (OpensFiles spec.now.transport spec.now.place used.old used.new) }
    ensures unused { OnErr result (SameFiles used.old used.new) }
{
    let place = spec.place.as_str();
    match spec.transport {
        Transport::File => {
            let file = opening::open_source(rt, alloc, used, place)?;
            Ok(RealSource::File(ReadSource::new(file)))
        }
        Transport::Tcp => Ok(RealSource::Tcp(TcpSource::open(rt, rt, alloc, place, WAITING)?)),
        Transport::Udp => Ok(RealSource::Udp(UdpSource::open(rt, rt, alloc, place, WAITING)?)),
    }
}

impl<F: Read + Send, R: Clock + Send + Drop> Source for RealSource<F, R> {
    ghost use Rattle.std.specs.Prelude.{None};

    ghost left = { λ _. None };

    ghost faults = { λ source. faults_of source };

    fn next(&mut self, room: &mut [u8]) -> Result<SourceEvent, OutsideFault> {
        match self {
            RealSource::File(source) => source.next(room),
            RealSource::Tcp(source) => source.next(room),
            RealSource::Udp(source) => source.next(room),
        }
    }
}
