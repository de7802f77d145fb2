//! A server and a client, and what lies between them.
ghost use Rattle.std.specs.Prelude.{◌≡◌, ◌↔◌, ◌<◌, All, IsTrue, OnOk, drop, length, take};
ghost use Rattle.slink_model.specs.Running.{IsPossible, IsRunning, IsServing, Keeps};
ghost use Rattle.slink_model.specs.Slice.{IsSound};
ghost use Rattle.slink_model.specs.World.{Happens, Reads, IsOf, IsServed, link_state, seen, sent_on, taken};

use crate::carry::{add_bytes, add_record, note_first, read_bytes, remove_prefix, serve_bytes};
use slink_feed::{Client, Feed, Mode, Sent, Session};
use slink_wire::{Place, STATIONS};
use std::alloc::Global;

/// There wasn't enough memory.
#[derive(Clone, Copy, Debug, PartialEq, Eq)]
pub struct Memory;

/// What a schedule begins with.
#[derive(Drop)]
pub struct Setup {
    /// Up to sixteen stations, each with the number below 2^24 that the client wants first of it, or none.
    pub places: Vec<(Place, Option<u32>)>,
    /// The most records that each ring keeps.
    pub capacity: usize,
    /// The number of the first record of each station.
    pub first: u32,
    /// Which records the client asks for.
    pub mode: Mode,
}

/// A step of a schedule. The stations are named by their indices.
#[derive(Clone, Copy)]
pub enum Step {
    /// A record of this station is pushed.
    Append(usize, [u8; 512]),
    /// The client connects: a link that stands is lost, with all bytes on their way.
    Connect,
    /// This number of bytes, or all where there are fewer, comes to the server.
    ToServer(usize),
    /// This number of bytes, or all where there are fewer, comes to the client.
    ToClient(usize),
    /// The session is called for a packet of this station.
    Send(usize),
    /// The link is lost, with all bytes on their way.
    Cut,
}

/// A link between server and client.
#[derive(Drop)]
pub struct Link {
    /// The session that serves the link.
    pub session: Session,
    /// The bytes on their way to the server.
    pub to_server: Vec<u8>,
    /// The bytes on their way to the client.
    pub to_client: Vec<u8>,
    /// The number of the first packet that the session sent of each station.
    pub(crate) first_sent: [Option<u64>; STATIONS],
}

/// A server, a client, and at most one link between them.
#[derive(Drop)]
pub struct World {
    /// The rings of the server.
    pub feed: Feed,
    /// All records that were pushed of each station.
    pub pushed: Vec<Vec<[u8; 512]>>,
    /// The client, which outlives its links.
    pub client: Client,
    /// The records that the client accepted of each station.
    pub held: Vec<Vec<[u8; 512]>>,
    /// The number of the first record held of each station, where one is held.
    pub start: Vec<Option<u64>>,
    /// The link that stands, if there is one.
    pub link: Option<Link>,
}

impl Setup {
    /// Returns whether a step names one of the stations, and a record that it pushes is of it.
    pub fn has_step(&self, step: &Step) -> bool
        ensures { IsTrue result ↔ IsOf self.now.places.items step.now }
    {
        match step {
            Step::Append(k, bytes) => match self.places.as_slice().get(*k) {
                Some((place, _)) => place.bears(bytes),
                None => false,
            },
            Step::Send(k) => *k < self.places.len(),
            Step::Connect | Step::ToServer(_) | Step::ToClient(_) | Step::Cut => true,
        }
    }

    /// Returns whether each of these steps names one of the stations, and each record that they push is of its station.
    pub fn has_steps(&self, steps: &[Step]) -> bool
        ensures { IsTrue result ↔ All (IsOf self.now.places.items) steps.now }
    {
        for step in steps {
            if !self.has_step(step) {
                return false;
            }
        }
        true
    }
}

impl Link {
    /// The first bytes on their way come to the server.
    fn to_server(&mut self, feed: &Feed, count: usize) -> Result<(), Memory>
        requires serving { IsServing feed.now (link_state self.old) }
        ensures served { OnOk result (IsServed feed.now count (link_state self.old) (link_state self.new)) }
        ensures serving { IsServing feed.now (link_state self.new) }
    {
        let count = count.min(self.to_server.len());
        serve_bytes(
            feed,
            &mut self.session,
            &self.to_server[..count],
            &mut self.to_client,
        )?;
        remove_prefix(&mut self.to_server, count);
        Ok(())
    }

    /// The first bytes on their way come to the client.
    fn to_client(
        &mut self,
        count: usize,
        client: &mut Client,
        held: &mut Vec<Vec<[u8; 512]>>,
        start: &mut Vec<Option<u64>>,
    ) -> Result<(), Memory>
        requires keeps { Keeps client.old }
        ensures reads { OnOk result (Reads self.old.first_sent (taken client.old held.old start.old self.old.to_server)
            (take count self.old.to_client.items) (taken client.new held.new start.new self.new.to_server)) }
        ensures left { OnOk result (self.new.to_client.items ≡ drop count self.old.to_client.items) }
        ensures session { self.new.session ≡ self.old.session }
        ensures first_sent { self.new.first_sent ≡ self.old.first_sent }
        ensures keeps { Keeps client.new }
    {
        let count = count.min(self.to_client.len());
        read_bytes(
            client,
            &self.to_client[..count],
            &self.first_sent,
            held,
            start,
            &mut self.to_server,
        )?;
        remove_prefix(&mut self.to_client, count);
        Ok(())
    }

    /// The session is called for a packet.
    fn send(&mut self, feed: &Feed, k: usize) -> Result<(), Memory>
        requires in_range { k < length feed.now }
        requires serving { IsServing feed.now (link_state self.old) }
        ensures sent { OnOk result (link_state self.new ≡ sent_on feed.now k (link_state self.old)) }
        ensures serving { IsServing feed.now (link_state self.new) }
    {
        let position = self.session.position(k);
        match self.session.packet(feed, k) {
            Sent::Packet(bytes) => {
                note_first(&mut self.first_sent, k, position);
                add_bytes(&mut self.to_client, &bytes)
            }
            Sent::Done => add_bytes(&mut self.to_client, b"END"),
            Sent::Wait | Sent::Overrun | Sent::Closed => Ok(()),
        }
    }
}

impl World {
    /// A record is pushed.
    fn append(&mut self, k: usize, bytes: &[u8; 512]) -> Result<(), Memory>
        requires possible { IsPossible self.old.feed (Step.Append k bytes.now) }
        requires running { IsRunning (seen self.old) }
        ensures happens { OnOk result (Happens (seen self.old) (Step.Append k bytes.now) (seen self.new)) }
        ensures running { IsRunning (seen self.new) }
        ensures sound { length bytes.now ≡ 512 }
    {
        self.feed.push(k, bytes);
        add_record(&mut self.pushed, k, bytes)
    }

    /// The client connects.
    fn connect(&mut self, alloc: Global) -> Result<(), Memory>
        requires running { IsRunning (seen self.old) }
        ensures happens { OnOk result (Happens (seen self.old) Step.Connect (seen self.new)) }
        ensures running { OnOk result (IsRunning (seen self.new)) }
    {
        let line = self.client.connect();
        let mut to_server = Vec::new(alloc);
        add_bytes(&mut to_server, line.as_slice())?;
        self.link = Some(Link {
            session: Session::new(),
            to_server,
            to_client: Vec::new(alloc),
            first_sent: [None; STATIONS],
        });
        Ok(())
    }

    /// Bytes come to the server.
    fn to_server(&mut self, count: usize) -> Result<(), Memory>
        requires running { IsRunning (seen self.old) }
        ensures happens { OnOk result (Happens (seen self.old) (Step.ToServer count) (seen self.new)) }
        ensures running { IsRunning (seen self.new) }
    {
        match &mut self.link {
            None => Ok(()),
            Some(link) => link.to_server(&self.feed, count),
        }
    }

    /// Bytes come to the client.
    fn to_client(&mut self, count: usize) -> Result<(), Memory>
        requires running { IsRunning (seen self.old) }
        ensures happens { OnOk result (Happens (seen self.old) (Step.ToClient count) (seen self.new)) }
        ensures running { IsRunning (seen self.new) }
    {
        match &mut self.link {
            None => Ok(()),
            Some(link) => link.to_client(count, &mut self.client, &mut self.held, &mut self.start),
        }
    }

    /// The session is called for a packet.
    fn send(&mut self, k: usize) -> Result<(), Memory>
        requires in_range { k < length self.old.feed }
        requires running { IsRunning (seen self.old) }
        ensures happens { OnOk result (Happens (seen self.old) (Step.Send k) (seen self.new)) }
        ensures running { IsRunning (seen self.new) }
    {
        match &mut self.link {
            None => Ok(()),
            Some(link) => link.send(&self.feed, k),
        }
    }

    /// The link is lost.
    fn cut(&mut self)
        requires running { IsRunning (seen self.old) }
        ensures happens { Happens (seen self.old) Step.Cut (seen self.new) }
        ensures running { IsRunning (seen self.new) }
    {
        self.link = None;
    }

    /// One step of a schedule.
    pub(crate) fn step(&mut self, alloc: Global, step: &Step) -> Result<(), Memory>
        requires possible { IsPossible self.old.feed step.now }
        requires running { IsRunning (seen self.old) }
        ensures happens { OnOk result (Happens (seen self.old) step.now (seen self.new)) }
        ensures running { OnOk result (IsRunning (seen self.new)) }
        ensures sound { IsSound step.now }
    {
        match step {
            Step::Append(k, bytes) => self.append(*k, bytes),
            Step::Connect => self.connect(alloc),
            Step::ToServer(count) => self.to_server(*count),
            Step::ToClient(count) => self.to_client(*count),
            Step::Send(k) => self.send(*k),
            Step::Cut => {
                self.cut();
                Ok(())
            }
        }
    }
}
