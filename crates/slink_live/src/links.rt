//! The links of a server, each in a slot.
ghost use Rattle.std.specs.Prelude.{◌≡◌, ◌+◌, ◌<◌, ◌≤◌, List, None, Option, Some, IfOk, IfSome, get_or, length, set};
ghost use Rattle.std.specs.Bool.{OnFalse, OnTrue};
ghost use Rattle.std.specs.Option.{is_some};
ghost use Rattle.slink_feed.specs.Serving.{IsNew};
ghost use Rattle.slink_feed.specs.Session.{Fits};
ghost use Rattle.slink_feed.specs.Window.{Window};
ghost use Rattle.slink_live.specs.Served.{AllFit, AreEmpty, LinkState};
ghost use Rattle.slink_live.specs.private.Calling.{HasFilled, HasReceived, HasTaken, IfRested, IsOutcome};
ghost use Rattle.slink_live.specs.private.Granting.{AreCovered, Changes, CoversIn, LeavesOut};

use crate::link::{Link, PIECE, Update};
use crate::pending::MOST_PENDING;
use crate::places::Places;
use crate::ready::Ready;
use slink_feed::Feed;
use slink_wire::PACKET;
use std::alloc::{AllocError, Global};
use std::marker::Model;

/// Links in slots. Beside them stands of each slot which stations its link is sent records of, once it streams: a link
/// is large, and a look at all of these reads little memory.
#[derive(Drop)]
pub(crate) struct Links {
    slots: Vec<Option<Link>>,
    granted: Vec<Places>,
}

impl Model for Links {
    ghost Value = { List (Option LinkState) };

    ghost view = { λ s. s.slots.items };

    ghost invariant = { λ s. AreCovered s.slots.items s.granted.items };
}

/// A list of `count` slots without a link.
fn slots(alloc: Global, count: usize) -> Result<Vec<Option<Link>>, AllocError>
    ensures empty { IfOk result (λ slots. AreEmpty slots.items) }
    ensures count { IfOk result (λ slots. length slots.items ≡ count) }
{
    let mut slots = Vec::with_capacity(alloc, count)?;
    for slot in 0..count {
        slots.push(None)?;
    }
    Ok(slots)
}

/// No stations for each of `count` slots.
fn no_grants(alloc: Global, count: usize) -> Result<Vec<Places>, AllocError>
    ensures count { IfOk result (λ granted. length granted.items ≡ count) }
{
    let mut granted = Vec::with_capacity(alloc, count)?;
    for slot in 0..count {
        granted.push(Places::none())?;
    }
    Ok(granted)
}

/// Reads once from the link in a slot, where one stands, as much as there is room for replies, and has its session
/// answer. The answer is which stations it is sent records of then.
fn receive<R: Ready>(link: &mut Option<Link>, feed: &Feed, slot: usize, ready: &mut R) -> Places
    requires { IfSome link.old (λ l. Fits feed.now l.session.state) }
    ensures received { HasReceived feed.now slot link.old link.new (R.log ready.old) (R.log ready.new) }
    ensures covers { CoversIn result link.new }
{
    match link {
        Some(link) => {
            let mut buf = [0; PIECE];
            let most = link.readable();
            let count = ready.read(slot, &mut buf[..most]);
            link.receive(feed, &buf[..count]);
            link.granted(feed)
        }
        None => Places::none(),
    }
}

/// Writes once to the link in a slot, where one stands, what its session sent. The answer is whether there was room for
/// a packet before: then nothing more is due.
fn send<R: Ready>(link: &mut Option<Link>, slot: usize, ready: &mut R) -> bool
    ensures taken { HasTaken slot link.old link.new (R.log ready.old) (R.log ready.new) }
    ensures rests { OnTrue result (IfSome link.old (λ l. length l.pending + PACKET ≤ MOST_PENDING)) }
{
    match link {
        Some(link) => {
            let had_room = link.has_room();
            let count = ready.write(slot, link.pending());
            link.taken(count);
            had_room
        }
        None => true,
    }
}

/// What is to be done with the link in a slot to which nothing more is due.
fn look(link: &Option<Link>, has_ended: bool) -> Update
    ensures { (feed : List Window) → IfRested feed link.now → IsOutcome feed has_ended link.now result }
{
    match link {
        Some(link) => {
            if link.is_closable_at_rest(has_ended) {
                Update::Closes
            } else {
                Update::Wants(link.interest())
            }
        }
        None => Update::Empty,
    }
}

/// Queues what is due of the session of the link in a slot, and answers what is to be done with the link.
fn fill(link: &mut Option<Link>, feed: &Feed, has_ended: bool) -> Update
    requires { IfSome link.old (λ l. Fits feed.now l.session.state) }
    ensures filled { HasFilled feed.now link.old link.new }
    ensures outcome { IsOutcome feed.now has_ended link.new result }
{
    match link {
        Some(link) => {
            link.fill(feed);
            if link.is_closable(feed, has_ended) {
                Update::Closes
            } else {
                Update::Wants(link.interest())
            }
        }
        None => Update::Empty,
    }
}

impl Links {
    /// The links of `count` slots, none of which has one yet.
    ///
    /// # Errors
    ///
    /// Where there is no memory for them.
    pub(crate) fn new(alloc: Global, count: usize) -> Result<Self, AllocError>
        ensures empty { IfOk result AreEmpty }
        ensures count { IfOk result (λ links. length links ≡ count) }
    {
        Ok(Links {
            slots: slots(alloc, count)?,
            granted: no_grants(alloc, count)?,
        })
    }

    /// How many slots there are.
    pub(crate) fn len(&self) -> usize
        ensures { result ≡ length self.now }
    {
        self.slots.len()
    }

    /// Whether a link stands in a slot.
    pub(crate) fn is_taken(&self, slot: usize) -> bool
        requires { slot < length self.now }
        ensures { result ≡ is_some (get_or self.now slot None) }
    {
        self.slots[slot].is_some()
    }

    /// Whether the link in a slot may be sent records of some of these stations.
    pub(crate) fn waits_for(&self, slot: usize, places: Places) -> bool
        requires { slot < length self.now }
        ensures { OnFalse result (LeavesOut places (get_or self.now slot None)) }
    {
        self.granted[slot].meets(places)
    }

    /// Puts a new link into a slot.
    pub(crate) fn put(&mut self, slot: usize, link: Link)
        requires within { slot < length self.old }
        requires fresh { IsNew link.session }
        ensures { self.new ≡ set self.old slot (Some link) }
    {
        self.slots[slot] = Some(link);
    }

    /// Takes the link out of a slot.
    pub(crate) fn clear(&mut self, slot: usize)
        requires { slot < length self.old }
        ensures { self.new ≡ set self.old slot None }
    {
        self.slots[slot] = None;
        self.granted[slot] = Places::none();
    }

    /// Reads once from the link in a slot, where one stands, and has its session answer.
    pub(crate) fn receive<R: Ready>(&mut self, slot: usize, feed: &Feed, ready: &mut R)
        requires within { slot < length self.old }
        requires fits { AllFit feed.now self.old }
        ensures { Changes slot (λ o l. HasReceived feed.now slot o l (R.log ready.old) (R.log ready.new)) self.old
            self.new }
    {
        self.granted[slot] = receive(&mut self.slots[slot], feed, slot, ready);
    }

    /// Writes once to the link in a slot, where one stands, what its session sent. The answer is whether there was room
    /// for a packet before: then nothing more is due.
    pub(crate) fn send<R: Ready>(&mut self, slot: usize, ready: &mut R) -> bool
        requires { slot < length self.old }
        ensures taken { Changes slot (λ o l. HasTaken slot o l (R.log ready.old) (R.log ready.new)) self.old self.new }
        ensures rests { OnTrue result
            (IfSome (get_or self.old slot None) (λ l. length l.pending + PACKET ≤ MOST_PENDING)) }
    {
        send(&mut self.slots[slot], slot, ready)
    }

    /// What is to be done with the link in a slot to which nothing more is due.
    pub(crate) fn look(&self, slot: usize, has_ended: bool) -> Update
        requires { slot < length self.now }
        ensures { (feed : List Window) → IfRested feed (get_or self.now slot None)
            → IsOutcome feed has_ended (get_or self.now slot None) result }
    {
        look(&self.slots[slot], has_ended)
    }

    /// Queues what is due of the session of the link in a slot, and answers what is to be done with the link.
    pub(crate) fn fill(&mut self, slot: usize, feed: &Feed, has_ended: bool) -> Update
        requires within { slot < length self.old }
        requires fits { AllFit feed.now self.old }
        ensures { Changes slot (λ o l. HasFilled feed.now o l × IsOutcome feed.now has_ended l result) self.old
            self.new }
    {
        fill(&mut self.slots[slot], feed, has_ended)
    }
}
