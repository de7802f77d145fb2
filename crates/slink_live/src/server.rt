//! A server's state, and what each event does to it.
ghost use Rattle.std.specs.Prelude.{◌≡◌, ◌+◌, ◌*◌, ◌^◌, ◌<◌, ◌≤◌, [], ◌∷◌, ◌++◌, List, Err, None, IfErr, IfNone};
ghost use Rattle.std.specs.Prelude.{IfSome, IfOk, OnOk, ◌⊎◌, ◌&&◌, not, get_or, length, set, true, false};
ghost use Rattle.std.specs.Bool.{OnFalse, OnTrue};
ghost use Rattle.std.specs.List.{AllByRecursion};
ghost use Rattle.mseed_stream.specs.declared.fault.StreamFault.{StreamFault};
ghost use Rattle.slink_feed.specs.Window.{Window};
ghost use Rattle.slink_feed.specs.Intake.{places_of};
ghost use Rattle.slink_live.specs.Awake.{Goes, IsAwake, IsClosedRightly, IsFirstFree, IsReported, has_free};
ghost use Rattle.slink_live.specs.Happening.{Happening, Gone, Next, WantsLinks, input_of};
ghost use Rattle.slink_live.specs.Input.{IsInputFault};
ghost use Rattle.slink_live.specs.Served.{AreEmpty, GoesOn, IsFinished, IsServing, IsSound, ServerState, StaysUnread};
ghost use Rattle.slink_live.specs.private.Calling.{IfRested, IsDone};
ghost use Rattle.slink_live.specs.Turns.{Closes, Ends, Fails, HasSteps, IsCalled, Leaves, Opens, ReadsFrom, ReadsInput};
ghost use Rattle.slink_live.specs.Turns.{Removes, WritesTo};
ghost use Rattle.slink_live.specs.private.Keeping.{AnswersFault, EndsInput, KeepsServing, Updates, KeepsAwake};
ghost use Rattle.slink_live.specs.private.Keeping.{AreAwakeBut, Awakens};

use crate::intake::{INPUT, Intake};
use crate::link::{Link, Update};
use crate::links::Links;
use crate::places::Places;
use crate::ready::{Event, Ready};
use slink_feed::{Feed, InputFault};
use std::alloc::{AllocError, Global};
use std::marker::Model;

/// The most reads of the input, and the most events that are carried out, in one call.
const TURNS: u64 = 1 << 40;

/// The rings of a feed, filled as their input comes, and links in slots, each with a session of its own.
#[derive(Drop)]
pub struct Server {
    intake: Intake,
    links: Links,
    has_ended: bool,
    reads: u64,
}

impl Model for Server {
    ghost Value = { ServerState };

    ghost view = { λ s. record {
      intake = s.intake;
      links = s.links;
      has_ended = s.has_ended;
      reads = s.reads;
    } };
}

impl Server {
    /// Returns a server of these rings, with `clients` slots for links. The next number of each ring is at most 2^62.
    ///
    /// # Errors
    ///
    /// `AllocError` where there is no memory for the slots.
    pub fn new(alloc: Global, feed: Feed, clients: usize) -> Result<Self, AllocError>
        requires { AllByRecursion (λ w. w.next ≤ 2 ^ 62) feed }
        ensures serving { IfOk result (λ s. IsServing feed s []) }
        ensures sound { IfOk result IsSound }
        ensures slots { IfOk result (λ s. length s.links ≡ clients) }
        ensures awake { 0 < clients → IfOk result (λ s. IsAwake s []) }
    {
        Ok(Server {
            intake: Intake::new(feed),
            links: Links::new(alloc, clients)?,
            has_ended: false,
            reads: 0,
        })
    }

    /// Whether nothing is left to do: the input is read no more, and no link stands.
    fn is_finished(&self) -> bool
        ensures yes { OnTrue result (IsFinished self.now) }
        ensures no { OnFalse result (¬ (IsFinished self.now)) }
    {
        self.has_ended && self.is_empty()
    }

    /// Whether no link stands.
    fn is_empty(&self) -> bool
        ensures yes { OnTrue result (AreEmpty self.now.links) }
        ensures no { OnFalse result (¬ (AreEmpty self.now.links)) }
    {
        for slot in 0..self.links.len() {
            if self.links.is_taken(slot) {
                return false;
            }
        }
        true
    }

    /// Serves the input to the links until it is read no more and no link stands, or nothing comes any more.
    ///
    /// # Errors
    ///
    /// What is wrong with the input, at once: `Stream` where it failed, or ended within a record, or brought bytes that
    /// begin no record, and with the fault `Turns` after 2^40 reads, and where 2^40 events came in one call; `Foreign`
    /// where a record hasn't 512 bytes, or is of none of the stations. It isn't read further: the next call serves the
    /// links on, from the records that came before.
    pub fn serve<R: Ready>(&mut self, ready: &mut R) -> Result<(), InputFault>
        requires sound { IsSound self.old }
        ensures sound { IsSound self.new }
        ensures serving { (start : List Window) → IsServing start self.old (R.log ready.old)
            → IsServing start self.new (R.log ready.new) }
        ensures failed { OnOk result (IsFinished self.new ⊎ (R.has_failed ready.new ≡ true)) }
        ensures fault { IfErr result (λ e. (start : List Window) → IsServing start self.old (R.log ready.old)
            → IsInputFault (places_of start) (input_of (R.log ready.new)) e) }
        ensures ended { IfErr result (λ _. self.new.has_ended ≡ true) }

        // What happened stays, and an input that is read no more is so for good.
        ensures grows { GoesOn (R.log ready.old) (R.log ready.new) }
        ensures unread { StaysUnread self.old self.new (R.log ready.old) (R.log ready.new) }

        // No link sleeps: so it is each time that the device is asked what can be done next. What it says is done, and
        // what is answered is what that came to at last.
        ensures steps { (start : List Window) → IsServing start self.old (R.log ready.old)
            → IsAwake self.old (R.log ready.old)
            → HasSteps start (length self.old.links) (R.log ready.old) (R.log ready.new) result }
        ensures slots { length self.new.links ≡ length self.old.links }
        ensures awake { IsAwake self.old (R.log ready.old) → IsAwake self.new (R.log ready.new) }
        // A link is closed by right.
        ensures closed { (start : List Window) → IsServing start self.old (R.log ready.old)
            → IsAwake self.old (R.log ready.old)
            → Goes (IsClosedRightly start) (R.log ready.old) (R.log ready.new) }
    {
        for turn in 0..TURNS {
            if self.is_finished() {
                return Ok(());
            }
            match ready.next() {
                Event::Nothing => return Ok(()),
                event => self.step(event, ready)?,
            }
        }
        Err(self.give_up(ready))
    }

    /// Does what can be done next.
    #[tactic(auto, using(crate::proofs::Steps::answers_links, crate::proofs::Slots::keeps_same))]
    fn step<R: Ready>(&mut self, event: Event, ready: &mut R) -> Result<(), InputFault>
        requires { IsSound self.old }
        ensures answers { AnswersFault self.old self.new (R.log ready.old) (R.log ready.new) result }
        ensures called { IsCalled event self.old (R.log ready.old) (R.log ready.new) result }
        ensures keeps_awake { (earlier : List Happening) → R.log ready.old ≡ earlier ++ Next event ∷ []
            → KeepsAwake self.old self.new (R.log ready.old) (R.log ready.new) }
    {
        match event {
            Event::Input => return self.on_input(ready),
            Event::InputEnded => return self.on_end(ready),
            Event::InputFailed => return self.on_failure(ready),
            Event::Dialled => self.on_dialled(ready),
            Event::Readable(slot) => self.on_readable(slot, ready),
            Event::Writable(slot) => self.on_writable(slot, ready),
            Event::Gone(slot) => self.on_gone(slot, ready),
            Event::Nothing => {}
        }
        Ok(())
    }

    /// Reads once from the input, unless it is read no more. What is wrong with it is the end.
    #[tactic(auto, using(crate::proofs::Steps::answers_links, crate::proofs::Slots::keeps_same))]
    fn on_input<R: Ready>(&mut self, ready: &mut R) -> Result<(), InputFault>
        requires { IsSound self.old }
        ensures answers { AnswersFault self.old self.new (R.log ready.old) (R.log ready.new) result }
        ensures called { ReadsInput self.old (R.log ready.old) (R.log ready.new) result }
        ensures keeps_awake { KeepsAwake self.old self.new (R.log ready.old) (R.log ready.new) }
    {
        if self.has_ended {
            return Ok(());
        }
        if self.reads == TURNS {
            return Err(self.give_up(ready));
        }
        let mut buf = [0; INPUT];
        let count = ready.read_input(&mut buf);
        self.reads += 1;
        match self.intake.take(&buf[..count]) {
            Ok(places) => {
                self.update_those(places, ready);
                Ok(())
            }
            Err(fault) => {
                self.end(ready);
                Err(fault)
            }
        }
    }

    /// Takes note that no record comes any more.
    #[tactic(auto, using(crate::proofs::Steps::ended_sound, crate::proofs::Steps::few_records))]
    fn on_end<R: Ready>(&mut self, ready: &mut R) -> Result<(), InputFault>
        requires { IsSound self.old }
        ensures ends { EndsInput self.old self.new (R.log ready.old) (R.log ready.new) result }
        ensures called { Ends self.old (R.log ready.old) (R.log ready.new) result }
    {
        if self.has_ended {
            return Ok(());
        }
        let ending = self.intake.end();
        self.end(ready);
        ending
    }

    /// Takes note that the input failed.
    #[tactic(auto, using(crate::proofs::Steps::ended_sound, crate::proofs::Steps::few_records))]
    fn on_failure<R: Ready>(&mut self, ready: &mut R) -> Result<(), InputFault>
        requires { IsSound self.old }
        ensures ends { EndsInput self.old self.new (R.log ready.old) (R.log ready.new) result }
        ensures called { Fails self.old (R.log ready.old) (R.log ready.new) result }
    {
        if self.has_ended {
            return Ok(());
        }
        let fault = self.intake.failure();
        self.end(ready);
        Err(fault)
    }

    /// Reads the input no more, since the device was called too often, and returns that fault.
    #[tactic(auto, using(crate::proofs::Steps::ended_sound, crate::proofs::Steps::few_records))]
    fn give_up<R: Ready>(&mut self, ready: &mut R) -> InputFault
        requires { IsSound self.old }
        ensures ends { EndsInput self.old self.new (R.log ready.old) (R.log ready.new) (Err result) }
        ensures leaves { Leaves (R.log ready.old) (R.log ready.new) }
        ensures fault { result ≡ InputFault.Stream (StreamFault.Turns (512 * self.old.intake.records)) }
    {
        let fault = self.intake.last_turn();
        self.end(ready);
        fault
    }

    /// Reads the input no more, takes no more links, and closes those that have all.
    fn end<R: Ready>(&mut self, ready: &mut R)
        requires { IsSound (record self.old { has_ended = true }) }
        ensures keeps { KeepsServing (record self.old { has_ended = true }) self.new (R.log ready.old)
            (R.log ready.new) }
        ensures leaves { Leaves (R.log ready.old) (R.log ready.new) }
        ensures keeps_awake { Awakens (Unit {0}) (record self.old { has_ended = true }) self.new (R.log ready.old)
            (R.log ready.new) }
    {
        self.has_ended = true;
        ready.leave_input();
        ready.wants_links(false);
        self.update_all(ready);
    }

    /// Takes a new link into the first free slot, while the input is read.
    fn on_dialled<R: Ready>(&mut self, ready: &mut R)
        requires { IsSound self.old }
        ensures keeps { KeepsServing self.old self.new (R.log ready.old) (R.log ready.new) }
        ensures called { Opens self.old (R.log ready.old) (R.log ready.new) }
        ensures keeps_awake { KeepsAwake self.old self.new (R.log ready.old) (R.log ready.new) }
    {
        match self.free_slot() {
            Some(slot) => self.take(slot, ready),
            None => ready.wants_links(false),
        }
    }

    /// Takes a new link into a slot, and reports to the device whether further ones are wanted.
    fn take<R: Ready>(&mut self, slot: usize, ready: &mut R)
        requires sound { IsSound self.old }
        requires reads { self.old.has_ended ≡ false }
        requires free { IsFirstFree self.old.links slot }
        ensures keeps { KeepsServing self.old self.new (R.log ready.old) (R.log ready.new) }
        ensures called { Opens self.old (R.log ready.old) (R.log ready.new) }
        ensures keeps_awake { KeepsAwake self.old self.new (R.log ready.old) (R.log ready.new) }
    {
        if ready.accept(slot) {
            self.links.put(slot, Link::new());
            ready.wants_links(self.wants_links());
            self.update(slot, ready);
        }
    }

    /// Whether further links are wanted: the input is read, and a slot is free.
    fn wants_links(&self) -> bool
        ensures { result ≡ (not self.now.has_ended && has_free self.now.links) }
    {
        self.free_slot().is_some()
    }

    /// The first slot without a link, while the input is read.
    fn free_slot(&self) -> Option<usize>
        ensures some { IfSome result (IsFirstFree self.now.links) }
        ensures reads { IfSome result (λ _. self.now.has_ended ≡ false) }
        ensures none { IfNone result ((not self.now.has_ended && has_free self.now.links) ≡ false) }
    {
        if self.has_ended {
            return None;
        }
        for slot in 0..self.links.len() {
            if !self.links.is_taken(slot) {
                return Some(slot);
            }
        }
        None
    }

    /// Reads from the link in a slot, and has its session answer.
    #[tactic(auto, using(crate::proofs::Slots::keeps_same))]
    fn on_readable<R: Ready>(&mut self, slot: usize, ready: &mut R)
        requires { IsSound self.old }
        ensures keeps { KeepsServing self.old self.new (R.log ready.old) (R.log ready.new) }
        ensures called { ReadsFrom (get_or self.old.links slot None) slot (R.log ready.old) (R.log ready.new) }
        ensures keeps_awake { KeepsAwake self.old self.new (R.log ready.old) (R.log ready.new) }
    {
        if slot < self.links.len() {
            self.links.receive(slot, self.intake.feed(), ready);
            self.update(slot, ready);
        }
    }

    /// Writes to the link in a slot what its session sent.
    #[tactic(auto, using(crate::proofs::Slots::keeps_same))]
    fn on_writable<R: Ready>(&mut self, slot: usize, ready: &mut R)
        requires { IsSound self.old }
        ensures keeps { KeepsServing self.old self.new (R.log ready.old) (R.log ready.new) }
        ensures called { WritesTo (get_or self.old.links slot None) slot (R.log ready.old) (R.log ready.new) }
        ensures keeps_awake { KeepsAwake self.old self.new (R.log ready.old) (R.log ready.new) }
    {
        if slot < self.links.len() {
            if self.links.send(slot, ready) {
                self.update_at_rest(slot, ready);
            } else {
                self.update(slot, ready);
            }
        }
    }

    /// Closes the link in a slot, which is gone.
    #[tactic(auto, using(crate::proofs::Slots::keeps_same))]
    fn on_gone<R: Ready>(&mut self, slot: usize, ready: &mut R)
        requires { IsSound self.old }
        ensures keeps { KeepsServing self.old self.new (R.log ready.old) (R.log ready.new) }
        ensures called { Removes (get_or self.old.links slot None) slot (R.log ready.old) (R.log ready.new) }
        ensures keeps_awake { (earlier : List Happening) → R.log ready.old ≡ earlier ++ Next (Event.Gone slot) ∷ []
            → KeepsAwake self.old self.new (R.log ready.old) (R.log ready.new) }
    {
        if slot < self.links.len() {
            self.close(slot, ready);
        }
    }

    /// Closes the link in a slot.
    fn close<R: Ready>(&mut self, slot: usize, ready: &mut R)
        requires { slot < length self.old.links }
        ensures links { self.new ≡ record self.old { links = set self.old.links slot None } }
        ensures log { R.log ready.new
            ≡ (R.log ready.old ++ Gone slot ∷ []) ++ WantsLinks (not self.old.has_ended) ∷ [] }
    {
        self.links.clear(slot);
        ready.close(slot);
        ready.wants_links(!self.has_ended);
    }

    /// Queues what is due to each link, and reports what is wanted of it, or closes it.
    fn update_all<R: Ready>(&mut self, ready: &mut R)
        requires { IsSound self.old }
        ensures keeps { KeepsServing self.old self.new (R.log ready.old) (R.log ready.new) }
        ensures closes { Closes (R.log ready.old) (R.log ready.new) }
        ensures keeps_awake { Awakens (IsReported self.old (R.log ready.old)) self.old self.new (R.log ready.old)
            (R.log ready.new) }
    {
        for slot in 0..self.links.len() {
            self.update(slot, ready);
        }
    }

    /// Queues what is due to each link that may be sent records of some of these stations, and reports what is wanted
    /// of it, or closes it. The others are as they were.
    fn update_those<R: Ready>(&mut self, places: Places, ready: &mut R)
        requires { IsSound self.old }
        ensures keeps { KeepsServing self.old self.new (R.log ready.old) (R.log ready.new) }
        ensures closes { Closes (R.log ready.old) (R.log ready.new) }
        ensures keeps_awake { Awakens (AreAwakeBut places self.old (R.log ready.old)) self.old self.new
            (R.log ready.old) (R.log ready.new) }
    {
        for slot in 0..self.links.len() {
            if self.links.waits_for(slot, places) {
                self.update(slot, ready);
            }
        }
    }

    /// Queues what is due of the session of the link in a slot, and reports to the device what is wanted of the link,
    /// or closes it.
    fn update<R: Ready>(&mut self, slot: usize, ready: &mut R)
        requires sound { IsSound self.old }
        requires within { slot < length self.old.links }
        ensures keeps { KeepsServing self.old self.new (R.log ready.old) (R.log ready.new) }
        ensures closes { Closes (R.log ready.old) (R.log ready.new) }
        ensures updates { Updates slot self.old self.new (R.log ready.old) (R.log ready.new) }
    {
        let update = self.links.fill(slot, self.intake.feed(), self.has_ended);
        self.carry_out(update, slot, ready);
    }

    /// Reports to the device what is wanted of the link in a slot, or closes it, where nothing more is due to it.
    fn update_at_rest<R: Ready>(&mut self, slot: usize, ready: &mut R)
        requires sound { IsSound self.old }
        requires within { slot < length self.old.links }
        ensures keeps { KeepsServing self.old self.new (R.log ready.old) (R.log ready.new) }
        ensures closes { Closes (R.log ready.old) (R.log ready.new) }
        ensures updates { IfRested self.old.intake.feed (get_or self.old.links slot None)
            → Updates slot self.old self.new (R.log ready.old) (R.log ready.new) }
    {
        let update = self.links.look(slot, self.has_ended);
        self.carry_out(update, slot, ready);
    }

    /// Does what is to be done with the link in a slot: reports to the device what is wanted of it, or closes it.
    fn carry_out<R: Ready>(&mut self, update: Update, slot: usize, ready: &mut R)
        requires { slot < length self.old.links }
        ensures { IsDone update slot self.old self.new (R.log ready.old) (R.log ready.new) }
    {
        match update {
            Update::Empty => {}
            Update::Wants(interest) => ready.wants(slot, interest),
            Update::Closes => self.close(slot, ready),
        }
    }
}
