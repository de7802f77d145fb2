//! What happened at a device, and what was reported to it, in order. It has no bytes, and its functions do nothing at
//! run time.
ghost use Rattle.std.specs.Prelude.{◌≡◌, List, [], ◌∷◌, ◌++◌};
ghost use Rattle.slink_live.specs.Happening.{Happening, Input, Opened, Received, Emitted, Gone, Next, Missed, Wants};
ghost use Rattle.slink_live.specs.Happening.{WantsLinks, Left, Handed, flag_of, happening, happenings_code};
ghost use base.Fml.{ftrue};

use crate::ready::{Event, Interest};
use std::marker::{Model, PhantomData};

/// What happened at a device, and what was reported to it, in order.
#[derive(Drop)]
pub struct Log {
    marker: PhantomData<u8>,
    /// All that happened.
    pub ghost all: { List Happening } by { happenings_code },
}

impl Model for Log {
    ghost also_owns = { λ _. ftrue };
}

/// An answer as a number.
fn flag(is_so: bool) -> u8
    ensures { result ≡ flag_of is_so }
{
    if is_so { 1 } else { 0 }
}

impl Log {
    /// Returns a log in which nothing happened yet.
    pub fn new() -> Log
        ensures { result.all ≡ [] }
    {
        Log {
            marker: PhantomData,
        }
    }

    /// Notes that the input gave these bytes.
    pub fn input(&mut self, bytes: &[u8])
        ensures { self.new.all ≡ self.old.all ++ Input bytes.now ∷ [] }
    {
        self.note(0, 0, bytes);
    }

    /// Notes that a new link stands in a slot.
    pub fn opened(&mut self, slot: usize)
        ensures { self.new.all ≡ self.old.all ++ Opened slot ∷ [] }
    {
        self.note(1, slot, &[]);
    }

    /// Notes that the link in a slot gave these bytes.
    pub fn received(&mut self, slot: usize, bytes: &[u8])
        ensures { self.new.all ≡ self.old.all ++ Received slot bytes.now ∷ [] }
    {
        self.note(2, slot, bytes);
    }

    /// Notes that the link in a slot was handed these bytes, to be accepted.
    pub fn handed(&mut self, slot: usize, bytes: &[u8])
        ensures { self.new.all ≡ self.old.all ++ Handed slot bytes.now ∷ [] }
    {
        self.note(9, slot, bytes);
    }

    /// Notes that the link in a slot accepted these bytes.
    pub fn emitted(&mut self, slot: usize, bytes: &[u8])
        ensures { self.new.all ≡ self.old.all ++ Emitted slot bytes.now ∷ [] }
    {
        self.note(3, slot, bytes);
    }

    /// Notes that no link stands in a slot any more.
    pub fn gone(&mut self, slot: usize)
        ensures { self.new.all ≡ self.old.all ++ Gone slot ∷ [] }
    {
        self.note(4, slot, &[]);
    }

    /// Notes what the device returned as what can be done next.
    pub fn next(&mut self, event: Event)
        ensures { self.new.all ≡ self.old.all ++ Next event ∷ [] }
    {
        match event {
            Event::Input => self.note(10, 0, &[]),
            Event::InputEnded => self.note(11, 0, &[]),
            Event::InputFailed => self.note(12, 0, &[]),
            Event::Dialled => self.note(13, 0, &[]),
            Event::Readable(slot) => self.note(14, slot, &[]),
            Event::Writable(slot) => self.note(15, slot, &[]),
            Event::Gone(slot) => self.note(16, slot, &[]),
            Event::Nothing => self.note(17, 0, &[]),
        }
    }

    /// Notes that nobody dialled any more who could stand in a slot.
    pub fn missed(&mut self, slot: usize)
        ensures { self.new.all ≡ self.old.all ++ Missed slot ∷ [] }
    {
        self.note(5, slot, &[]);
    }

    /// Notes what is wanted of the link in a slot.
    pub fn wants(&mut self, slot: usize, interest: Interest)
        ensures { self.new.all ≡ self.old.all ++ Wants slot interest ∷ [] }
    {
        let flags = [
            flag(interest.reads),
            flag(interest.writes),
            flag(interest.is_streaming),
        ];
        self.note(6, slot, &flags);
    }

    /// Notes whether further links are wanted.
    pub fn wants_links(&mut self, wanted: bool)
        ensures { self.new.all ≡ self.old.all ++ WantsLinks wanted ∷ [] }
    {
        self.note(7, usize::from(flag(wanted)), &[]);
    }

    /// Notes that the input is read no more.
    pub fn left(&mut self)
        ensures { self.new.all ≡ self.old.all ++ Left ∷ [] }
    {
        self.note(8, 0, &[]);
    }

    /// Notes one thing more.
    fn note(&mut self, _kind: usize, _slot: usize, _bytes: &[u8])
        ensures { self.new.all ≡ self.old.all ++ happening _kind _slot _bytes.now ∷ [] }
    {}
}
