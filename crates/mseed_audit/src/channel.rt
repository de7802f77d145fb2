//! What an audit holds of a channel.
ghost use Rattle.std.specs.Prelude.{◌≡◌, ◌<◌, ◌≤◌, ◌+◌, ◌^◌, ℕ, List, [], ◌∷◌, ◌++◌, Option, Some};
ghost use Rattle.std.specs.Prelude.{IfOk, IfErr, OnOk, OnErr, None};
ghost use Rattle.mseed_record.specs.View.{View};
ghost use Rattle.mseed_record.specs.Viewing.{view_of};
ghost use Rattle.mseed_steim.specs.Reading.{count_of};
ghost use Rattle.mseed_audit.specs.Judging.{IsFound, known_rate};
ghost use Rattle.mseed_audit.specs.Audit.{IsTailOf, Stands, count_in, head_in, tail_in, verdict_of};
ghost use Rattle.mseed_audit.specs.Channels.{Placed};
ghost use Rattle.mseed_audit.specs.private.ChannelState.{IsExamined, IsLearnt, IsTailBefore, end_in, why_in, with_end};
ghost use Rattle.mseed_audit.specs.private.ChannelState.{IsBounded, TakesIn, with_finding};

use crate::finding::{Finding, Why};
use crate::tail::Tail;
use crate::verdict::Verdict;
use mseed_record::RecordView;
use mseed_steim::{ReadFault, check_samples};
use mseed_time::{Micros, Ratio};

/// How a channel begins whose first record has no finding of its own.
#[derive(Clone, Copy, Debug, PartialEq, Eq)]
pub struct Head {
    /// The first record's number among all that were added, from 1.
    pub number: u64,
    /// Where the first record begins, in bytes from the input's beginning.
    pub offset: u64,
    /// The instant of the first record's first sample, in microseconds from 1970 on (UTC).
    pub start: Micros,
    /// The first record's sample rate, in samples a second.
    pub rate: Ratio,
}

/// What was found of a channel's records, how the first begins and how the last ends.
#[derive(Clone, Copy, Debug, PartialEq, Eq)]
pub enum Findings {
    /// Nothing was found of any.
    Nothing {
        /// How the first begins.
        head: Head,
        /// How the last ends.
        tail: Tail,
    },
    /// Something was.
    Counted {
        /// The number of records with a finding.
        count: u64,
        /// The first finding.
        first: Finding,
        /// How the first record begins; `None` where it has a finding of its own, which asks for no record before.
        head: Option<Head>,
        /// How the last ends; `None` where its time or rate isn't known.
        tail: Option<Tail>,
    },
}

/// What an audit holds of a channel. It has a fixed size, however many records came.
#[derive(Clone, Copy, Debug, PartialEq, Eq)]
pub struct Channel {
    /// The number of records with samples.
    pub records: u64,
    /// The number of samples of the channel's records.
    pub samples: u64,
    /// What was found of the channel's records, how the first begins and how the last ends.
    pub findings: Findings,
}

/// What was learnt of a record whose time and rate are known.
#[derive(Clone, Copy)]
pub(crate) struct Examined {
    tail: Tail,
    // What is wrong with its samples, if something is.
    fault: Option<ReadFault>,
}

/// What is found of a record, and its end.
#[derive(Clone, Copy)]
enum Judged {
    /// Nothing.
    Sound(Tail),
    /// Something; the end is known where the time and the rate are.
    Faulty(Why, Option<Tail>),
}

impl Channel {
    /// A channel of one record, and what is found of it.
    pub(crate) fn begin(view: &RecordView, number: u64, offset: u64) -> (Channel, Option<Why>)
        requires { 0 < count_of (view_of view.now) }
        ensures stands { Stands result.0 (record { view = view_of view.now; offset = offset; number = number } ∷ []) }
        ensures bounded { IsBounded 1 result.0 }
        ensures found { IsFound None (view_of view.now) result.1 }
    {
        let (findings, why) = match judge(None, view, None) {
            Judged::Sound(tail) => {
                let head = Head {
                    number,
                    offset,
                    start: tail.start,
                    rate: tail.rate,
                };
                (Findings::Nothing { head, tail }, None)
            }
            Judged::Faulty(why, tail) => {
                let first = Finding {
                    number,
                    offset,
                    why,
                };
                let findings = Findings::Counted {
                    count: 1,
                    first,
                    head: None,
                    tail,
                };
                (findings, Some(why))
            }
        };
        let channel = Channel {
            records: 1,
            samples: u64::from(view.samples()),
            findings,
        };
        (channel, why)
    }

    /// One more record of the channel, if nothing is found of it.
    ///
    /// # Errors
    ///
    /// What was learnt of it, where it wasn't added: the channel is then as it was.
    #[inline(always)]
    pub(crate) fn add_sound(&mut self, view: &RecordView) -> Result<(), Option<Examined>>
        requires some { 0 < count_of (view_of view.now) }
        requires bounded { IsBounded (2 ^ 40) self.old }
        ensures takes { OnOk result ((offset number : ℕ) → TakesIn self.old self.new
            (record { view = view_of view.now; offset = offset; number = number }) None) }
        ensures bounded { OnOk result ((n : ℕ) → IsBounded n self.old → IsBounded (n + 1) self.new) }
        ensures unchanged { OnErr result (self.new ≡ self.old) }
        ensures learnt { IfErr result (λ examined. IsLearnt examined (view_of view.now)) }
    {
        let end = sound_end(&self.findings, view)?;
        self.records += 1;
        self.samples += u64::from(end.samples);
        self.findings.end_with(end);
        Ok(())
    }

    /// One more record of the channel, of which this was learnt. Answers what is found of it.
    pub(crate) fn add(
        &mut self,
        view: &RecordView,
        number: u64,
        offset: u64,
        examined: Option<Examined>,
    ) -> Option<Why>
        requires some { 0 < count_of (view_of view.now) }
        requires learnt { IsLearnt examined (view_of view.now) }
        requires bounded { IsBounded (2 ^ 40) self.old }
        ensures takes { TakesIn self.old self.new
            (record { view = view_of view.now; offset = offset; number = number }) result }
        ensures bounded { (n : ℕ) → IsBounded n self.old → IsBounded (n + 1) self.new }
    {
        self.records += 1;
        self.samples += u64::from(view.samples());
        match judge(self.findings.tail(), view, examined) {
            Judged::Sound(tail) => {
                self.findings.end_with(tail);
                None
            }
            Judged::Faulty(why, tail) => {
                let finding = Finding {
                    number,
                    offset,
                    why,
                };
                self.findings = self.findings.with_finding(finding, tail);
                Some(why)
            }
        }
    }

    /// Returns the verdict on the channel, by the records that were added so far.
    pub fn verdict(&self) -> Verdict
        ensures { result ≡ verdict_of self.now }
    {
        match self.findings {
            Findings::Nothing { head, .. } => Verdict::Continuous {
                start: head.start,
                rate: head.rate,
                records: self.records,
                samples: self.samples,
            },
            Findings::Counted { count, first, .. } => Verdict::Broken { first, count },
        }
    }
}

impl Findings {
    /// Returns how the channel's first record begins; `None` where it has a finding of its own.
    pub fn head(&self) -> Option<Head>
        ensures { result ≡ head_in self.now }
    {
        match self {
            Findings::Nothing { head, .. } => Some(*head),
            Findings::Counted { head, .. } => *head,
        }
    }

    /// Returns how the channel's last record ends; `None` where its time or rate isn't known.
    pub fn tail(&self) -> Option<Tail>
        ensures { result ≡ tail_in self.now }
    {
        match self {
            Findings::Nothing { tail, .. } => Some(*tail),
            Findings::Counted { tail, .. } => *tail,
        }
    }

    /// Returns how many of the channel's records have a finding.
    pub fn count(&self) -> u64
        ensures { result ≡ count_in self.now }
    {
        match self {
            Findings::Nothing { .. } => 0,
            Findings::Counted { count, .. } => *count,
        }
    }

    /// Takes the end of a further record, which has no finding.
    #[inline(always)]
    fn end_with(&mut self, end: Tail)
        ensures { self.new ≡ with_end self.old end }
    {
        match self {
            Findings::Nothing { tail, .. } => *tail = end,
            Findings::Counted { tail, .. } => *tail = Some(end),
        }
    }

    /// With a further record, which has a finding and ends so.
    fn with_finding(self, finding: Finding, end: Option<Tail>) -> Findings
        requires { count_in self ≤ 2 ^ 40 }
        ensures { result ≡ with_finding self finding end }
    {
        match self {
            Findings::Nothing { head, .. } => Findings::Counted {
                count: 1,
                first: finding,
                head: Some(head),
                tail: end,
            },
            Findings::Counted {
                count,
                first,
                head,
                ..
            } => Findings::Counted {
                count: count + 1,
                first,
                head,
                tail: end,
            },
        }
    }
}

impl Judged {
    /// What is found of a record whose end is known.
    fn with_end(why: Option<Why>, tail: Tail) -> Judged
        ensures why { why_in result ≡ why }
        ensures tail { end_in result ≡ Some tail }
    {
        match why {
            None => Judged::Sound(tail),
            Some(why) => Judged::Faulty(why, Some(tail)),
        }
    }
}

/// What is learnt of a record by itself.
///
/// # Errors
///
/// Why its time or its rate isn't known: no sample is read then.
#[inline(always)]
fn look_at(view: &RecordView) -> Result<Examined, Why>
    requires { 0 < count_of (view_of view.now) }
    ensures examined { IfOk result (λ examined. IsExamined examined (view_of view.now)) }
    ensures unknown { IfErr result (λ _. known_rate (view_of view.now) ≡ None) }
    ensures why { IfErr result (λ why. (before : Option View) → IsFound before (view_of view.now) (Some why)) }
{
    let tail = Tail::of(view)?;
    let fault = check_samples(view).err();
    Ok(Examined { tail, fault })
}

/// The end of a record of which nothing is found, by what was found of the channel's records before it.
///
/// # Errors
///
/// What was learnt of the record, where something is found of it.
#[inline(always)]
fn sound_end(findings: &Findings, view: &RecordView) -> Result<Tail, Option<Examined>>
    requires { 0 < count_of (view_of view.now) }
    ensures tail { IfOk result (λ tail. IsTailOf (Some tail) (view_of view.now)) }
    ensures sound { IfOk result (λ tail. (b : Option View) → IsTailBefore (tail_in findings.now) b
        → IsFound b (view_of view.now) None) }
    ensures learnt { IfErr result (λ examined. IsLearnt examined (view_of view.now)) }
{
    let Ok(examined) = look_at(view) else {
        return Err(None);
    };
    match examined.fault {
        None if examined.tail.follows(findings.tail()) => Ok(examined.tail),
        _ => Err(Some(examined)),
    }
}

/// What is found of a record of which this was learnt, by the end of the channel's record before it, and the record's
/// own end.
#[inline(always)]
fn judge(before: Option<Tail>, view: &RecordView, examined: Option<Examined>) -> Judged
    requires some { 0 < count_of (view_of view.now) }
    requires learnt { IsLearnt examined (view_of view.now) }
    ensures tail { IsTailOf (end_in result) (view_of view.now) }
    ensures why { (b : Option View) → IsTailBefore before b → IsFound b (view_of view.now) (why_in result) }
{
    match examined {
        Some(examined) => examined.judged(before),
        None => match look_at(view) {
            Ok(examined) => examined.judged(before),
            Err(why) => Judged::Faulty(why, None),
        },
    }
}

impl Examined {
    /// What is found of the record, by the end of the channel's record before it.
    fn judged(&self, before: Option<Tail>) -> Judged
        ensures tail { (v : View) → IsExamined self.now v → IsTailOf (end_in result) v }
        ensures why { (v : View) (b : Option View) → IsExamined self.now v → IsTailBefore before b
            → IsFound b v (why_in result) }
    {
        let why = match self.fault {
            Some(fault) => Some(Why::Read(fault)),
            None => match before {
                Some(before) => before.break_to(self.tail.start, self.tail.rate),
                None => None,
            },
        };
        Judged::with_end(why, self.tail)
    }
}
