//! Series that are put together from records.

use crate::records::{BHN, FIRST, LATE, NEXT, view, with};
use mseed_audit::{Finding, NotContinuous, Series, Why, series};
use mseed_record::Codes;
use mseed_time::{LeapStep, Micros};

/// The samples of the first record, twice.
static TWICE: [i32; 32] = [
    0, 1, 2, 3, 4, 5, 6, 7, 8, 9, 10, 11, 12, 13, 14, 15, 0, 1, 2, 3, 4, 5, 6, 7, 8, 9, 10, 11, 12,
    13, 14, 15,
];

/// Whether a series of this channel begins a second late and has those samples, a leap second between them.
fn is_twice(series: &Series, codes: Codes) -> bool {
    series.codes() == codes
        && Some(series.start()) == Micros::new(1_704_067_201_000_000)
        && series.rate().pair() == (20, 1)
        && series.samples() == TWICE.as_slice()
        && series.steps() == [(16, LeapStep::Plus)].as_slice()
}

#[test]
fn joins_the_samples_of_a_channel(rt: HostRuntime) {
    // The first begins a second late and says that a leap second comes before its end.
    let first = with(&[(26, &[1]), (36, &[0x10])]);
    let next = with(NEXT);
    let other = with(BHN);
    let views = [view(&rt, &first), view(&rt, &other), view(&rt, &next)];
    let codes = views[0].codes();
    let series = series(rt.alloc(), &views, &codes).expect(&rt, "a continuous channel");
    assert!(rt; is_twice(&series, codes));
}

#[test]
fn is_given_leap_seconds(rt: HostRuntime) {
    let steps = vec![in rt.alloc(); (1, LeapStep::Minus), (16, LeapStep::Plus)];
    let steps = steps.expect(&rt, "memory");
    let views = [view(&rt, &FIRST)];
    let found = series(rt.alloc(), &views, &views[0].codes());
    let mut series = found.expect(&rt, "a continuous channel");
    assert!(rt; series.set_steps(steps).is_ok() && series.steps().len() == 2);
}

/// Whether there is no series for this reason.
fn is_refused(answer: Result<Series, NotContinuous>, wanted: NotContinuous) -> bool {
    match answer {
        Ok(_) => false,
        Err(fault) => fault == wanted,
    }
}

#[test]
fn says_why_there_is_no_series(rt: HostRuntime) {
    let late = with(LATE);
    let missing = with(BHN);
    let views = [view(&rt, &FIRST), view(&rt, &late)];
    let broken = NotContinuous::Broken(Finding {
        number: 2,
        offset: 128,
        why: Why::Gap(25_001),
    });
    let answer = series(rt.alloc(), &views, &views[0].codes());
    assert!(rt; is_refused(answer, broken), "a broken channel");
    let answer = series(rt.alloc(), &views, &view(&rt, &missing).codes());
    assert!(rt; is_refused(answer, NotContinuous::Absent), "no channel");
}
