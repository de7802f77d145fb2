//! Records that are walked over one after another.
ghost use Rattle.std.specs.Prelude.{◌≡◌, List, drop, map, take};
ghost use Rattle.std.specs.Iterator.{YieldsFirstBy};
ghost use Rattle.mseed_record.specs.View.{View};
ghost use Rattle.mseed_record.specs.Viewing.{view_of};

use mseed_record::RecordView;

/// Records that are walked over in their order; a copy walks over them again from where it was made.
pub(crate) trait Walk<'a>: Copy {
    /// The records that are left.
    ghost left: { Self → List View };

    /// What the walk holds leads from each record to the next.
    ghost leads: { Self → Type 0 };

    /// Returns the next record, where one is left.
    fn next(&mut self) -> Option<RecordView<'a>>
        requires { leads self.old }
        ensures leads { leads self.new }
        ensures next { YieldsFirstBy view_of left self.old result self.new };
}

/// The records of a list from an index on.
#[derive(Clone, Copy)]
pub(crate) struct RecordList<'r, 'a> {
    pub(crate) records: &'r [RecordView<'a>],
    pub(crate) index: usize,
}

impl<'r, 'a> Walk<'a> for RecordList<'r, 'a> {
    ghost left = { λ s. map view_of (drop s.index s.records.now) };

    ghost leads = { λ s. Unit {0} };

    fn next(&mut self) -> Option<RecordView<'a>> {
        if self.index >= self.records.len() {
            return None;
        }
        let view = self.records[self.index];
        self.index += 1;
        Some(view)
    }
}

/// The first `count` of the records that are left of a walk.
#[derive(Clone, Copy)]
pub(crate) struct Part<R> {
    pub(crate) rest: R,
    pub(crate) count: usize,
}

impl<'a, R: Walk<'a>> Walk<'a> for Part<R> {
    ghost left = { λ s. take s.count (R.left s.rest) };

    ghost leads = { λ s. R.leads s.rest };

    fn next(&mut self) -> Option<RecordView<'a>> {
        if self.count == 0 {
            return None;
        }
        match self.rest.next() {
            Some(view) => {
                self.count -= 1;
                Some(view)
            }
            None => None,
        }
    }
}

/// Returns what is left of a walk after `count` records.
pub(crate) fn skip<'a, R: Walk<'a>>(records: R, count: usize) -> R
    requires { R.leads records }
    ensures leads { R.leads result }
    ensures left { R.left result ≡ drop count (R.left records) }
{
    let mut rest = records;
    for turn in 0..count {
        match rest.next() {
            Some(_) => {}
            None => return rest,
        }
    }
    rest
}
