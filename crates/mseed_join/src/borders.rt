//! The lines of what is found where parts are joined.
ghost use Rattle.std.specs.Prelude.{◌≡◌, ◌++◌, OnOk};
ghost use Rattle.mseed_join.specs.Borders.{border_line, border_lines};
ghost use Rattle.mseed_join.specs.private.Taking.{border_by};

use crate::joint::Reported;
use mseed_audit::{Finding, put_why};
use mseed_record::Codes;
use mseed_text::{Line, push_line};
use mseed_time::{Micros, show_time};
use std::alloc::{AllocError, Allocator};

/// Adds the line of a border, if a line of a part reports one. Where memory is refused, the first bytes of it may have
/// been added.
pub(crate) fn push_reported<A: Allocator>(
    text: &mut Vec<u8, A>,
    reported: &Reported,
) -> Result<(), AllocError>
    ensures { OnOk result (text.new.items ≡ text.old.items ++ border_lines (border_by reported.now)) }
{
    match reported {
        Reported::Border {
            codes,
            start,
            finding,
        } => push_border_line(text, codes, *start, finding),
        Reported::Nothing | Reported::Passed { .. } => Ok(()),
    }
}

/// Adds the line of what is found of a record that begins so.
fn push_border_line<A: Allocator>(
    text: &mut Vec<u8, A>,
    codes: &Codes,
    start: Micros,
    finding: &Finding,
) -> Result<(), AllocError>
    ensures { OnOk result (text.new.items ≡ text.old.items ++ border_line (record {
      key = codes.now;
      start = start;
      finding = finding.now;
    })) }
{
    let mut line = Line::new();
    line.put_count(finding.offset);
    line.put(b" ");
    line.put_name(codes);
    line.put_labelled(b" record ", finding.number);
    line.put(b" start ");
    line.put(&show_time(start));
    line.put(b" ");
    put_why(&mut line, &finding.why);
    line.put(b"\n");
    push_line(text, line.as_slice())
}
