//! The form in which records are written.
ghost use Rattle.std.specs.Prelude.{◌≡◌, ◌++◌, OnOk};
ghost use Rattle.mseed_record.specs.Viewing.{view_of};
ghost use Rattle.mseed_select.specs.Formatted.{Texts};
ghost use Rattle.mseed_select.specs.private.Copying.{bytes_alone};

use crate::selected::Selected;
use mseed_record::RecordView;
use std::alloc::{AllocError, Allocator};

/// In what form records are written: a text for each, and one at the end. A loop over records is generic over the
/// format, so that none pays for what another writes.
pub trait Format<A: Allocator> {
    // What is written of a record, and at the end.
    ghost texts: { Self → Texts };

    /// Adds the text of a record, by the record's offset (in bytes) in the whole input.
    ///
    /// # Errors
    ///
    /// `AllocError` where memory was refused.
    fn push_record(
        &self,
        offset: u64,
        view: &RecordView,
        text: &mut Vec<u8, A>,
    ) -> Result<(), AllocError>
        ensures { OnOk result (text.new.items ≡ text.old.items ++ (texts self.now).of_record offset
            (view_of view.now)) };

    /// Adds the text after the last record, by what was found.
    ///
    /// # Errors
    ///
    /// `AllocError` where memory was refused.
    fn push_end(&self, found: &Selected, text: &mut Vec<u8, A>) -> Result<(), AllocError>
        ensures { OnOk result (text.new.items ≡ text.old.items ++ (texts self.now).at_end found.now) };
}

/// The records byte for byte.
#[derive(Clone, Copy)]
pub(crate) struct Verbatim;

impl<A: Allocator> Format<A> for Verbatim {
    ghost texts = { λ _. bytes_alone };

    #[inline(always)]
    fn push_record(
        &self,
        _offset: u64,
        view: &RecordView,
        text: &mut Vec<u8, A>,
    ) -> Result<(), AllocError> {
        text.extend_from_slice(view.bytes())?;
        Ok(())
    }

    #[inline(always)]
    fn push_end(&self, _found: &Selected, _text: &mut Vec<u8, A>) -> Result<(), AllocError> {
        Ok(())
    }
}
