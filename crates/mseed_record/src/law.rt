//! Laws of headers.
ghost use Rattle.std.specs.Prelude.{ℕ, List};
ghost use Rattle.mseed_record.specs.Written.{Header, IsHeaded, IsWritable, ReadsBack};

/// Bytes that begin with a written header, and are as many as its length exponent says, are a record, and its
/// fields are the header's (SEED manual, chapter 8).
pub fn header_reads_back()
    ensures { (h : Header) (b : List ℕ) → IsWritable h → IsHeaded h b → ReadsBack h b }
{}
