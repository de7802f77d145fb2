//! A series that is packed, sent through a schedule, and put together from what the client holds.
ghost use Rattle.std.specs.Prelude.{◌≡◌, ◌^◌, ◌<◌, All, IfErr, IfOk, [], ◌∷◌, ◌++◌, List, ℕ, Err, length, map};
ghost use Rattle.std.specs.Prelude.{slice_index_or};
ghost use Rattle.mseed_record.specs.Record.{IsRecord};
ghost use Rattle.mseed_record.specs.Viewing.{view_of};
ghost use Rattle.mseed_pack.specs.ReadBack.{AreViewsOf, ReadsAs};
ghost use Rattle.slink_model.specs.World.{lists_of};
ghost use Rattle.slink_model.specs.Relay.{ComesThrough, IsHeldAs, IsRelay, IsRelayable, fed};
ghost use Rattle.slink_model.specs.private.Relaying.{FailsToPackAll, IsAmong, IsOfRecords, IsPackedAs};
ghost use Rattle.slink_model.specs.declared.world.Step.{Step};
ghost use Rattle.slink_model.specs.declared.relaying.RelayFault.{RelayFault};

use crate::law::pushes_what_is_appended;
use crate::memory_sink::MemorySink;
use crate::schedule::run_schedule;
use crate::world::{Setup, Step};
use mseed_audit::{NotContinuous, Series, series};
use mseed_pack::{Options, PackFault, a_stretch_reads_back, one_length, pack};
use mseed_record::{Codes, RecordView};
use std::alloc::{AllocError, Global};

/// Why nothing is relayed.
#[derive(Clone, Copy, Debug, PartialEq, Eq)]
pub enum RelayFault {
    /// The series can't be packed.
    Pack(PackFault),
    /// An allocation was refused.
    Memory,
}

/// Returns the series of the records that the client holds at the end of a schedule in which each Append pushes the
/// next record that a series was packed into, or nothing where none is left; `None` where the client holds none.
///
/// The records have 512 bytes. The schedule has one station, that of the series' channel, and fewer than 2^24 steps.
///
/// # Errors
///
/// `Pack` where the series can't be packed, as of `fit`; `Memory` where an allocation was refused.
pub fn relay(
    alloc: Global,
    series: &Series,
    options: &Options,
    setup: &Setup,
    steps: &[Step],
) -> Result<Option<Series>, RelayFault>
    requires exponent { options.now.exponent ≡ 9 }
    requires relayable { IsRelayable setup.now series.now.codes steps.now }
    ensures { IsRelay result series.now options.now setup.now steps.now }
{
    one_length();
    let packed = packed(alloc, series, options)?;
    let (records, _) = packed.as_chunks::<512>();
    send(alloc, series, setup, steps, records)
}

/// The bytes of all records that a series is packed into.
fn packed(alloc: Global, series: &Series, options: &Options) -> Result<Vec<u8>, RelayFault>
    ensures ok { IfOk result (λ bytes. IsPackedAs series.now options.now bytes.items) }
    ensures err { IfErr result (FailsToPackAll series.now options.now) }
{
    let mut kept = MemorySink::new(alloc);
    match pack(series, options, &mut kept) {
        Ok(_) => Ok(kept.bytes),
        // A sink in memory fails only for want of it.
        Err(PackFault::Write(_)) => Err(RelayFault::Memory),
        Err(fault) => Err(RelayFault::Pack(fault)),
    }
}

/// Carries out the schedule of these records, and puts those that the client holds together.
fn send(
    alloc: Global,
    series: &Series,
    setup: &Setup,
    steps: &[Step],
    records: &[[u8; 512]],
) -> Result<Option<Series>, RelayFault>
    requires reads { ReadsAs series.now records.now }
    requires relayable { IsRelayable setup.now series.now.codes steps.now }
    ensures ok { IfOk result (λ t. ComesThrough t series.now setup.now steps.now records.now) }
    ensures err { IfErr result (λ fault. fault ≡ RelayFault.Memory) }
{
    a_stretch_reads_back();
    pushes_what_is_appended();
    let fed = fed(alloc, steps, records)?;
    let world = match run_schedule(alloc, setup, &fed) {
        Ok(world) => world,
        Err(_) => return Err(RelayFault::Memory),
    };
    put_together(alloc, series, first_of(&world.held))
}

/// Puts records that are held together, some of those that a series is packed into.
fn put_together(
    alloc: Global,
    series: &Series,
    held: &[[u8; 512]],
) -> Result<Option<Series>, RelayFault>
    requires few { length held.now < 2 ^ 40 }
    requires among { (records : List (List ℕ)) × IsAmong series.now records held.now }
    ensures ok { IfOk result (λ t. (records : List (List ℕ)) → IsAmong series.now records held.now
        → IsHeldAs t series.now records held.now) }
    ensures err { IfErr result (λ fault. fault ≡ RelayFault.Memory) }
{
    a_stretch_reads_back();
    if held.is_empty() {
        return Ok(None);
    }
    match assemble(alloc, held, &series.codes()) {
        Ok(series) => Ok(Some(series)),
        // What is held is a slice of a packing, which is continuous, so that only memory can lack.
        Err(_) => Err(RelayFault::Memory),
    }
}

/// The steps with these records in place of their own.
fn fed(alloc: Global, steps: &[Step], records: &[[u8; 512]]) -> Result<Vec<Step>, RelayFault>
    ensures ok { IfOk result (λ all. all.items ≡ fed steps.now records.now) }
    ensures err { IfErr result (λ fault. fault ≡ RelayFault.Memory) }
{
    let mut all = Vec::new(alloc);
    let mut rest = records;
    for step in steps {
        rest = match add_step(&mut all, step, rest) {
            Ok(left) => left,
            Err(_) => return Err(RelayFault::Memory),
        };
    }
    Ok(all)
}

/// Adds a step, with the next record where it pushes one, and answers the records that are left.
///
/// # Errors
///
/// `AllocError` where an allocation was refused.
fn add_step<'a>(
    all: &mut Vec<Step>,
    step: &Step,
    records: &'a [[u8; 512]],
) -> Result<&'a [[u8; 512]], AllocError>
    ensures { IfOk result (λ rest. (steps : List Step)
        → all.new.items ++ fed steps rest.now ≡ all.old.items ++ fed (step.now ∷ steps) records.now) }
{
    match step {
        Step::Append(k, _) => match records.split_first() {
            Some((record, rest)) => {
                all.push(Step::Append(*k, *record))?;
                Ok(rest)
            }
            None => Ok(records),
        },
        Step::Connect | Step::ToServer(_) | Step::ToClient(_) | Step::Send(_) | Step::Cut => {
            all.push(*step)?;
            Ok(records)
        }
    }
}

/// The records in the first of these lists.
fn first_of(lists: &Vec<Vec<[u8; 512]>>) -> &[[u8; 512]]
    ensures { result.now ≡ slice_index_or (lists_of lists.now) 0 [] }
{
    match lists.as_slice().first() {
        Some(list) => list.as_slice(),
        None => &[],
    }
}

/// The series of these records.
fn assemble(alloc: Global, records: &[[u8; 512]], codes: &Codes) -> Result<Series, NotContinuous>
    requires few { length records.now < 2 ^ 40 }
    requires records { All IsRecord records.now }
    ensures { IsOfRecords result codes.now records.now }
{
    let Ok(views) = views_of(alloc, records) else {
        return Err(NotContinuous::Memory);
    };
    series(alloc, &views, codes)
}

/// The views of these records.
fn views_of<'a>(alloc: Global, records: &'a [[u8; 512]]) -> Result<Vec<RecordView<'a>>, RelayFault>
    requires { All IsRecord records.now }
    ensures { IfOk result (λ views. AreViewsOf records.now (map view_of views.items)) }
{
    let mut views = Vec::new(alloc);
    for record in records {
        views
            .push(RecordView::of_record(record))
            .map_err(|_| RelayFault::Memory)?;
    }
    Ok(views)
}
