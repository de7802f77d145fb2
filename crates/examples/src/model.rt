//! Calls of `slink_model`.
ghost use Rattle.std.specs.Prelude.{◌≡◌};
ghost use Rattle.slink_model.specs.Relay.{IsRelayable};

use mseed_audit::Series;
use mseed_pack::Options;
use slink_feed::Mode;
use slink_model::{Memory, RelayFault, Setup, Step, World, relay, run_schedule};
use slink_wire::Place;
use std::alloc::{AllocError, Global};

/// A world of one place, whose ring keeps ten records, the first under the number 0.
pub fn world_of(alloc: Global, place: Place) -> Result<Setup, AllocError> {
    Ok(Setup {
        places: vec![in alloc; (place, None)]?,
        capacity: 10,
        first: 0,
        mode: Mode::Data,
    })
}

/// Whether a step can stand in a schedule of a world.
pub fn can_stand(setup: &Setup, step: &Step) -> bool {
    setup.has_step(step)
}

/// Whether these steps are a schedule of a world.
pub fn are_schedule(setup: &Setup, steps: &[Step]) -> bool {
    setup.has_steps(steps)
}

/// A world of no place, once a client connected and its link was cut off.
pub fn cut_off(alloc: Global) -> Result<World, Memory> {
    let setup = Setup {
        places: Vec::new(alloc),
        capacity: 10,
        first: 0,
        mode: Mode::Data,
    };
    run_schedule(alloc, &setup, &[Step::Connect, Step::Cut])
}

/// What a client holds of a series once its records were sent through a schedule.
pub fn through_cuts(
    alloc: Global,
    series: &Series,
    options: &Options,
    setup: &Setup,
    steps: &[Step],
) -> Result<Option<Series>, RelayFault>
    requires exponent { options.now.exponent ≡ 9 }
    requires relayable { IsRelayable setup.now series.now.codes steps.now }
{
    relay(alloc, series, options, setup, steps)
}
