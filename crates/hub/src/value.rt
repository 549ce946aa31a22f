ghost use Rattle.std.specs.Prelude.{◌≡◌, IfOk, IfErr};

use crate::state::HubState;
use srv_edge::Device;
use std::alloc::{AllocFailed, Global};
use std::marker::Model;
use turnstile::Historied;

/// The value of a hub at its place in memory, so that a turn hands over no more than where it is.
pub struct HubValue<D: Device> {
    pub(crate) state: Box<HubState<D>>,
}

impl<D: Device> Model for HubValue<D> {
    ghost use Rattle.hub.specs.Stories.{HubView};

    ghost Value = { HubView D };

    ghost view = { λ v. v.state.value };
}

impl<D: Device> HubValue<D> {
    // Where there is no memory, the state comes back.
    pub(crate) fn new(alloc: Global, state: HubState<D>) -> Result<HubValue<D>, HubState<D>>
        ensures ok { IfOk result (λ v. v ≡ state) }
        ensures err { IfErr result (λ s. s ≡ state) }
    {
        match Box::new(alloc, state) {
            Ok(state) => Ok(HubValue { state }),
            Err(AllocFailed { value }) => Err(value),
        }
    }

    pub(crate) fn into_state(self) -> HubState<D>
        ensures { result ≡ self }
    {
        let HubValue { state } = self;
        Box::into_inner(state)
    }
}

impl<D: Device> Historied for HubValue<D> {
    ghost use Rattle.core_model.specs.History.{IsLegal};

    ghost basis = { λ v. v.story.basis };

    ghost entries = { λ v. v.story.entries };

    ghost law = { IsLegal };

    fn filed(&self) -> u32 {
        self.state.filed()
    }
}
