ghost use Rattle.std.specs.Prelude.{◌≡◌, true};
ghost use Rattle.core_model.specs.Legal.{faulted_ends};
ghost use Rattle.hub.specs.Ends.{AreEnded};
ghost use Rattle.turnstile.specs.Passes.{IsIdleAt};
ghost use Rattle.client_session.specs.Sharing.{SharedAnswers};

use crate::by_hub::answer_by_hub;
use hub::{Hub, HubPass};
use request_frames::{Desk, Head, Request};
use srv_edge::{Device, Piece};
use std::marker::{Model, PhantomData};
use std::sync::Wait;

/// A desk over a hub, to which its requests go by a pass of its own. An answer may wait for a turn.
#[derive(Drop)]
pub struct Shared<'h, R: Wait, D: Device> {
    hub: &'h Hub<D>,
    pass: HubPass<D>,
    runtime: PhantomData<R>,
}

impl<'h, R: Wait, D: Device> Model for Shared<'h, R, D> {
    ghost use Rattle.hub.specs.Ends.{AreEnded};
    ghost use Rattle.turnstile.specs.Passes.{IsIdleAt, PassView};

    ghost Value = { PassView };

    ghost view = { λ s. s.pass };

    ghost invariant = { λ s. IsIdleAt s.hub.now s.pass × AreEnded s.pass.mine };
}

impl<'h, R: Wait, D: Device> Shared<'h, R, D> {
    /// A desk over a hub whose requests go by this pass.
    pub fn new(hub: &'h Hub<D>, pass: HubPass<D>) -> Shared<'h, R, D>
        requires idle { IsIdleAt hub.now pass }
        requires ended { AreEnded pass.mine }
        ensures { result ≡ pass }
    {
        Shared {
            hub,
            pass,
            runtime: PhantomData,
        }
    }

    /// The pass, with what it has seen and done.
    pub fn end(self) -> HubPass<D>
        ensures pass { result ≡ self.entry }
        ensures idle { result.idle ≡ true }
        ensures ended { AreEnded result.mine }
    {
        let Shared {
            pass,
            hub: _,
            runtime: _,
        } = self;
        pass
    }
}

impl<'h, R: Wait, D: Device> Desk for Shared<'h, R, D> {
    type Ground = R;

    ghost answers = { SharedAnswers };

    ghost faults = { λ s. faulted_ends s.mine };

    fn answer(&mut self, rt: &R, head: Head, request: &Request, out: &mut Piece) {
        answer_by_hub(self.hub, rt, &mut self.pass, head, request, out);
    }
}
