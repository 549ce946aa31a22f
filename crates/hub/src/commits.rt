ghost use Rattle.std.specs.Prelude.{◌≡◌, ◌⊎◌, IfOk, IfErr, IsErrAnd};
ghost use Rattle.core_model.specs.History.{IsLegal};
ghost use Rattle.hub.specs.Kept.{IsOwnOpen};
ghost use Rattle.hub.specs.Passes.{Commits, IsBegunBy, IsEndedBy, IsNotBegun, IsRefusedUnderWay};
ghost use Rattle.turnstile.specs.Histories.{Begins};
ghost use Rattle.turnstile.specs.Passes.{IsIdleAt, IsSamePass, IsSound};

use crate::hub::{Hub, HubPass};
use crate::under_way::{Done, Out};
use srv_edge::{Device, Refusal};
use std::sync::Wait;

impl<D: Device> Hub<D> {
    /// Begins a commit of the tables as they stand. The file is then out of the hub until the
    /// commit is ended, and others' calls go on.
    pub fn try_begin_commit(&self, rt: &impl Wait, pass: &mut HubPass<D>) -> Result<Out<D>, Refusal>
        requires idle { IsIdleAt self.now pass.old }
        ensures begun { IfOk result (IsBegunBy pass.old pass.new) }
        ensures refused { IfErr result (λ why. IsRefusedUnderWay pass.old pass.new why
            ⊎ IsNotBegun pass.old pass.new why) }
        ensures same { IsSamePass pass.old pass.new }
        ensures sound { IsSound IsLegal pass.new }
        ensures idle { IsIdleAt self.now pass.new }
    {
        let caller = pass.number();
        let mut turn = self.gate.take_turn(rt, pass);
        match turn.value().state.begin(caller) {
            Ok(reply) => {
                turn.file();
                turn.leave();
                reply
            }
            Err(refusal) => {
                turn.leave();
                Err(refusal)
            }
        }
    }

    /// Ends a commit of this pass. It takes no memory. One that failed is answered by its number
    /// too.
    pub fn end_commit(
        &self,
        rt: &impl Wait,
        pass: &mut HubPass<D>,
        done: Done<D>,
    ) -> Result<u32, Refusal>
        requires idle { IsIdleAt self.now pass.old }
        requires basis { done.basis ≡ pass.old.basis }
        requires kept { Begins done.kept pass.old.seen }
        requires own { IsOwnOpen pass.old.number done.kept pass.old.mine }
        ensures ended { IsEndedBy pass.old pass.new done result }
        ensures same { IsSamePass pass.old pass.new }
        ensures sound { IsSound IsLegal pass.new }
        ensures idle { IsIdleAt self.now pass.new }
    {
        let caller = pass.number();
        let mut turn = self.gate.take_turn(rt, pass);
        let reply = turn.value().state.end(caller, done);
        turn.file();
        turn.leave();
        reply
    }

    /// A whole commit, in two turns. Others' calls go on between them.
    pub fn commit(&self, rt: &impl Wait, pass: &mut HubPass<D>) -> Result<u32, Refusal>
        requires idle { IsIdleAt self.now pass.old }
        ensures reply { Commits pass.old pass.new result ⊎ IsErrAnd result
            (λ why. IsRefusedUnderWay pass.old pass.new why ⊎ IsNotBegun pass.old pass.new why) }
        ensures same { IsSamePass pass.old pass.new }
        ensures sound { IsSound IsLegal pass.new }
        ensures idle { IsIdleAt self.now pass.new }
    {
        let out = self.try_begin_commit(rt, pass)?;
        let done = out.write_out();
        self.end_commit(rt, pass, done)
    }
}
