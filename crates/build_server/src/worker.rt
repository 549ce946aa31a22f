ghost use Rattle.std.specs.Prelude.{◌≡◌, ◌<◌, ◌+◌, ◌^◌, List};
ghost use Rattle.srv_edge.specs.Finished.{FinishesFresh};
ghost use Rattle.srv_edge.specs.declared.limit.TheConstants.{SESSION_BYTES};
ghost use Rattle.turnstile.specs.declared.history.Entry.{Entry};
ghost use Rattle.request_frames.specs.Serving.{Serves};
ghost use Rattle.client_session.specs.Sharing.{HasMade};
ghost use Rattle.build_server.specs.Workers.{badge_of};

use client_session::Shared;
use request_frames::{Desk, serve_link};
use session_pool::Work;
use srv_edge::limit::SESSION_BYTES;
use srv_edge::{Device, Link, Room, SessionEnd};
use std::sync::Wait;

/// A worker of the server: it serves links over a desk of its own, one after another.
#[derive(Drop)]
pub(crate) struct Worker<'h, R: Wait, D: Device> {
    pub desk: Shared<'h, R, D>,
    pub room: Room,
    /// How many links it has served.
    pub links: u64,
}

impl<'h, R: Wait, E: Link, D: Device> Work<R, E> for Worker<'h, R, D> {
    ghost served = { λ w. w.links };

    ghost badge = { λ w. badge_of w.desk };

    fn serve(&mut self, rt: &R, link: &mut E) -> SessionEnd
        requires { self.old.links < 2 ^ 63 }
        ensures served { self.new.links ≡ self.old.links + 1 }
        ensures badge { badge_of self.new.desk ≡ badge_of self.old.desk }
        // The replies are the hub's answers to the whole frames that came, by the calls of this pass.
        ensures serves { Serves E.Source E.Sink ⟦<Shared<'h, R, D> as Desk>⟧ SESSION_BYTES
            link.old link.new self.old.desk self.new.desk result }
        // Its own calls go on with those of these frames, each once and in order.
        ensures mine { (own : List Entry) × HasMade self.old.desk own self.new.desk }
        ensures finished { FinishesFresh E.Source E.Sink link.old result link.new }
    {
        self.links += 1;
        serve_link(rt, link, &mut self.desk, SESSION_BYTES, &mut self.room)
    }
}
