ghost use Rattle.std.specs.Prelude.{◌≡◌, ℕ, List, []};
ghost use Rattle.srv_edge.specs.Frames.{IsHead, Message};
ghost use Rattle.request_frames.specs.Requests.{Asked, IsAsked, asked};
ghost use Rattle.request_frames.specs.Talk.{AnswersWith, PutsReply};

use crate::request::Request;
use srv_edge::{Head, Piece};

/// Who answers the requests of a session.
pub trait Desk {
    /// What lies beneath all desks of a kind, such as the runtime.
    type Ground;

    /// From an old desk, a request may be answered so, and leave a new desk.
    ghost answers: { Self → Asked → Message → Self → Type 0 };

    /// How often a device beneath it has failed.
    ghost faults: { Self → ℕ } = { λ _. 0 };

    /// The names of the references that it holds. No call puts another in their place.
    ghost loans: { Self → List ℕ } = { λ _. [] };

    /// Puts one whole reply into an empty piece, with the head of the request. A refusal for a fault
    /// of the device comes only where the count of faults rose.
    fn answer(&mut self, ground: &Self::Ground, head: Head, request: &Request, out: &mut Piece)
        requires head { IsHead head }
        requires asked { IsAsked head.version (asked request.now) }
        requires empty { out.old ≡ [] }
        ensures { PutsReply (AnswersWith answers faults loans) head
            self.old (asked request.now) out.new self.new };
}
