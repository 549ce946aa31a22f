//! Laws of desks.

ghost use Rattle.std.specs.Prelude.{◌≡◌, ℕ, List, Some, Result, IfErr};
ghost use Rattle.srv_edge.specs.Disk.{LeavesOnly};
ghost use Rattle.srv_edge.specs.declared.failed.Refusal.{Refusal};
ghost use Rattle.srv_edge.specs.Frames.{Frame, Message};
ghost use Rattle.turnstile.specs.declared.history.Entry.{Entry};
ghost use Rattle.turnstile.specs.Passes.{PassView};
ghost use Rattle.request_frames.specs.Requests.{Asked, IsAsked};
ghost use Rattle.request_frames.specs.Talk.{IsTalk};
ghost use Rattle.table_model.specs.Bounds.{Bounds};
ghost use Rattle.table_model.specs.declared.call.Call.{Call};
ghost use Rattle.table_model.specs.declared.call.Outcome.{Outcome};
ghost use Rattle.type_store.specs.Files.{FileView, IsShown, cut_of};
ghost use Rattle.type_store.specs.Opened.{IsOpened};
ghost use Rattle.type_store.specs.Shape.{Shape};
ghost use Rattle.hub.specs.Books.{BookView};
ghost use Rattle.client_session.specs.Commits.{SoloAnswers};
ghost use Rattle.client_session.specs.Course.{Answers, Course, IsForOthers, course_from};
ghost use Rattle.client_session.specs.Sharing.{CallsBy, HasMade, Refuses, SharedAnswers};
ghost use Rattle.client_session.specs.Standing.{IsSafe, StandsAt};

use srv_edge::Device;

/// A law: a desk over a book stands at the start of a course where its file was opened, and each of
/// its answers leads it on. A crash within an answer leaves a commit that was allowed before it, or
/// its own; one behind it leaves a commit that is allowed with it.
pub fn each_answer<D: Device>(_device: &D)
    ensures starts { (start : D) (bounds : Bounds) (seen : List ℕ) (v : FileView D)
        (s : BookView D) → s.file ≡ Some v → IsOpened bounds seen v s.tables
        → IsShown D.may_leave v
        → LeavesOnly D.moment D.left_since start v.device (D.may_leave start)
        → StandsAt D.Device start bounds v.shape s (course_from (cut_of v.last s.tables)) }
    ensures safe { (version : ℕ) (start : D) (bounds : Bounds) (shape : Shape)
        (old new : BookView D) (c : Course) (a : Asked) (reply : Message) → IsAsked version a
        → StandsAt D.Device start bounds shape old c → SoloAnswers D.Device old a reply new
        → IsSafe D.Device start bounds shape old c a reply new }
{}

/// A law: who answers as a course says waits for nobody.
pub fn waits_for_nobody()
    ensures { (most_blocks : ℕ) (shape : Shape) (old new : Course) (a : Asked) (reply : Message)
        → Answers most_blocks shape old a reply new → ¬ IsForOthers reply }
{}

/// A law: in a session of a desk over a hub, what its pass had made goes on with what the requests
/// made, each once and in order, and the pass sees more.
pub fn own_calls_grow()
    ensures { (old new : PassView) (frames replies : List Frame)
        → IsTalk SharedAnswers old frames replies new
        → (own : List Entry) × HasMade old own new }
{}

/// A law: what a call by a pass may be refused for. No call tells of a fault of the device, nor of a
/// commit under way; only a commit does.
pub fn refused_calls()
    ensures { (old new : PassView) (c : Call) (answered : Result Outcome Refusal)
        → CallsBy old c answered new → IfErr answered (Refuses c) }
{}
