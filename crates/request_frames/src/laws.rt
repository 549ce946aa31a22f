ghost use Rattle.std.specs.Prelude.{◌≡◌, ℕ, List, drop};
ghost use Rattle.srv_edge.specs.Frames.{Frame, IsFrame, frame_bytes};
ghost use Rattle.request_frames.specs.Lists.{AreRecords};
ghost use Rattle.request_frames.specs.Requests.{Asked, IsAsked, frame_in, request_message};

/// A law: in a version no two requests have one message, and a frame is read again as itself
/// behind the four bytes of its length. So what [`crate::write_request`] wrote is read by
/// [`crate::head_of`] and [`crate::read_request`] as the same head and the same request.
pub fn one_request_a_frame()
    ensures one { (version : ℕ) (a b : Asked) → IsAsked version a → IsAsked version b
        → request_message a ≡ request_message b → a ≡ b }
    ensures again { (version : ℕ) (f : Frame) → IsFrame version f
        → frame_in version (drop 4 (frame_bytes f)) ≡ f }
{}

/// A law: a list is cut into records in one way.
pub fn one_list_of_records()
    ensures { (list : List ℕ) (one other : List (List ℕ)) → AreRecords list one
        → AreRecords list other → one ≡ other }
{}
