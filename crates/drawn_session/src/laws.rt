ghost use Rattle.std.specs.Prelude.{◌≡◌, ℕ, length};
ghost use Rattle.srv_edge.specs.Frames.{AreFrames, at_bye, stream_of};
ghost use Rattle.drawn_session.specs.Line.{request_count};
ghost use Rattle.drawn_session.specs.Requests.{requests, session_bytes, session_frames};

/// A law: the bytes of a drawn session are read as its frames, of which the last is its Bye, and these
/// are as many as its line says.
pub fn drawn_bytes_are_frames()
    ensures frames { (units seed : ℕ)
        → AreFrames 1 (session_bytes units seed) (session_frames units seed) at_bye }
    ensures all { (units seed : ℕ)
        → session_bytes units seed ≡ stream_of (session_frames units seed) }
    ensures count { (units seed : ℕ) → length (requests units seed) ≡ request_count units }
{}
