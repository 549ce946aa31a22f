ghost use Rattle.std.specs.Prelude.{◌≡◌, ◌≤◌, ◌<◌, ◌^◌, ℕ, List, Some, Ok, length, codes};
ghost use Rattle.info_stream.specs.Named.{age_in, stream_named};
ghost use Rattle.info_stream.specs.Text.{new_info, with_age};

/// A law: the stream of a new file has 75 bytes and the age 1, and its names are in stream 7.
pub fn new_stream_is_read()
    ensures len { (guid : List ℕ) (signature : ℕ) → length guid ≡ 16
        → length (new_info guid signature) ≡ 75 }
    ensures age { (guid : List ℕ) (signature : ℕ) → length guid ≡ 16
        → age_in (new_info guid signature) ≡ Some 1 }
    ensures names { (guid : List ℕ) (signature : ℕ) → length guid ≡ 16
        → stream_named (new_info guid signature) (codes "/names") ≡ Ok 7 }
{}

/// A law: a stream with another age has this age, its length, and each of its names where it was.
pub fn age_is_kept()
    ensures age { (info : List ℕ) (age : ℕ) → 28 ≤ length info → age < 2 ^ 32
        → age_in (with_age info age) ≡ Some age }
    ensures len { (info : List ℕ) (age : ℕ) → 28 ≤ length info
        → length (with_age info age) ≡ length info }
    ensures names { (info name : List ℕ) (age : ℕ) → 28 ≤ length info
        → stream_named (with_age info age) name ≡ stream_named info name }
{}
