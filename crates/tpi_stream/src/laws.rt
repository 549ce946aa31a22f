ghost use Rattle.std.specs.Prelude.{◌≡◌, ◌<◌, ◌≤◌, ◌+◌, ◌^◌, ℕ, All, List, Ok, length};
ghost use Rattle.std.specs.List.{AllByRecursion};
ghost use Rattle.srv_edge.specs.declared.limit.TheConstants.{MOST_BYTES, MOST_RECORDS};
ghost use Rattle.srv_edge.specs.Records.{joined};
ghost use Rattle.tpi_stream.specs.Reading.{reading, records_in};
ghost use Rattle.tpi_stream.specs.Stream.{IsRecord, IsStream};
ghost use Rattle.tpi_stream.specs.Written.{AreRecords, CanBeKept, kept_of, record_stream_text, written_header};
ghost use Rattle.tpi_stream.specs.declared.header.Kept.{Kept};
ghost use Rattle.tpi_stream.specs.declared.header.TheConstants.{HEADER_BYTES};
ghost use Rattle.tpi_stream.specs.declared.reading.Records.{Records};

/// A law: the text of a header and its records, with any bytes behind, is read again as the same;
/// and a stream that is read is such a text.
pub fn text_is_read()
    ensures read { (max_records max_bytes : ℕ) (stream : List ℕ) (r : Records)
        → IsStream max_records max_bytes stream r → reading max_records max_bytes stream ≡ Ok r }
    ensures spelled { (max_records max_bytes : ℕ) (stream : List ℕ) (r : Records)
        → All (λ byte. byte < 2 ^ 8) stream → reading max_records max_bytes stream ≡ Ok r
        → IsStream max_records max_bytes stream r }
{}

/// A law: bytes are read as the records of which they are joined, and as no others.
pub fn records_are_joined()
    ensures read { (records : List (List ℕ)) (at : ℕ) → AllByRecursion IsRecord records
        → records_in (length (joined records)) at (joined records) ≡ Ok records }
    ensures records { (at : ℕ) (bytes : List ℕ) (records : List (List ℕ))
        → records_in (length bytes) at bytes ≡ Ok records → AllByRecursion IsRecord records }
    ensures joined { (at : ℕ) (bytes : List ℕ) (records : List (List ℕ))
        → records_in (length bytes) at bytes ≡ Ok records → joined records ≡ bytes }
{}

/// A law: a stream that is written of records is read again as its header and these records; and
/// the numbers that it keeps are those of the stream that was read before.
pub fn written_records_are_read()
    ensures read { (max_records max_bytes : ℕ) (kept : Kept) (records : List (List ℕ))
        → max_records ≤ MOST_RECORDS → max_bytes ≤ MOST_BYTES → CanBeKept kept
        → AreRecords max_records max_bytes records
        → reading max_records max_bytes (record_stream_text kept records)
        ≡ Ok (record { header = written_header kept records; list = records }) }
    ensures kept { (kept : Kept) (records : List (List ℕ))
        → kept_of (written_header kept records) ≡ kept }
    ensures can { (max_records max_bytes : ℕ) (stream : List ℕ) (r : Records)
        → All (λ byte. byte < 2 ^ 8) stream → reading max_records max_bytes stream ≡ Ok r
        → CanBeKept (kept_of r.header) }
    ensures records { (max_records max_bytes : ℕ) (stream : List ℕ) (r : Records)
        → All (λ byte. byte < 2 ^ 8) stream → reading max_records max_bytes stream ≡ Ok r
        → AreRecords max_records max_bytes r.list }
    ensures length { (kept : Kept) (records : List (List ℕ))
        → length (record_stream_text kept records) ≡ HEADER_BYTES + length (joined records) }
{}
