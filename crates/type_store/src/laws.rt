ghost use Rattle.std.specs.Prelude.{◌≡◌, ◌≢◌, ◌<◌, ◌^◌, ℕ, List, Some, Ok, Err, length, take};
ghost use Rattle.byteorder.specs.Endian.{little_bytes};
ghost use Rattle.info_stream.specs.Text.{new_info};
ghost use Rattle.srv_edge.specs.declared.failed.Limits.{Limits};
ghost use Rattle.msf_image.specs.declared.fault.DamageKind.TheVariants as kind;
ghost use Rattle.names_table.specs.Reading as names;
ghost use Rattle.names_table.specs.declared.fault.NamesFault.TheVariants as names_fault;
ghost use Rattle.table_model.specs.Bounds.{Bounds, bounds_of};
ghost use Rattle.table_model.specs.Tables.{Tables, empty_tables};
ghost use Rattle.tpi_stream.specs.Reading as records;
ghost use Rattle.tpi_stream.specs.declared.fault.TpiFault.TheVariants as tpi_fault;
ghost use Rattle.type_store.specs.Faults.{damage_at};
ghost use Rattle.type_store.specs.Holds.{Contents, Held, content_at, holding, tables_of};
ghost use Rattle.type_store.specs.NewFile.{changed, new_contents, new_numbers, replaced};
ghost use Rattle.type_store.specs.Written.{AreWithin, CanKeep, HaveBytes, IsWritten, KeptNumbers, numbers_of, written_held};

use names_table::written_names_are_read;

/// A law: contents that are written for an age and tables hold exactly this age and these tables,
/// and keep the numbers with which they were written.
pub fn written_tables_are_held()
    ensures held { (bounds : Bounds) (kept : KeptNumbers) (info : List ℕ) (age : ℕ)
        (tables : Tables) (contents : Contents) → CanKeep kept info → AreWithin bounds tables
        → age < 2 ^ 32 → IsWritten kept info age tables contents
        → holding bounds contents ≡ Ok (written_held kept age tables) }
    ensures tables { (bounds : Bounds) (kept : KeptNumbers) (age : ℕ) (tables : Tables)
        → AreWithin bounds tables → tables_of bounds (written_held kept age tables) ≡ tables }
    ensures age { (kept : KeptNumbers) (age : ℕ) (tables : Tables)
        → (written_held kept age tables).age ≡ age }
    ensures kept { (kept : KeptNumbers) (age : ℕ) (tables : Tables)
        → numbers_of (written_held kept age tables) ≡ kept }
{
    written_names_are_read();
}

/// A law: contents that hold something name in their PDB stream, and have in their headers, numbers
/// with which other tables can be written.
pub fn held_numbers_can_be_kept()
    ensures { (bounds : Bounds) (contents : Contents) (held : Held) → HaveBytes contents
        → holding bounds contents ≡ Ok held → (info : List ℕ)
        × (content_at contents 1 ≡ Some info) × CanKeep (numbers_of held) info }
{}

/// A law: the streams of a new file are written for the age 1 and empty tables, with numbers that
/// can be kept, and hold them.
pub fn new_file_is_written()
    ensures can { (guid : List ℕ) (signature : ℕ) → length guid ≡ 16
        → CanKeep new_numbers (new_info guid signature) }
    ensures within { (limits : Limits) → AreWithin (bounds_of limits) (empty_tables limits) }
    ensures written { (limits : Limits) (guid : List ℕ) (signature : ℕ)
        → IsWritten new_numbers (new_info guid signature) 1 (empty_tables limits)
        (new_contents guid signature) }
    ensures held { (limits : Limits) (guid : List ℕ) (signature : ℕ) → length guid ≡ 16
        → holding (bounds_of limits) (new_contents guid signature)
        ≡ Ok (written_held new_numbers 1 (empty_tables limits)) }
{
    written_tables_are_held();
}

/// A law: a new file of which one stream is changed has the damage that is told of it: a PDB stream
/// cut to 27 bytes, too few buckets of types, items with the hash stream of the types, and names
/// without the signature or with strings that pass the stream's end.
pub fn changed_files_are_damaged()
    ensures info { (limits : Limits)
        → holding (bounds_of limits) (changed 1 (take 27)) ≡ Err (damage_at kind.InfoShort 12) }
    ensures types { (limits : Limits)
        → holding (bounds_of limits) (changed 2 (replaced 28 (little_bytes 4 4095)))
        ≡ Err (damage_at kind.TypesHeader 28) }
    ensures items { (limits : Limits)
        → holding (bounds_of limits) (changed 4 (replaced 20 (little_bytes 2 5)))
        ≡ Err (damage_at kind.ItemsHash 20) }
    ensures names { (limits : Limits)
        → holding (bounds_of limits) (changed 7 (replaced 0 (little_bytes 1 0)))
        ≡ Err (damage_at kind.NamesHeader 0) }
    ensures size { (limits : Limits)
        → holding (bounds_of limits) (changed 7 (replaced 8 (little_bytes 4 18)))
        ≡ Err (damage_at kind.NamesSize 8) }
{}

/// A law: no judgement of a stream says that memory is wanted, so each fault that one gives is a
/// damage.
pub fn judgements_want_no_memory()
    ensures records { (max_records max_bytes : ℕ) (stream : List ℕ)
        → records.reading max_records max_bytes stream ≢ Err tpi_fault.OutOfMemory }
    ensures names { (max_bytes : ℕ) (stream : List ℕ)
        → names.reading max_bytes stream ≢ Err names_fault.OutOfMemory }
{}
