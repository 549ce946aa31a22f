ghost use Rattle.std.specs.Prelude.{◌≡◌, ℕ, List, Ok, length};
ghost use Rattle.names_table.specs.Buckets.{AreFound, bucket_count, buckets_of, taken};
ghost use Rattle.names_table.specs.Names.{IsNamesTable, Names};
ghost use Rattle.names_table.specs.Reading.{reading};
ghost use Rattle.names_table.specs.Text.{names_text};

/// A law: the text of each table is read again as this table, with its names in their order and
/// its version.
pub fn written_names_are_read()
    ensures { (table : Names) → IsNamesTable table
        → reading table.max_bytes (names_text table.version table.names) ≡ Ok table }
{}

/// A law: a lookup of each name, from the bucket of its hash on, going round, meets its offset
/// before a bucket that is 0.
pub fn written_names_are_found()
    ensures { (version : ℕ) (names : List (List ℕ))
        → AreFound version 1 (bucket_count (length names)) names (buckets_of version names) }
{}

/// A law: there are as many buckets as the names ask for, and as many of them have an offset as
/// there are names, so that no name finds all buckets taken.
pub fn buckets_are_counted()
    ensures count { (version : ℕ) (names : List (List ℕ))
        → length (buckets_of version names) ≡ bucket_count (length names) }
    ensures taken { (version : ℕ) (names : List (List ℕ))
        → taken (buckets_of version names) ≡ length names }
{}
