ghost use Rattle.std.specs.Prelude.{◌≡◌, ◌≤◌, ◌<◌, ◌+◌, ◌^◌, ℕ, List, All, Option, Ok, drop, length};
ghost use Rattle.srv_edge.specs.Disk.{Torn, with_head};
ghost use Rattle.msf_blocks.specs.Blocks.{IsBlockSize, IsReserved, block_offset};
ghost use Rattle.msf_blocks.specs.Superblock.{superblock_text};
ghost use Rattle.msf_image.specs.declared.image.Image.{Image};
ghost use Rattle.msf_image.specs.Packed.{IsPackable, given_block, packed_file, packed_image, packed_super};
ghost use Rattle.msf_image.specs.Reads.{IsWhole, block_bytes, read_file};
ghost use Rattle.msf_image.specs.Relation.{IsApart, IsSpare, Reads, SameSource, SparesSource, contents_in};

/// A law: the judgement of a file answers an image exactly where the file reads as it.
pub fn judged_where_it_reads()
    ensures judged { (file : List ℕ) (limit : ℕ) (image : Image) (streams : List (Option (List ℕ)))
        → Reads file limit image streams → read_file file limit ≡ Ok image }
    ensures reads { (file : List ℕ) (limit : ℕ) (image : Image) → All (λ byte. byte < 2 ^ 8) file
        → read_file file limit ≡ Ok image → Reads file limit image (contents_in file image) }
{}

/// A law: what a file reads as is whole, and hangs on the superblock alone and on the blocks of its
/// block map, its directory, its active map and its streams. So it stays where only other bytes
/// change, where a write whose range has none of these was made in part, and where the same
/// superblock is written again.
pub fn reading_hangs_on_its_source()
    ensures whole { (file : List ℕ) (limit : ℕ) (image : Image) (streams : List (Option (List ℕ)))
        → Reads file limit image streams → IsWhole image }
    ensures same { (file other : List ℕ) (limit : ℕ) (image : Image)
        (streams : List (Option (List ℕ))) → Reads file limit image streams
        → SameSource image file other → Reads other limit image streams }
    ensures torn { (file other : List ℕ) (limit : ℕ) (image : Image)
        (streams : List (Option (List ℕ))) (at n : ℕ) → Reads file limit image streams
        → SparesSource image file at n → Torn at n file other → Reads other limit image streams }
    ensures with_head { (file : List ℕ) (limit : ℕ) (image : Image)
        (streams : List (Option (List ℕ))) → Reads file limit image streams
        → Reads (with_head file (superblock_text image.head)) limit image streams }
{}

/// A law: a torn write leaves the bytes of a block from which its range lies apart; and an image is
/// read from no block that it has free, past its end, or in the map that is not active.
pub fn torn_write_spares()
    ensures block { (block_size at n b : ℕ) (file other : List ℕ) → Torn at n file other
        → block_offset block_size b + block_size ≤ length file → IsApart block_size at n b
        → block_bytes block_size other b ≡ block_bytes block_size file b }
    ensures spare { (file : List ℕ) (limit : ℕ) (image : Image)
        (streams : List (Option (List ℕ))) (b : ℕ)
        → Reads file limit image streams → IsSpare image b
        → SparesSource image file (block_offset image.head.block b) image.head.block }
{}

/// A law: a packed file reads as its streams, with no free block, whatever the number without a
/// known meaning is and also where streams are absent.
pub fn packed_file_reads()
    ensures reads { (size unknown limit : ℕ) (streams : List (Option (List ℕ))) → unknown < 2 ^ 32
        → IsPackable size streams → (packed_super size unknown streams).blocks ≤ limit
        → Reads (packed_file size unknown streams) limit (packed_image size unknown streams)
        (drop 1 streams) }
    ensures whole { (size unknown : ℕ) (streams : List (Option (List ℕ))) → unknown < 2 ^ 32
        → IsPackable size streams → IsWhole (packed_image size unknown streams) }
{}

/// A law: the blocks that a packed file gives are those from 3 on that are not reserved, in rising
/// order and without a gap.
pub fn given_in_order()
    ensures least { (size k : ℕ) → IsBlockSize size → 3 ≤ given_block size k }
    ensures unreserved { (size k : ℕ) → IsBlockSize size → ¬ IsReserved size (given_block size k) }
    ensures rises { (size j k : ℕ) → IsBlockSize size → j < k
        → given_block size j < given_block size k }
    ensures none_left { (size b : ℕ) → IsBlockSize size → 3 ≤ b → ¬ IsReserved size b
        → (k : ℕ) × (given_block size k ≡ b) }
{}
