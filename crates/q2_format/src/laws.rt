//! What follows from the definitions, each law the contract of a function that does nothing.

ghost use Rattle.std.specs.Prelude.{◌≡◌, ◌^◌, ◌<◌, ◌≤◌, ℕ, List, Option, None, length, slice_index};
ghost use Rattle.q2_format.specs.Bytes.{place_bytes};
ghost use Rattle.q2_format.specs.Sizes.{cluster_size, clusters_for};
ghost use Rattle.q2_format.specs.Contents.{guest_byte, image_disk};
ghost use Rattle.q2_format.specs.Created.{Creation, CanBeCreated, HasCreatedHeader, IsCreated, created_cluster_size, created_header, creation_of};
ghost use Rattle.q2_format.specs.Entry.{IsWritable, is_single, l2_entry};
ghost use Rattle.q2_format.specs.declared.entries.L2Entry.TheVariants.{Unallocated};
ghost use Rattle.q2_format.specs.declared.header.TheConstants.{MAX_FILE_CLUSTERS};
ghost use Rattle.q2_format.specs.Header.{header_of, header_refusal};
ghost use Rattle.q2_format.specs.Sound.{IsConsistent, IsSound};
ghost use Rattle.q2_format.specs.Tables.{active_tree, l2_word_of};

/// An L2 entry and its bit 63 have one word.
#[tactic(auto, using(crate::proofs::Words::one_spelling))]
pub fn l2_entries_have_one_word()
    ensures { (a b : ℕ) → a < 2 ^ 64 → b < 2 ^ 64 → IsWritable (l2_entry a)
        → l2_entry a ≡ l2_entry b → is_single a ≡ is_single b → a ≡ b }
{}

/// A created image maps nothing. So it reads as its backing disk, and without one, which is a list of no bytes,
/// as zeros.
#[tactic(auto, using(crate::proofs::Unmapped::created_entry, crate::proofs::Unmapped::created_byte, crate::proofs::Unmapped::created_disk))]
pub fn created_images_map_nothing()
    ensures entry { (new : Creation) (file : List ℕ) (cluster : ℕ) → IsCreated new file
        → l2_entry (l2_word_of (active_tree file (header_of file))
        (cluster_size (header_of file).cluster_bits) cluster)
        ≡ Unallocated }
    ensures byte { (new : Creation) (file backing : List ℕ) (place : ℕ) → IsCreated new file
        → guest_byte file backing place ≡ slice_index backing place }
    ensures disk { (new : Creation) (file backing : List ℕ) → IsCreated new file
        → image_disk file backing ≡ place_bytes backing 0 new.size }
{}

/// The header of a created image is accepted, in a file within the limits, and says what the image was
/// created from.
pub fn created_headers_read_back()
    ensures accepted { (file : List ℕ) (size len : ℕ) (name format : Option (List ℕ))
        → CanBeCreated size name format → HasCreatedHeader (creation_of size name format) file
        → 112 ≤ len → len ≤ 2 ^ 39 → header_refusal file len ≡ None }
    ensures fields { (file : List ℕ) (size : ℕ) (name format : Option (List ℕ))
        → CanBeCreated size name format → HasCreatedHeader (creation_of size name format) file
        → header_of file ≡ created_header (creation_of size name format) }
{}

/// A created image is sound, in a file within the limit.
#[tactic(auto, using(crate::proofs::CreatedSound::created_is_sound))]
pub fn created_images_are_sound()
    ensures { (file : List ℕ) (size : ℕ) (name format : Option (List ℕ))
        → CanBeCreated size name format → IsCreated (creation_of size name format) file
        → clusters_for (created_cluster_size (creation_of size name format)) (length file)
        ≤ MAX_FILE_CLUSTERS
        → IsSound file }
{}

/// A sound image names no cluster of its file twice, and counts each that it names.
#[tactic(auto, using(crate::proofs::Consistent::sound_is_consistent))]
pub fn sound_images_are_consistent()
    ensures { (file : List ℕ) → IsSound file → IsConsistent file (header_of file) (length file) }
{}
