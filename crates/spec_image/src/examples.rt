//! Journals, chains, metadata and trees by hand, and what the definitions make of them.
//!
//! The checksums are those of an implementation of CRC-32 elsewhere.

ghost use Rattle.std.specs.Prelude.{◌≡◌, [], ◌∷◌, ◌++◌, take, true, false, Ok, Err};
ghost use Rattle.std.specs.List.{range_with_len};
ghost use Rattle.spec_tree.specs.Tree.{filled};
ghost use Rattle.spec_record.specs.declared.node_fault.NodeFault.TheVariants as faults;
ghost use Rattle.spec_image.specs.After.{after};
ghost use Rattle.spec_image.specs.Chain.{chain};
ghost use Rattle.spec_image.specs.SampleJournals as sample;
ghost use Rattle.spec_image.specs.SampleNodes as nodes;
ghost use Rattle.spec_image.specs.SampleTrees as trees;
ghost use Rattle.spec_image.specs.Stored.{stored_data, tree_block};
ghost use Rattle.spec_image.specs.Replay.{replay, next_slot, next_number, stale_slots};
ghost use Rattle.spec_image.specs.WellFormed.{is_well_formed};

/// An entry may wrap around the ring. Its payload replaces block 2.
pub fn an_entry_may_wrap()
    ensures entries { replay (sample.journal [] [] []) ≡ sample.entry 7 ∷ [] }
    ensures slot { next_slot (sample.journal [] [] []) sample.info ≡ 2 }
    ensures number { next_number (sample.journal [] [] []) sample.info ≡ 8 }
    ensures stale { stale_slots (sample.journal [] [] []) sample.info ≡ [] }
    ensures after { after sample.geometry sample.image ≡ (1 ∷ []) ∷ (2 ∷ []) ∷ sample.payload ∷ [] }
{}

/// An entry of the next number in the next slot follows.
pub fn the_next_entry_follows()
    ensures entries { replay sample.with_next ≡ sample.entry 7 ∷ sample.entry 8 ∷ [] }
    ensures slot { next_slot sample.with_next sample.info ≡ 5 }
{}

/// A number that is skipped ends the replay. What stands behind is stale: header and commit.
pub fn a_gap_in_the_numbers_ends_the_replay()
    ensures entries { replay sample.with_gap ≡ sample.entry 7 ∷ [] }
    ensures stale { stale_slots sample.with_gap sample.info ≡ 2 ∷ 4 ∷ [] }
{}

/// An entry of which a block is missing is none.
pub fn a_torn_entry_is_none()
    ensures commit { replay sample.without_commit ≡ sample.entry 7 ∷ [] }
    ensures payload { replay sample.without_payload ≡ sample.entry 7 ∷ [] }
    ensures header { replay sample.without_header ≡ sample.entry 7 ∷ [] }
    ensures stale_header { stale_slots sample.without_commit sample.info ≡ 2 ∷ [] }
    ensures stale_commit { stale_slots sample.without_header sample.info ≡ 4 ∷ [] }
{}

/// A chain gives the extents of the inode and its container in order.
pub fn a_chain_gives_its_extents_in_order()
    ensures { chain (nodes.pair (nodes.inode 1) (nodes.container 0 6 1 5)) 16 0
        ≡ Ok nodes.blob }
{}

/// A chain names the first test that fails, also where a later one would fail too.
pub fn a_chain_names_its_first_fault()
    ensures no_inode { chain (nodes.pair (nodes.inode 1) (nodes.container 0 6 1 5)) 16 1
        ≡ Err faults.NotInode }
    ensures link_past_the_nodes { chain (nodes.pair (nodes.inode 2) (nodes.container 0 6 1 5)) 16 0
        ≡ Err (faults.BadLink 0) }
    ensures other_previous_node { chain (nodes.pair (nodes.inode 1) (nodes.container 1 6 1 5)) 16 0
        ≡ Err (faults.BadLink 0) }
    ensures other_version { chain (nodes.pair (nodes.inode 1) (nodes.container 0 6 2 5)) 16 0
        ≡ Err (faults.BadLink 0) }
    ensures not_full { chain (nodes.pair (nodes.inode 1) (nodes.container 0 5 1 5)) 16 0
        ≡ Err (faults.Count 5 6) }
    ensures not_full_first { chain (nodes.pair (nodes.inode 1) (nodes.container 0 5 1 16)) 16 0
        ≡ Err (faults.Count 5 6) }
    ensures extent_past_the_end { chain (nodes.pair (nodes.inode 1) (nodes.container 0 6 1 16)) 16 0
        ≡ Err (faults.Extent 1 0) }
{}

/// Metadata is well formed, and isn't where one of its parts is wrong, all others being right.
pub fn metadata_may_be_well_formed()
    ensures well_formed { is_well_formed nodes.good ≡ true }
    ensures orphan { nodes.parts nodes.orphaned
        ≡ true ∷ true ∷ false ∷ true ∷ true ∷ true ∷ true ∷ [] }
    ensures overlap { nodes.parts nodes.overlapping
        ≡ true ∷ true ∷ true ∷ false ∷ true ∷ true ∷ true ∷ [] }
    ensures root_twice { nodes.parts nodes.twice
        ≡ true ∷ true ∷ true ∷ true ∷ false ∷ true ∷ true ∷ [] }
    ensures bit_past_the_blocks { nodes.parts nodes.marked_past
        ≡ true ∷ true ∷ true ∷ true ∷ true ∷ false ∷ true ∷ [] }
    ensures count { nodes.parts nodes.miscounted
        ≡ true ∷ true ∷ true ∷ true ∷ true ∷ true ∷ false ∷ [] }
{}

/// In version 1 each level fills blocks of its own before the data.
pub fn a_padded_tree_stands_before_the_data()
    ensures first_level { tree_block (trees.blob 1) (trees.numbered 260) 1 0 ≡ 0 ∷ [] }
    ensures next_of_it { tree_block (trees.blob 1) (trees.numbered 260) 1 1 ≡ 1 ∷ [] }
    ensures second_level { tree_block (trees.blob 1) (trees.numbered 260) 2 0 ≡ 2 ∷ [] }
    ensures content { stored_data (trees.blob 1) (trees.numbered 260) ≡ range_with_len 3 257 }
{}

/// In version 2 the digests stand joined behind the data, and zeros fill the last block of a level.
pub fn a_compact_tree_stands_behind_the_data()
    ensures first_level { tree_block (trees.blob 2) trees.compact 1 0 ≡ take 8192 trees.joined }
    ensures next_of_it { tree_block (trees.blob 2) trees.compact 1 1 ≡ filled (trees.digest 256) }
    ensures second_level { tree_block (trees.blob 2) trees.compact 2 0
        ≡ filled (trees.digest 257 ++ trees.digest 258) }
    ensures content { take 257 (stored_data (trees.blob 2) trees.compact) ≡ range_with_len 0 257 }
{}
