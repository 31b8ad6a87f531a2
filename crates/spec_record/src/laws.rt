//! The laws of the records: each function's contract is a law over the definitions.

ghost use Rattle.spec_record.specs.Laws.{
  SuperIsRead,
  SuperIsBlock,
  SuperIsOne,
  InfoIsRead,
  InfoIsBlock,
  InfoIsOne,
  NodeIsRead,
  NodeIsPlace,
  NodeIsOne,
  ExtentIsRead,
  EntryIsRead,
  EntryTakesSlots,
  EntryIsOne,
  CrcHasCheckValue,
};
ghost use Rattle.spec_record.specs.PartLaws.{
  MagicsAreBytes,
  FaultNamesFirstSet,
  StoredHidesMagic,
  PayloadComesBack,
  GeometryFitsEntries,
  RegionsFollow,
  RingIsCyclic,
  RingIsWhole,
};

/// A superblock has one spelling, and no other block is read as it.
pub fn superblocks_are_read_from_their_spelling_alone()
    ensures read { SuperIsRead }
    ensures block { SuperIsBlock }
    ensures one { SuperIsOne }
{}

/// An info block has one spelling, and no other block is read as it.
pub fn infos_are_read_from_their_spelling_alone()
    ensures read { InfoIsRead }
    ensures block { InfoIsBlock }
    ensures one { InfoIsOne }
{}

/// A node has one spelling, and no other 64 bytes are read as it.
pub fn nodes_are_read_from_their_spelling_alone()
    ensures read { NodeIsRead }
    ensures place { NodeIsPlace }
    ensures one { NodeIsOne }
{}

/// An extent has one spelling, and no other eight bytes are read as it.
pub fn extents_are_read_from_their_spelling_alone()
    ensures { ExtentIsRead }
{}

/// An entry has one spelling, and is read from no blocks that begin otherwise.
pub fn entries_are_read_from_their_spelling_alone()
    ensures read { EntryIsRead }
    ensures slots { EntryTakesSlots }
    ensures one { EntryIsOne }
{}

/// CRC-32 gives its published check value.
pub fn crc32_has_the_check_value()
    ensures { CrcHasCheckValue }
{}

/// The magics are stored as the bytes that the tables name.
pub fn magics_are_stored_as_their_bytes()
    ensures { MagicsAreBytes }
{}

/// The fault of a byte that should be zero names the first such byte of its field.
pub fn faults_name_the_first_byte_that_is_set()
    ensures { FaultNamesFirstSet }
{}

/// A payload is stored without the magic, and comes back whole.
pub fn payloads_are_hidden_and_come_back()
    ensures hidden { StoredHidesMagic }
    ensures back { PayloadComesBack }
{}

/// The regions follow one another, and an entry of all metadata blocks fits in the ring.
pub fn regions_follow_one_another()
    ensures order { RegionsFollow }
    ensures entries { GeometryFitsEntries }
{}

/// The slots of the ring follow one another around it.
pub fn slots_follow_one_another()
    ensures cyclic { RingIsCyclic }
    ensures whole { RingIsWhole }
{}
