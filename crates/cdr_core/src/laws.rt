//! Laws of the CDR spelling, which hold of every message. The functions do nothing: their contracts are the
//! laws, and the lemmas of the same content are exported for the proofs of crates above.
ghost use Rattle.cdr_core.specs.Laws.{OneReading, NoneWhereRefused, OneRefusal, OneSkip, NoSkipWhereLacking, WrittenSpells, WrittenReadsBack, StandsBehind, LiesInMessage, SliceOfSlice, WrittenBehind};

/// A place has at most one field of a kind, and one end of it.
pub fn one_reading()
    ensures { OneReading }
{}

/// Where a kind is refused no field of it stands: each fault comes exactly where its cause does.
pub fn none_where_refused()
    ensures { NoneWhereRefused }
{}

/// A place refuses a kind with one fault.
pub fn one_refusal()
    ensures { OneRefusal }
{}

/// A skip to a multiple of a unit has one end.
pub fn one_skip()
    ensures { OneSkip }
{}

/// Where the padding up to a multiple of a unit isn't whole, none is passed.
pub fn no_skip_where_lacking()
    ensures { NoSkipWhereLacking }
{}

/// What is written of a field spells it.
pub fn written_spells()
    ensures { WrittenSpells }
{}

/// What is written of a field is read back as that field, whatever follows.
pub fn written_reads_back()
    ensures { WrittenReadsBack }
{}

/// What is written behind other bytes is what is written behind none.
pub fn written_behind()
    ensures { WrittenBehind }
{}

/// A view of a message stands in it behind each field that it reads.
pub fn stands_behind()
    ensures { StandsBehind }
{}

/// A part that lies at a place of a view that stands in a message is the slice of the message at that place.
pub fn lies_in_message()
    ensures { LiesInMessage }
{}

/// A slice of a slice of a message is a slice of the message, at the sum of the places.
pub fn slice_of_slice()
    ensures { SliceOfSlice }
{}
