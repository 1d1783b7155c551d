//! Laws of reading messages, for the proofs of crates above. The functions do nothing: their contracts are the
//! laws, and the lemmas of the same content are exported.
ghost use Rattle.giop_msg.specs.Laws.{OneCall, EachSays, WrittenIsMessage, WrittenAsks};

/// A message gives one answer.
pub fn one_call()
    ensures { OneCall }
{}

/// Each message says something, as all bytes do: a call, a cancel or a closing, or why it asks nothing.
pub fn each_says()
    ensures { EachSays }
{}

/// A Request that is written is a message.
pub fn written_is_message()
    ensures { WrittenIsMessage }
{}

/// A Request that is written asks the call that it was written for.
pub fn written_asks()
    ensures { WrittenAsks }
{}
