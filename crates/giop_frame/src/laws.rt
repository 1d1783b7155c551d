//! The laws of the stream of a text, and of a framer.
ghost use Rattle.std.specs.Prelude.{◌++◌, ℕ, List};
ghost use Rattle.giop_frame.specs.Framing.{Framing};
ghost use Rattle.giop_frame.specs.Framer.{GoesOn};
ghost use Rattle.giop_frame.specs.Stream.{Framed, OneStream, Stream, bad_place};
ghost use Rattle.giop_frame.specs.declared.why.Why.{Why};

/// Each text has a stream, and one alone.
pub fn each_text_has_one_stream()
    ensures { (limit : ℕ) (text : List ℕ) → OneStream limit text }
{}

/// A framer at any point gives something for any further text.
pub fn a_framer_goes_on()
    ensures { (f : Framing) (text : List ℕ) → GoesOn f text }
{}

/// A bad place stays, and so do the messages before it, whatever follows the text.
pub fn a_bad_place_stays()
    ensures { (limit : ℕ) (text more : List ℕ) (messages : List Framed) (at : ℕ) (why : Why)
        → Stream limit text messages (bad_place at why) → Stream limit (text ++ more) messages (bad_place at why) }
{}
