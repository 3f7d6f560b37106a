//! Laws of the bytes of messages and of marks.

ghost use Rattle.std.specs.Prelude.{◌≡◌, ℕ, List, ◌++◌};
ghost use Rattle.cmh_model3.specs.declared.frame.Message.{Message};
ghost use Rattle.cmh_wire3.specs.Mark.{ChangedByteShows};
ghost use Rattle.cmh_wire3.specs.Wire.{IsMessage, spelling};

/// A message has one spelling, no spelling begins another, and none is that of two messages.
///
/// So what `encode` wrote `decode_front` reads again, whatever follows it.
pub fn one_spelling_law()
    ensures { (m n : Message) (after_m after_n : List ℕ) → IsMessage m → IsMessage n
        → spelling m ++ after_m ≡ spelling n ++ after_n → (m ≡ n) × (after_m ≡ after_n) }
{}

/// One byte that is changed is always seen: each step of a mark is one-to-one, in the mark and in the byte.
pub fn mark_law()
    ensures { ChangedByteShows }
{}
