//! Laws of the bytes: each thing that is said has one spelling, no spelling begins another, and none is that of two.

ghost use Rattle.cmh_resume3.specs.Hello.{IsAnswer, IsHello, answer_spelling, hello_spelling};
ghost use Rattle.cmh_resume3.specs.SpellingLaws.{OneSpelling};
ghost use Rattle.cmh_resume3.specs.Stream.{IsAcknowledgement, IsItem, acknowledgement_spelling, item_spelling};

/// Of hellos. So what `spell` wrote `decode_hello` reads again, whatever follows it.
pub fn one_hello_law()
    ensures { OneSpelling IsHello hello_spelling }
{}

/// Of answers.
pub fn one_answer_law()
    ensures { OneSpelling IsAnswer answer_spelling }
{}

/// Of what a sender says after the answer.
pub fn one_item_law()
    ensures { OneSpelling IsItem item_spelling }
{}

/// Of acknowledgements.
pub fn one_acknowledgement_law()
    ensures { OneSpelling IsAcknowledgement acknowledgement_spelling }
{}
