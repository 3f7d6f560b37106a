//! What a client of a service and the service say to each other.

ghost use Rattle.cmh_client.specs.Conversations.{IsServed, Serves};
ghost use Rattle.cmh_talk.specs.Means.{MeansHere};
ghost use Rattle.cmh_talk.specs.Replies.{AnswersEvent, AnswersQuestion};
ghost use Rattle.cmh_talk.specs.Texts.{declaration_text};

/// Whatever a service does with a client, and whatever memory is refused: each line of the bytes that the client sent is answered
/// once, in its order, but for those that mean nothing. The answer to an event is the outcome of a step that a station took, or
/// its refusal; that to a question tells a state of a station. Who watches is told each declaration of a list that grows once, in
/// its order, those of before first. What was sent to the client and what is to be sent are these texts, each whole, and nothing
/// else.
pub fn service_law()
    ensures { Serves MeansHere AnswersEvent AnswersQuestion declaration_text
        (IsServed MeansHere AnswersEvent AnswersQuestion declaration_text) }
{}
