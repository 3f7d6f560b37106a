//! What a client and a service said to each other.

ghost use Rattle.std.specs.Prelude.{◌≡◌, ℕ, ◌<◌, List, [], ◌∷◌, ◌++◌, map, take, Some};
ghost use Rattle.std.specs.Io.BufRead.{take_through};
ghost use Rattle.cmh_client.specs.Clients.{State, announces, answers, carries, closes, fresh, hears, heeded, leaves, skips, takes, tells, untold, watches};
ghost use Rattle.cmh_client.specs.Conversations.{IsServed, Serves};
ghost use Rattle.cmh_client.specs.Lines.{HasFeed};
ghost use Rattle.cmh_client.specs.Talks.{HasHad, Talk, answer, news, news_of, silence};

use crate::language::Language;
use crate::telling::Telling;

/// Whatever is called, and whatever memory is refused: each line of the bytes that a client sent is answered once, in its order,
/// but for those that are passed over. What was sent to it and what is to be sent are these answers and news, each whole, and nothing else.
pub fn talk_law<T>()
    // It begins with silence.
    ensures fresh { HasHad fresh silence }
    // What it sends is heard after what it sent before.
    ensures heard { (client : State) (talk : Talk) (bytes : List ℕ) → HasHad client talk
        → HasHad (hears client bytes) (record talk { heard = talk.heard ++ bytes }) }
    // A line that is taken waits behind those that were taken before.
    ensures took { (client : State) (talk : Talk) → HasHad client talk → HasFeed client.unread
        → HasHad (takes client) (record talk { waiting = talk.waiting ++ take_through 10 client.unread ∷ [] }) }
    ensures skipped { (client : State) (talk : Talk) → HasHad client talk → HasFeed client.unread
        → HasHad (skips client) (record talk { passed = talk.passed ++ take_through 10 client.unread ∷ [] }) }
    // An answer is for the first line that waits.
    ensures answered { (client : State) (talk : Talk) (text : List ℕ) → HasHad client talk → 0 < client.waiting
        → (line : List ℕ) × (others : List (List ℕ)) × (talk.waiting ≡ line ∷ others)
        × HasHad (answers client text) (record talk { turns = talk.turns ++ answer line text ∷ []; waiting = others }) }
    // News comes after what was said before.
    ensures told { (client : State) (talk : Talk) (line : T → List ℕ) (items : List T) → HasHad client talk
        → HasHad (tells line client items)
        (record talk { turns = talk.turns ++ map (λ item. news (line item)) (untold client.told items) }) }
    ensures announced { (client : State) (talk : Talk) (line : T → List ℕ) (items : List T) → HasHad client talk
        → HasHad (announces line client items)
        (record talk { turns = talk.turns ++ map (λ item. news (line item)) (heeded client.told items) }) }
    ensures sent { (client : State) (talk : Talk) (count : ℕ) → HasHad client talk
        → HasHad (carries client count) (record talk { said = talk.said ++ take count client.to_say }) }
    // Nothing else changes what was said.
    ensures watches { (client : State) (talk : Talk) → HasHad client talk → HasHad (watches client) talk }
    ensures left { (client : State) (talk : Talk) → HasHad client talk → HasHad (leaves client) talk }
    ensures closed { (client : State) (talk : Talk) → HasHad client talk → HasHad (closes client) talk }
{}

/// One who watches is told each item of a list that grows once, in its order, those of before first.
pub fn news_law<T>()
    ensures { (client : State) (talk : Talk) (line : T → List ℕ) (before more : List T) (told : ℕ) → HasHad client talk
        → client.told ≡ Some told → news_of talk.turns ≡ map line before
        → news_of (talk.turns ++ map (λ item. news (line item)) (untold client.told (before ++ more)))
        ≡ map line (before ++ more) }
{}

/// The same of lines that mean something: an answer is one to what its line means. One who watches is told the list.
pub fn conversation_law<E, Q, T, L: Language<E, Q> + Telling<T>>()
    ensures { Serves L.Means L.Answers L.Replies L.line (IsServed L.Means L.Answers L.Replies L.line) }
{}
