//! Messages that came are counted by the receiver's end.

ghost use Rattle.std.specs.Prelude.{◌≡◌, ◌+◌, ◌<◌, ◌^◌, length, Some};
ghost use Rattle.cmh_node3.specs.Peers.{received, with_messages};

use cmh_model3::Message;
use cmh_resume3::ReceiverEnd;

/// Counts messages that came on the claimed connection, whose entries are written and synced. Where the rules refused the
/// next one, the link is closed for good.
pub(crate) fn receive_all(
    into: &mut ReceiverEnd,
    line: u64,
    messages: &[Message],
    now: u64,
    closes: bool,
)
    requires claimed { into.old.claim ≡ Some line }
    requires countable { 0 < length messages.now → into.old.got + length messages.now < 2 ^ 64 }
    ensures { into.new ≡ received messages.now now closes into.old }
{
    take_all(into, line, messages);
    into.synced();
    into.heard(now);
    if closes {
        into.close();
    }
}

fn take_all(into: &mut ReceiverEnd, line: u64, messages: &[Message])
    requires claimed { into.old.claim ≡ Some line }
    requires countable { 0 < length messages.now → into.old.got + length messages.now < 2 ^ 64 }
    ensures { into.new ≡ with_messages messages.now into.old }
{
    for message in messages {
        let Ok(()) = into.take(line, message) else {
            unreachable!();
        };
    }
}
