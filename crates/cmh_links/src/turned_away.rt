//! Who is turned away.

ghost use Rattle.cmh_links.specs.TurnedAway.{StrangersAreTurnedAway, is_turned_away};
ghost use Rattle.std.specs.Prelude.{◌≡◌};

/// How many connections of a site stand at once. One more is closed as soon as it is accepted.
const MOST_CONNECTIONS: usize = 256;

/// Whether the next connection is closed at once, where so many stand.
pub(crate) fn turns_away(standing: usize) -> bool
    ensures { result ≡ is_turned_away standing }
{
    standing >= MOST_CONNECTIONS
}

/// A connection of a site that isn't expected, as one that the topology doesn't have or the site itself, gets no link,
/// whatever follows its hello.
pub fn stranger_law()
    ensures { StrangersAreTurnedAway }
{}
