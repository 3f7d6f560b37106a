//! What the bases of all sites say of the links between them.

ghost use Rattle.std.specs.Prelude.{◌≡◌, ◌↔◌, Contains, IsTrue, MatchOption};
ghost use Rattle.std.specs.List.{All};
ghost use Rattle.cmh_history3.specs.Between as spec;
ghost use Rattle.cmh_history3.specs.Between.{Agrees, AreAgreed, IsDisagreement};

use cmh_model3::{Message, SiteId};
use cmh_segment3::{LinkState, Segment};

/// The link from one site to another.
#[derive(Clone, Copy, Debug, PartialEq, Eq)]
pub struct Link {
    pub from: SiteId,
    pub to: SiteId,
}

/// The first link between these sites, in their order, on which the bases do not agree.
pub fn disagreement(sites: &[SiteId], segments: &[Segment]) -> Option<Link>
    ensures { MatchOption result (AreAgreed sites.now segments.now) (IsDisagreement sites.now segments.now) }
{
    for from in sites {
        if let Some(to) = disagreement_from(sites, segments, *from) {
            return Some(Link { from: *from, to });
        }
    }
    None
}

/// The first of these sites for which the bases do not agree on the link to it.
fn disagreement_from(sites: &[SiteId], segments: &[Segment], from: SiteId) -> Option<SiteId>
    ensures { MatchOption result (All (Agrees segments.now from) sites.now)
        (λ to. Contains sites.now to × ¬ Agrees segments.now from to) }
{
    for to in sites {
        if !agrees(segments, from, *to) {
            return Some(*to);
        }
    }
    None
}

/// Whether the bases of two sites agree on the link from one to the other.
fn agrees(segments: &[Segment], from: SiteId, to: SiteId) -> bool
    ensures { IsTrue result ↔ Agrees segments.now from to }
{
    let sent = links_of(segments, from);
    let acked = acked_to(sent, to);
    let got = got_from(links_of(segments, to), from);
    acked <= got && got - acked <= kept_for(sent, to).len() as u64
}

/// What is under way from one site to another, the oldest first.
pub fn under_way(segments: &[Segment], from: SiteId, to: SiteId) -> &[Message]
    ensures { result.now ≡ spec.under_way segments.now from to }
{
    let sent = links_of(segments, from);
    let kept = kept_for(sent, to);
    let got = got_from(links_of(segments, to), from);
    let came = u64::min(got.saturating_sub(acked_to(sent, to)), kept.len() as u64);
    kept.split_at(came as usize).1
}

/// The links of a site's base; none where it has no segment.
fn links_of(segments: &[Segment], site: SiteId) -> &[LinkState]
    ensures { result.now ≡ spec.links_of segments.now site }
{
    for segment in segments {
        if segment.header.site == site {
            return segment.base.links.as_slice();
        }
    }
    &[]
}

/// Of how many messages to a site it is known that they came.
fn acked_to(links: &[LinkState], site: SiteId) -> u64
    ensures { result ≡ spec.acked_to links.now site }
{
    for link in links {
        if link.site == site {
            return link.out.acked;
        }
    }
    0
}

/// Those that were sent after them.
fn kept_for(links: &[LinkState], site: SiteId) -> &[Message]
    ensures { result.now ≡ spec.kept_for links.now site }
{
    for link in links {
        if link.site == site {
            return link.out.kept.as_slice();
        }
    }
    &[]
}

/// How many messages came from a site.
fn got_from(links: &[LinkState], site: SiteId) -> u64
    ensures { result ≡ spec.got_from links.now site }
{
    for link in links {
        if link.site == site {
            return link.into.got;
        }
    }
    0
}
