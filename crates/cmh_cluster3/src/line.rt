//! What the lines of a cluster's script say.

ghost use Rattle.std.specs.Prelude.{◌≡◌, ◌≢◌, ℕ, IfOk, MatchOption};
ghost use Rattle.cmh_console.specs.Words.{words_of};
ghost use Rattle.cmh_cluster3.specs.Lines as spec;
ghost use Rattle.cmh_cluster3.specs.Lines.{NamesLink, Orders, OrdersNothing, SaysToCluster, WasSaid, as_line, link_word, site_word};
ghost use Rattle.cmh_cluster3.specs.declared.line.LinkOrder as links;
ghost use Rattle.cmh_cluster3.specs.declared.line.SiteOrder as sites;
ghost use Rattle.cmh_talk3.specs.Said.{NamesNumber};

use cmh_console::{NextLine, Words};
use cmh_model3::{ProcId, SiteId};
use cmh_talk3::{Deed, Question, Said};
use std::alloc::{AllocError, Global};

/// A line of a cluster's script.
#[derive(Drop)]
pub enum ClusterLine {
    /// Nothing: it is empty or a comment.
    Silent,
    /// It fits no form.
    Bad,
    /// An event for the site of its process.
    Deed(Deed),
    /// A question for the site of this process, about it.
    OfProcess(ProcId, Question),
    /// Something to be done with a site, or to be told of it.
    OfSite(SiteOrder, SiteId),
    /// Something to be done with the link from one site to another.
    OfLink(LinkOrder, SiteId, SiteId),
}

/// What a line has done with a site, or asks of it.
#[derive(Clone, Copy)]
pub enum SiteOrder {
    /// The site stops at once, wherever it is.
    Kill,
    /// It is started again on its folder.
    Restart,
    /// The processes that are declared now.
    Declared,
    /// The states of its links.
    Links,
    /// Its figures.
    Status,
}

/// What a line has done with a link.
#[derive(Clone, Copy)]
pub enum LinkOrder {
    /// Its connection ends, and none can be made.
    Cut,
    /// A connection can be made again.
    Join,
}

/// What a line says; one that is too long is a bad one.
pub(crate) fn said_by(alloc: Global, next: NextLine<'_>) -> Result<ClusterLine, AllocError>
    ensures { IfOk result (WasSaid (spec.line_of next.entry)) }
{
    match next {
        NextLine::Line(line) => parse(alloc, line),
        NextLine::TooLong | NextLine::End => Ok(ClusterLine::Bad),
    }
}

/// What a line says: what is done with a site or a link, or what it says to a running site of events and of processes.
pub fn parse(alloc: Global, line: &[u8]) -> Result<ClusterLine, AllocError>
    ensures { IfOk result (SaysToCluster line.now) }
{
    if let Some(ordered) = ordered_by(line) {
        return Ok(ordered);
    }
    Ok(line_of(cmh_talk3::parse(alloc, line)?))
}

/// What a line says in a cluster that says this to a running site.
fn line_of(said: Said) -> ClusterLine
    ensures { result ≡ as_line said }
{
    match said {
        Said::Silent => ClusterLine::Silent,
        Said::Deed(deed) => ClusterLine::Deed(deed),
        Said::Question(question) => asked(question),
        Said::Quit => ClusterLine::Bad,
    }
}

fn asked(question: Question) -> ClusterLine
    ensures { result ≡ spec.asked question }
{
    match question {
        Question::Waits(process) | Question::Owed(process) | Question::Leaving(process) => {
            ClusterLine::OfProcess(process, question)
        }
        _ => ClusterLine::Bad,
    }
}

/// What a line says that names sites.
#[tactic(auto, using(crate::proofs::Ordering::orders_nothing))]
fn ordered_by(line: &[u8]) -> Option<ClusterLine>
    ensures { MatchOption result (OrdersNothing (words_of line.now)) (Orders (words_of line.now)) }
{
    if let Some((order, site)) = site_order_in(line) {
        return Some(ClusterLine::OfSite(order, site));
    }
    let (order, from, to) = link_order_in(line)?;
    Some(ClusterLine::OfLink(order, from, to))
}

/// The word for a site, and the site.
fn site_order_in(line: &[u8]) -> Option<(SiteOrder, SiteId)>
    ensures { MatchOption result ((order : sites.SiteOrder) (site : ℕ) → NamesNumber (site_word order) (words_of line.now) site → ⊥)
        (λ named. NamesNumber (site_word named.0) (words_of line.now) named.1) }
{
    let mut words = Words::new(line);
    let name = words.next_word()?;
    let order = site_order_named(name)?;
    let site = words.site()?;
    words.end()?;
    Some((order, site))
}

fn site_order_named(name: &[u8]) -> Option<SiteOrder>
    ensures { MatchOption result ((order : sites.SiteOrder) → name.now ≢ site_word order)
        (λ order. name.now ≡ site_word order) }
{
    match name {
        b"kill" => Some(SiteOrder::Kill),
        b"restart" => Some(SiteOrder::Restart),
        b"declared" => Some(SiteOrder::Declared),
        b"links" => Some(SiteOrder::Links),
        b"status" => Some(SiteOrder::Status),
        _ => None,
    }
}

/// The word for a link, and its two sites.
fn link_order_in(line: &[u8]) -> Option<(LinkOrder, SiteId, SiteId)>
    ensures { MatchOption result ((order : links.LinkOrder) (from to : ℕ)
        → NamesLink (link_word order) (words_of line.now) from to → ⊥)
        (λ named. NamesLink (link_word named.0) (words_of line.now) named.1 named.2) }
{
    let mut words = Words::new(line);
    let name = words.next_word()?;
    let order = link_order_named(name)?;
    let from = words.site()?;
    let to = words.site()?;
    words.end()?;
    Some((order, from, to))
}

fn link_order_named(name: &[u8]) -> Option<LinkOrder>
    ensures { MatchOption result ((order : links.LinkOrder) → name.now ≢ link_word order)
        (λ order. name.now ≡ link_word order) }
{
    match name {
        b"cut" => Some(LinkOrder::Cut),
        b"join" => Some(LinkOrder::Join),
        _ => None,
    }
}
