//! What the lines say that running sites are given.

ghost use Rattle.std.specs.Prelude.{◌≡◌, ◌≢◌, ◌∷◌, [], List, ℕ, codes, IfOk, MatchOption};
ghost use Rattle.cmh_console.specs.Words.{words_of};
ghost use Rattle.cmh_setting.specs.SiteScript.{NamesSite, SaysToCluster, SaysToSite, order_name};
ghost use Rattle.cmh_setting.specs.declared.site_script.Order as orders;

use cmh_console::{Line, Words, number, parse};
use std::alloc::{AllocError, Global};

/// What a line of one word wants of a running site.
#[derive(Clone, Copy)]
pub enum Order {
    /// The processes that it declared.
    Declared,
    /// Its outgoing links.
    Connect,
    /// The states of its links.
    Links,
    /// Its end.
    Quit,
}

/// A line for one running site.
#[derive(Drop)]
pub enum SiteLine {
    Order(Order),
    /// What it says in every script. All but silence and events is a bad line here.
    Event(Line),
}

/// A line for all sites of a running topology.
#[derive(Drop)]
pub enum ClusterLine {
    /// The processes that the site with this number declared.
    Declared(u16),
    /// What it says in every script. All but silence and events is a bad line here.
    Event(Line),
}

/// What a line says to one site.
pub fn parse_for_site(alloc: Global, line: &[u8]) -> Result<SiteLine, AllocError>
    ensures { IfOk result (SaysToSite line.now) }
{
    match order_of(line) {
        Some(order) => Ok(SiteLine::Order(order)),
        None => Ok(SiteLine::Event(parse(alloc, line)?)),
    }
}

/// What a line says to all sites.
pub fn parse_for_cluster(alloc: Global, line: &[u8]) -> Result<ClusterLine, AllocError>
    ensures { IfOk result (SaysToCluster line.now) }
{
    match site_named(line) {
        Some(site) => Ok(ClusterLine::Declared(site)),
        None => Ok(ClusterLine::Event(parse(alloc, line)?)),
    }
}

/// The order of this one word.
fn order_of(line: &[u8]) -> Option<Order>
    ensures { MatchOption result ((order : orders.Order) → words_of line.now ≢ order_name order ∷ [])
        (λ order. words_of line.now ≡ order_name order ∷ []) }
{
    let mut words = Words::new(line);
    let word = words.next_word()?;
    if words.next_word().is_some() {
        return None;
    }
    order_named(word)
}

fn order_named(word: &[u8]) -> Option<Order>
    ensures { MatchOption result ((order : orders.Order) → word.now ≢ order_name order) (λ order. word.now ≡ order_name order) }
{
    if word == b"declared".as_slice() {
        return Some(Order::Declared);
    }
    if word == b"connect".as_slice() {
        return Some(Order::Connect);
    }
    if word == b"links".as_slice() {
        return Some(Order::Links);
    }
    if word == b"quit".as_slice() {
        return Some(Order::Quit);
    }
    None
}

/// The number of the site whose declarations a line asks for.
fn site_named(line: &[u8]) -> Option<u16>
    ensures { MatchOption result ((site : ℕ) → NamesSite (words_of line.now) site → ⊥)
        (NamesSite (words_of line.now)) }
{
    let word = word_behind_declared(line)?;
    number(word)
}

fn word_behind_declared(line: &[u8]) -> Option<&[u8]>
    ensures { MatchOption result ((word : List ℕ) → words_of line.now ≢ codes "declared" ∷ word ∷ [])
        (λ word. words_of line.now ≡ codes "declared" ∷ word.now ∷ []) }
{
    let mut words = Words::new(line);
    let name = words.next_word()?;
    let word = words.next_word()?;
    if words.next_word().is_some() {
        return None;
    }
    if name == b"declared".as_slice() {
        Some(word)
    } else {
        None
    }
}
