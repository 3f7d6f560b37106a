//! The order of a run.

ghost use Rattle.std.specs.Prelude.{◌≡◌};

use cmh_model3::SiteId;
use std::marker::Model;

/// The site of each entry of a run, in the order of the run.
#[derive(Drop)]
pub struct Order {
    sites: Vec<SiteId>,
}

impl Model for Order {
    ghost use Rattle.std.specs.Prelude.{List, ℕ};

    ghost Value = { List ℕ };

    ghost view = { λ o. o.sites.items };
}

impl Order {
    pub(crate) fn new(sites: Vec<SiteId>) -> Self
        ensures { result ≡ sites.items }
    {
        Order { sites }
    }

    pub fn as_slice(&self) -> &[SiteId]
        ensures { result.now ≡ self.now }
    {
        &self.sites
    }
}
