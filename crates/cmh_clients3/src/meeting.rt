//! Whether a site has met the other sites since it was started.

use cmh_node3::Node;
use cmh_station3::SegmentFile;
use cmh_talk3::{OutState, out_state};
use std::alloc::{AllocError, Global};

/// What the two links with a site have shown.
#[derive(Clone, Copy)]
struct Met {
    /// The link to it was open: what it got from here are the first of the messages of this journal.
    out: bool,
    /// It went on after it was told what this site has of its messages: none of them is missing here.
    into: bool,
}

/// Which links have answered since the site was started, where its clients' events wait for that.
///
/// A journal that was put back from a backup lacks what the site sent and got since. So it is found by the links with those
/// other sites before an event is taken that they could contradict.
#[derive(Drop)]
pub struct Meeting {
    /// One for each other site, in their order; none once all have answered.
    met: Vec<Met>,
}

impl Meeting {
    /// Nothing is waited for.
    pub fn none(alloc: Global) -> Meeting {
        Meeting {
            met: Vec::new(alloc),
        }
    }

    /// The links with so many other sites are waited for.
    pub fn with(alloc: Global, others: usize) -> Result<Meeting, AllocError> {
        let met = Met {
            out: false,
            into: false,
        };
        Ok(Meeting {
            met: Vec::from_elem(alloc, met, others)?,
        })
    }

    /// Whether all links have answered, or none is waited for.
    pub fn is_over(&self) -> bool {
        self.met.is_empty()
    }

    /// The site at this place said something after it was told what this site has of its messages.
    pub fn is_heard(&mut self, place: usize) {
        if let Some(met) = self.met.get_mut(place) {
            met.into = true;
        }
    }

    /// Looks which links are open now.
    pub fn look<F: SegmentFile>(&mut self, node: &Node<F>) {
        if self.is_over() {
            return;
        }
        for (met, peer) in self.met.iter_mut().zip(node.peers()) {
            if let OutState::Open = out_state(&peer.out) {
                met.out = true;
            }
        }
        if self.met.iter().all(|met| met.out && met.into) {
            self.met.clear();
        }
    }
}
