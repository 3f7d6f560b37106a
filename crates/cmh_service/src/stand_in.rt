//! A thread that stands in for one that waits for the disk, so that questions are answered meanwhile.

use crate::rounds::Rounds;
use crate::server::ServerStates;
use crossbeam_utils::sync::Parker;
use std::sync::{Arc, Wait};
use std::thread;
use std::time::{Clock, Duration};

/// A round that takes so long waits for a slow disk.
const LONG_MILLISECONDS: u64 = 3;

/// The thread that stands in for those that serve clients.
#[derive(Drop)]
pub(crate) struct StandIn<R: Wait + Drop> {
    rt: R,
    /// Woken at the begin of a round.
    parker: Parker,
    states: ServerStates,
    rounds: Arc<Rounds<R>>,
}

impl<R: Wait + Clock + Copy + Drop> StandIn<R> {
    pub fn new(rt: R, parker: Parker, states: ServerStates, rounds: Arc<Rounds<R>>) -> StandIn<R> {
        StandIn {
            rt,
            parker,
            states,
            rounds,
        }
    }

    /// Looks at rounds as long as the service runs. While there are none it sleeps.
    pub fn watch_all(&self) {
        let rt = self.rt;
        for _ in rt.forever() {
            self.parker.park(&rt);
            self.watch();
        }
    }

    /// Looks at rounds until none began for a while, and stands in where one takes long.
    fn watch(&self) {
        let rt = self.rt;
        self.rounds.set_watching(true);
        let mut seen = self.rounds.turns();
        for _ in rt.forever() {
            thread::sleep(&rt, Duration::from_millis(LONG_MILLISECONDS));
            self.rounds.catch_up(&rt);
            let turns = self.rounds.turns();
            if turns == seen {
                if turns % 2 == 1 {
                    self.stand_in(turns);
                } else if self.stops_watching(turns) {
                    return;
                }
            }
            seen = self.rounds.turns();
        }
    }

    /// No round is under way. Who begins one wakes this thread, unless one began just now.
    fn stops_watching(&self, turns: u64) -> bool {
        self.rounds.set_watching(false);
        if self.rounds.turns() == turns {
            return true;
        }
        self.rounds.set_watching(true);
        false
    }

    /// Serves the clients of the thread whose round is under way until that ends.
    fn stand_in(&self, turns: u64) {
        let number = self.rounds.stepping();
        self.rounds.set_serving(true);
        for _ in self.rt.forever() {
            if !self.serve(number, turns) {
                break;
            }
        }
        self.rounds.set_serving(false);
    }

    /// Serves the clients of a thread for a moment, if its round is under way. Answers whether that may go on.
    fn serve(&self, number: usize, turns: u64) -> bool {
        let rt = self.rt;
        let (Some(state), Some(mailbox)) = (
            self.states.get(number),
            self.rounds.mailboxes.get(number),
        ) else {
            return false;
        };
        let mut state = state.lock(&rt);
        self.rounds.turns() == turns && state.stand_in(&rt, &self.rounds, mailbox)
    }
}
