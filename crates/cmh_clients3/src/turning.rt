//! A site of clients begins its next epoch.

use crate::stepping::Site;
use cmh_disk3::JournalFolder;
use cmh_node3::NotTurned;
use cmh_wire3::Epoch;

/// With how many entries a segment ends: as many as one may have, but for those that may come together.
const MOST_ENTRIES: usize = 1_000_000 - 64;

/// With how many bytes it ends, where it has more than a few entries: its base may have as many by itself.
const MOST_BYTES: u64 = 1 << 28;

const FEW_ENTRIES: usize = 1_000;

impl<D: JournalFolder> Site<D> {
    /// Begins the next epoch. A failure leaves the site in its own.
    pub fn turn(&mut self) -> Result<Epoch, NotTurned> {
        let Some(number) = self.node.epoch().get().checked_add(1) else {
            return Err(NotTurned::Passed);
        };
        let epoch = Epoch::new(number);
        self.turn_to(epoch)?;
        Ok(epoch)
    }

    /// Begins a later epoch, of which it has heard. Where it can't, the connection on which it has heard of it is closed.
    pub fn follow(&mut self, epoch: Option<Epoch>) {
        if let Some(epoch) = epoch {
            let _ = self.turn_to(epoch);
        }
    }

    /// Begins the next epoch where the segment is full. Where it can't, events are refused as soon as no more fits.
    pub fn make_room(&mut self) {
        if self.is_full() {
            let _ = self.turn();
        }
    }

    fn is_full(&self) -> bool {
        let station = self.node.station();
        let entries = station.kept().count();
        entries >= MOST_ENTRIES || (entries >= FEW_ENTRIES && station.log().end() >= MOST_BYTES)
    }

    fn turn_to(&mut self, epoch: Epoch) -> Result<(), NotTurned> {
        self.node.turn(&mut self.folder, epoch)?;
        self.reader = self.folder.reader(self.alloc).ok();
        Ok(())
    }
}

/// The number of a refusal, for the reason for which a site did not begin the next epoch.
pub(crate) fn number_of(why: NotTurned) -> u8 {
    match why {
        NotTurned::Sealed => 9,
        NotTurned::Disk | NotTurned::Unsure | NotTurned::BadState => 10,
        NotTurned::Memory => 11,
        NotTurned::TooLong => 13,
        NotTurned::Passed => 17,
    }
}
