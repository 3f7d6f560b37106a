//! What is left of a station that has ended or was not made.

use crate::answer::{Answer, Unanswered};
use crate::disk::Disk;
use crate::station::read_one;
use crate::stepping::look;
use cmh_console::Words;
use cmh_journal::Journal;
use cmh_station::BoardReader;

/// The journal and the sink, where they came back, and the readers of the board.
#[derive(Drop)]
pub struct Left {
    pub journal: Option<Journal>,
    pub disk: Option<Disk>,
    pub first: Option<BoardReader>,
    pub second: Option<BoardReader>,
}

impl Left {
    /// Of a station that was not made.
    pub fn of_sink(disk: Disk) -> Left {
        Left {
            journal: None,
            disk: Some(disk),
            first: None,
            second: None,
        }
    }

    /// The site, the edition and the number of entries.
    pub fn tell(&self, answer: &mut Answer) -> Result<(), Unanswered> {
        let Some(journal) = &self.journal else {
            return answer.word("no station");
        };
        answer.word("site")?;
        answer.word(journal.site())?;
        answer.word("edition")?;
        answer.word(journal.edition())?;
        answer.word("entries")?;
        answer.word(journal.entries().len())
    }

    /// `read NUMBER`, `close`, or a look at the journal or the sink; no other call has a station.
    pub fn call(&mut self, words: &mut Words<'_>, answer: &mut Answer) -> Result<(), Unanswered> {
        let Some(first) = words.next_word() else {
            return Err(Unanswered::BadLine);
        };
        if first == b"read".as_slice() {
            return read_one(&mut self.first, &mut self.second, words, answer);
        }
        if first == b"close".as_slice() {
            return self.tell(answer);
        }
        let entries = match &self.journal {
            Some(journal) => journal.entries(),
            None => &[],
        };
        let Some(disk) = &self.disk else {
            return answer.word("no station");
        };
        if look(entries, true, disk, first, answer)? {
            Ok(())
        } else {
            answer.word("no station")
        }
    }
}
