//! The connection that a site dials.

ghost use Rattle.std.specs.Prelude.{◌≡◌, ◌≤◌, ◌<◌, ◌⊎◌, length, false, true, IfSome, OnErr, OnOk};
ghost use Rattle.cmh_node3.specs.declared.happening.Action.TheVariants.{Dial};
ghost use Rattle.cmh_node3.specs.declared.happening.Happening.TheVariants.{Passed};
ghost use Rattle.cmh_resume3.specs.Hello.{IsReplyFront};
ghost use Rattle.cmh_resume3.specs.Stream.{item_spelling};
ghost use Rattle.cmh_resume3.specs.declared.item.Item.TheVariants as ItemType;
ghost use Rattle.cmh_node3.specs.Nodes.{AtPlace, epoch_of};
ghost use Rattle.cmh_links3.specs.Ahead.{IsAheadOf, IsHeardBack};
ghost use Rattle.cmh_links3.specs.Connections.{undialled};
ghost use Rattle.cmh_links3.specs.Growing.{Grows};
ghost use Rattle.cmh_links3.specs.Speaking.{HearsAnswer, HearsStranger, SaidIfRoom, Dials, Does, Ends, GoesOnSo, HearsAcknowledgement, HearsNext, HearsReply, IsNotDue, IsPlacedSo, Listens, Passes, SaysSo, Tells, Turns, WritesSo, carries, closed, hears, hello_to};

use crate::ahead::{epoch_of_acknowledgement, epoch_of_answer, is_of_peer, later_than};
use crate::onward::Onward;
use crate::unread::Unread;
use cmh_node3::{Action, Happening, Node};
use cmh_resume3::{
    Acknowledgement, AcknowledgementFront, Answer, Hello, Refusal, ReplyFront,
    decode_acknowledgement, decode_reply, spell_mismatch, spell_note,
};
use cmh_station3::SegmentFile;
use cmh_wire3::{Epoch, encode};
use std::alloc::{AllocError, Global};
use std::marker::Model;

/// As long as fewer bytes wait to be written, messages are queued.
const FEW_QUEUED: usize = 4_096;

/// How many bytes a refusal in an answer's place has.
const REFUSAL_LEN: usize = 5;

/// The connection that a site dials to the peer at a place, for the link from here to there.
#[derive(Drop)]
pub struct Outgoing {
    alloc: Global,
    place: usize,
    is_dialled: bool,
    is_answered: bool,
    unread: Unread,
    queue: Vec<u8>,
    is_closed: bool,
}

impl Model for Outgoing {
    ghost use Rattle.cmh_links3.specs.Connections as spec;

    ghost Value = { spec.Outgoing };

    ghost view = { λ c. record {
      place = c.place;
      is_dialled = c.is_dialled;
      is_answered = c.is_answered;
      unread = c.unread;
      to_write = c.queue.items;
      is_closed = c.is_closed;
    } };
}

/// What came of taking what is next in what was heard.
#[derive(Clone, Copy, PartialEq, Eq)]
pub(crate) enum Next {
    /// It was taken.
    Taken,
    /// Nothing whole is left.
    Nothing,
    /// The connection is closed.
    Close,
}

impl Outgoing {
    /// One that is not dialled.
    pub fn new(alloc: Global, place: usize) -> Outgoing
        ensures { result ≡ undialled place }
    {
        Outgoing {
            alloc,
            place,
            is_dialled: false,
            is_answered: false,
            unread: Unread::new(alloc),
            queue: Vec::new(alloc),
            is_closed: false,
        }
    }

    pub fn place(&self) -> usize
        ensures { result ≡ self.now.place }
    {
        self.place
    }

    /// Whether it is to be dialled now: it is not, and the pause is over. The site is told that time passed, where it is not
    /// dialled.
    #[tactic(auto, using(crate::proofs::Growing::grows_same, crate::proofs::Growing::grows_stays))]
    pub fn is_due<F: SegmentFile>(&mut self, node: &mut Node<F>, now: u64) -> bool
        ensures due { result ≡ true → (self.old.is_dialled ≡ false) × Does self.old.place Passed now node.old Dial node.new }
        ensures not { result ≡ false → (node.new ≡ node.old) ⊎ IsNotDue now self.old node.old node.new }
        ensures same { self.new ≡ self.old }
        ensures exact { Grows F.told F.has_failed node.old node.new }
    {
        if self.is_dialled || self.place >= node.peers().len() {
            return false;
        }
        match node.happen(self.place, &Happening::Passed, now) {
            Action::Dial => true,
            _ => false,
        }
    }

    /// It is dialled: the connect was begun. The hello is queued. It may be dialled before the pause is over. Close where it
    /// is dialled already, where the site must not dial, or where memory was refused: then nothing was dialled.
    #[tactic(auto, using(crate::proofs::Growing::grows_same, crate::proofs::Growing::grows_stays))]
    pub fn dial<F: SegmentFile>(&mut self, node: &mut Node<F>, now: u64) -> Onward
        ensures dials { Dials now self.old node.old result self.new node.new }
        ensures exact { Grows F.told F.has_failed node.old node.new }
    {
        if self.is_dialled || self.place >= node.peers().len() {
            return Onward::Close;
        }
        let hello = hello_at(node, self.place);
        let mut spelled = Vec::new(self.alloc);
        if hello.put(&mut spelled).is_err() {
            return Onward::Close;
        }
        match node.happen(self.place, &Happening::Dialled, now) {
            Action::Greet => {}
            _ => return Onward::Close,
        }
        self.queue = spelled;
        self.is_dialled = true;
        Onward::Open
    }

    pub fn is_dialled(&self) -> bool
        ensures { result ≡ self.now.is_dialled }
    {
        self.is_dialled
    }

    /// The later epoch to which the site turns before it goes on, since what is next in what was heard is of that one. Where it
    /// does not turn, the connection is closed.
    pub fn ahead<F: SegmentFile>(&self, node: &Node<F>) -> Option<Epoch>
        ensures { IfSome result (λ later. IsAheadOf (epoch_of node.now) later
            × IsHeardBack self.now.is_answered self.now.unread later) }
    {
        if self.place >= node.peers().len() {
            return None;
        }
        let heard = if self.is_answered {
            epoch_of_acknowledgement(self.unread.as_slice())
        } else {
            epoch_of_answer(node, self.place, self.unread.as_slice())
        };
        later_than(node.epoch(), heard?)
    }

    /// The site has begun an epoch: a note says so, where the receiver has answered. Where memory is refused none is queued, and
    /// the next one says it.
    pub fn tell_epoch<F: SegmentFile>(&mut self, node: &Node<F>)
        ensures answered { self.old.is_answered ≡ true → SaidIfRoom (item_spelling (ItemType.Note (epoch_of node.now))) self.old self.new }
        ensures other { self.old.is_answered ≡ false → self.new ≡ self.old }
    {
        if self.is_answered {
            let _ = self.say(&spell_note(node.epoch()));
        }
    }

    /// Takes bytes that the receiver wrote. Where memory is refused the connection is closed.
    pub fn hear(&mut self, bytes: &[u8]) -> Result<(), AllocError>
        ensures heard { OnOk result (self.new ≡ hears bytes.now self.old) }
        ensures closed { OnErr result (self.new ≡ closed self.old) }
    {
        match self.unread.hear(bytes) {
            Ok(()) => Ok(()),
            Err(AllocError) => {
                self.is_closed = true;
                Err(AllocError)
            }
        }
    }

    /// Takes all that was heard whole: the answer or a refusal first, then acknowledgements. Then time passes: a note is
    /// queued where it is due. Then the next messages, as long as fewer than 4,096 bytes wait to be written. Close where it is
    /// not dialled. Where memory is refused for a message, it counts as written on this connection, which is closed: the next
    /// one begins with it.
    #[tactic(auto, using(crate::proofs::Growing::grows_same))]
    pub fn go_on<F: SegmentFile>(&mut self, node: &mut Node<F>, now: u64) -> Onward
        ensures goes { GoesOnSo now self.old node.old result self.new node.new }
        ensures exact { Grows F.told F.has_failed node.old node.new }
    {
        if self.is_closed || !self.is_dialled || self.place >= node.peers().len() {
            return Onward::Close;
        }
        let onward = self.turn(node, now);
        match onward {
            Onward::Open => {}
            Onward::Close => self.is_closed = true,
        }
        onward
    }

    #[tactic(auto, using(crate::proofs::Growing::grows_then))]
    fn turn<F: SegmentFile>(&mut self, node: &mut Node<F>, now: u64) -> Onward
        requires { self.old.place < length node.old.peers }
        ensures turns { Turns now self.old node.old result self.new node.new }
        ensures exact { Grows F.told F.has_failed node.old node.new }
    {
        match self.listen(node, now) {
            Onward::Open => {}
            Onward::Close => return Onward::Close,
        }
        match self.pass(node, now) {
            Onward::Open => {}
            Onward::Close => return Onward::Close,
        }
        self.queue_messages(node, now)
    }

    /// Takes all that was heard whole.
    #[tactic(auto, using(crate::proofs::Growing::grows_same, crate::proofs::Growing::grows_then))]
    fn listen<F: SegmentFile>(&mut self, node: &mut Node<F>, now: u64) -> Onward
        requires { self.old.place < length node.old.peers }
        ensures listens { Listens now self.old node.old result self.new node.new }
        ensures stays { IsPlacedSo self.old node.old self.new node.new }
        ensures exact { Grows F.told F.has_failed node.old node.new }
    {
        for _taken in 0..=self.unread.as_slice().len() {
            match self.take_next(node, now) {
                Next::Taken => {}
                Next::Nothing => return Onward::Open,
                Next::Close => return Onward::Close,
            }
        }
        Onward::Open
    }

    /// Takes what is next in what was heard.
    fn take_next<F: SegmentFile>(&mut self, node: &mut Node<F>, now: u64) -> Next
        requires { self.old.place < length node.old.peers }
        ensures hears { HearsNext now self.old node.old result self.new node.new }
        ensures stays { IsPlacedSo self.old node.old self.new node.new }
        ensures exact { Grows F.told F.has_failed node.old node.new }
    {
        if self.is_answered {
            self.take_acknowledgement(node, now)
        } else {
            self.take_reply(node, now)
        }
    }

    #[tactic(auto, using(crate::proofs::Growing::grows_same, crate::proofs::Hearing::answer_within, crate::proofs::Hearing::refusal_within))]
    fn take_reply<F: SegmentFile>(&mut self, node: &mut Node<F>, now: u64) -> Next
        requires { self.old.place < length node.old.peers }
        ensures hears { HearsReply now self.old node.old result self.new node.new }
        ensures stays { IsPlacedSo self.old node.old self.new node.new }
        ensures exact { Grows F.told F.has_failed node.old node.new }
    {
        match decode_reply(self.unread.as_slice()) {
            ReplyFront::Answered(answer) => self.take_answer(node, &answer, now),
            ReplyFront::Refused(refusal) => {
                self.unread.skip(REFUSAL_LEN);
                match refusal {
                    // It may be over once the peer was started again.
                    Refusal::Closed | Refusal::Sealed => Next::Close,
                    lasting => self.tell(node, &Happening::Refused(lasting), now),
                }
            }
            ReplyFront::Short => Next::Nothing,
            ReplyFront::Bad => Next::Close,
        }
    }

    /// Takes the answer in front, unless somebody else than the peer gave it.
    #[tactic(auto, using(crate::proofs::Growing::grows_same, crate::proofs::Hearing::answer_within))]
    fn take_answer<F: SegmentFile>(&mut self, node: &mut Node<F>, answer: &Answer, now: u64) -> Next
        requires place { self.old.place < length node.old.peers }
        requires front { IsReplyFront self.old.unread (ReplyFront.Answered answer.now) }
        ensures hears { HearsAnswer answer.now now self.old node.old result self.new node.new
            ⊎ HearsStranger answer.now self.old node.old result self.new node.new }
        ensures stays { IsPlacedSo self.old node.old self.new node.new }
        ensures exact { Grows F.told F.has_failed node.old node.new }
    {
        self.unread.skip(Answer::LEN);
        if is_of_peer(node, self.place, &answer.hello) {
            self.is_answered = true;
            self.tell(node, &Happening::Answered(*answer), now)
        } else {
            Next::Close
        }
    }

    #[tactic(auto, using(crate::proofs::Growing::grows_same, crate::proofs::Hearing::acknowledgement_within))]
    fn take_acknowledgement<F: SegmentFile>(&mut self, node: &mut Node<F>, now: u64) -> Next
        requires { self.old.place < length node.old.peers }
        ensures hears { HearsAcknowledgement now self.old node.old result self.new node.new }
        ensures stays { IsPlacedSo self.old node.old self.new node.new }
        ensures exact { Grows F.told F.has_failed node.old node.new }
    {
        match decode_acknowledgement(self.unread.as_slice()) {
            AcknowledgementFront::Whole(acknowledgement) => {
                self.unread.skip(Acknowledgement::LEN);
                self.tell(node, &Happening::Acknowledged(acknowledgement), now)
            }
            AcknowledgementFront::Short => Next::Nothing,
            AcknowledgementFront::Bad => Next::Close,
        }
    }

    /// Tells the site what was heard.
    #[tactic(auto, using(crate::proofs::Growing::grows_stays, crate::proofs::Places::does_length))]
    fn tell<F: SegmentFile>(&mut self, node: &mut Node<F>, what: &Happening, now: u64) -> Next
        requires { self.old.place < length node.old.peers }
        ensures tells { Tells what.now now self.old node.old result self.new node.new }
        ensures stays { IsPlacedSo self.old node.old self.new node.new }
        ensures exact { Grows F.told F.has_failed node.old node.new }
    {
        match node.happen(self.place, what, now) {
            Action::Rest => Next::Taken,
            Action::Refuse(mismatch) => {
                let _ = self.say(&spell_mismatch(mismatch));
                Next::Close
            }
            _ => Next::Close,
        }
    }

    /// Lets time pass.
    #[tactic(auto, using(crate::proofs::Growing::grows_stays, crate::proofs::Places::does_length))]
    fn pass<F: SegmentFile>(&mut self, node: &mut Node<F>, now: u64) -> Onward
        requires { self.old.place < length node.old.peers }
        ensures passes { Passes now self.old node.old result self.new node.new }
        ensures stays { IsPlacedSo self.old node.old self.new node.new }
        ensures exact { Grows F.told F.has_failed node.old node.new }
    {
        let epoch = node.epoch();
        match node.happen(self.place, &Happening::Passed, now) {
            Action::Rest => Onward::Open,
            Action::Note => self.say(&spell_note(epoch)),
            _ => Onward::Close,
        }
    }

    /// Queues the next messages.
    #[tactic(auto, using(crate::proofs::Growing::grows_same, crate::proofs::Growing::grows_stays, crate::proofs::Growing::grows_then, crate::proofs::Places::gives_length))]
    fn queue_messages<F: SegmentFile>(&mut self, node: &mut Node<F>, now: u64) -> Onward
        requires { self.old.place < length node.old.peers }
        ensures writes { WritesSo now self.old node.old result self.new node.new }
        ensures exact { Grows F.told F.has_failed node.old node.new }
    {
        for _queued in 0..FEW_QUEUED {
            if self.to_write().len() >= FEW_QUEUED {
                return Onward::Open;
            }
            let Some(message) = node.next_message(self.place(), now) else {
                return Onward::Open;
            };
            match self.say(encode(&message).as_slice()) {
                Onward::Open => {}
                Onward::Close => return Onward::Close,
            }
        }
        Onward::Open
    }

    /// Puts bytes behind what is to be written. Close where memory was refused.
    fn say(&mut self, bytes: &[u8]) -> Onward
        ensures { SaysSo bytes.now self.old result self.new }
    {
        match self.queue.extend_from_slice(bytes) {
            Ok(()) => Onward::Open,
            Err(AllocError) => Onward::Close,
        }
    }

    /// What is to be written.
    pub fn to_write(&self) -> &[u8]
        ensures { result.now ≡ self.now.to_write }
    {
        &self.queue
    }

    /// So many of these bytes were written.
    pub fn wrote(&mut self, count: usize)
        ensures { self.new ≡ carries count self.old }
    {
        self.queue.drain(..count.min(self.queue.len()));
    }

    /// The connection ended, or the dial was in vain: what was queued and heard is dropped.
    #[tactic(auto, using(crate::proofs::Growing::grows_same, crate::proofs::Growing::grows_stays))]
    pub fn end<F: SegmentFile>(&mut self, node: &mut Node<F>, now: u64)
        ensures undialled { self.new ≡ undialled self.old.place }
        ensures ends { Ends now self.old node.old node.new }
        ensures exact { Grows F.told F.has_failed node.old node.new }
    {
        self.unread.clear();
        self.queue.clear();
        self.is_dialled = false;
        self.is_answered = false;
        self.is_closed = false;
        if self.place < node.peers().len() {
            let _ = node.happen(self.place, &Happening::Ended, now);
        }
    }
}

/// What the site says first to the peer at a place.
fn hello_at<F: SegmentFile>(node: &Node<F>, place: usize) -> Hello
    requires { place < length node.now.peers }
    ensures { AtPlace node.now place (λ peer. result ≡ hello_to node.now peer) }
{
    let beginning = node.station().base();
    Hello {
        world: beginning.topology.world(),
        from: beginning.site,
        to: node.peers()[place].site,
        epoch: node.epoch(),
    }
}
