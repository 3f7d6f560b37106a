//! A connection that was accepted.

ghost use Rattle.std.specs.Prelude.{◌≡◌, ℕ, ◌<◌, ◌≤◌, drop, length, true, false, None, IfOk, IfSome, OnErr, OnOk};
ghost use Rattle.cmh_resume3.specs.Hello.{IsShortHello, refusal_spelling};
ghost use Rattle.cmh_resume3.specs.Stream.{IsItemFront, IsShortItem};
ghost use Rattle.cmh_resume3.specs.declared.item.Item.TheVariants as ItemType;
ghost use Rattle.cmh_node3.specs.Nodes.{epoch_of};
ghost use Rattle.cmh_links3.specs.Connections.{accepted, carries, closed, hears, with_unread};
ghost use Rattle.cmh_links3.specs.Ahead.{IsAheadOf, IsHeard};
ghost use Rattle.cmh_links3.specs.Growing.{Grows};
ghost use Rattle.cmh_links3.specs.Hearing.{AreUpcoming};
ghost use Rattle.cmh_links3.specs.Listening.{BeginsHello, BeginsItem, Claims, EndsFor, Gives, GoesOn, Greets, HearsNext, IsMore, IsPart, Listens, MayAcknowledge, Rests, SaidIfRoom, SaysSo, Stays, TakesMessages, owing};

use crate::ahead::{epoch_of_hello, epoch_of_item, later_than};
use crate::batch::batch_of;
use crate::onward::Onward;
use crate::unread::Unread;
use cmh_model3::Message;
use cmh_node3::Node;
use cmh_resume3::{
    Hello, HelloFront, Item, ItemFront, Refusal, decode_hello, decode_item, spell_refusal,
};
use cmh_station3::SegmentFile;
use cmh_wire3::Epoch;
use std::alloc::{AllocError, Global};
use std::marker::Model;

/// How many bytes wait to be written at most, on a connection whose other side reads.
const MOST_QUEUED: usize = 65_536;

/// After how many milliseconds a connection without a hello is closed.
const HELLO_TIME: u64 = 30_000;

/// A connection that was accepted, for the link from the peer that says hello on it.
#[derive(Drop)]
pub struct Incoming {
    alloc: Global,
    line: u64,
    since: u64,
    place: Option<usize>,
    unread: Unread,
    queue: Vec<u8>,
    /// Whether something was taken since the last acknowledgement.
    owes: bool,
    is_closed: bool,
}

impl Model for Incoming {
    ghost use Rattle.cmh_links3.specs.Connections as spec;

    ghost Value = { spec.Incoming };

    ghost view = { λ c. record {
      line = c.line;
      since = c.since;
      place = c.place;
      unread = c.unread;
      to_write = c.queue.items;
      owes = c.owes;
      is_closed = c.is_closed;
    } };
}

impl Incoming {
    /// A connection of this number, on which nothing was heard.
    pub fn new(alloc: Global, line: u64, now: u64) -> Incoming
        ensures { result ≡ accepted line now }
    {
        Incoming {
            alloc,
            line,
            since: now,
            place: None,
            unread: Unread::new(alloc),
            queue: Vec::new(alloc),
            owes: false,
            is_closed: false,
        }
    }

    /// The place of the peer, once its hello was admitted.
    pub fn place(&self) -> Option<usize>
        ensures { result ≡ self.now.place }
    {
        self.place
    }

    /// The messages that the next call of `go_on` takes at a site of this epoch; none where something else comes first.
    pub fn upcoming(&self, epoch: Epoch) -> Result<Vec<Message>, AllocError>
        ensures { IfOk result (λ messages. AreUpcoming self.now.place self.now.unread messages.items) }
    {
        match self.place {
            Some(_) => Ok(batch_of(self.alloc, self.unread.as_slice(), epoch)?.messages),
            None => Ok(Vec::new(self.alloc)),
        }
    }

    /// The later epoch to which the site turns before it goes on, since what is next in what was heard is of that one. Where it
    /// does not turn, the connection is closed.
    pub fn ahead<F: SegmentFile>(&self, node: &Node<F>) -> Option<Epoch>
        ensures { IfSome result (λ later. IsAheadOf (epoch_of node.now) later × IsHeard self.now.place self.now.unread later) }
    {
        match self.place {
            None => later_than(node.epoch(), epoch_of_hello(node, self.unread.as_slice())?),
            Some(_) => later_than(node.epoch(), epoch_of_item(self.unread.as_slice())?),
        }
    }

    /// Takes bytes that were read. Where memory is refused the connection is closed.
    pub fn hear(&mut self, bytes: &[u8]) -> Result<(), AllocError>
        ensures heard { OnOk result (self.new ≡ hears bytes.now self.old) }
        ensures closed { OnErr result (self.new ≡ closed self.old) }
    {
        match self.unread.hear(bytes) {
            Ok(()) => Ok(()),
            Err(AllocError) => {
                self.is_closed = true;
                Err(AllocError)
            }
        }
    }

    /// Whether something whole was heard and not taken, so that `go_on` is to be called again at once.
    pub fn has_more(&self) -> bool
        ensures closed { self.now.is_closed ≡ true → result ≡ false }
        ensures part { self.now.is_closed ≡ false → result ≡ false → IsPart self.now.place self.now.unread }
        ensures more { result ≡ true → IsMore self.now.place self.now.unread }
    {
        !self.is_closed && self.has_whole()
    }

    fn has_whole(&self) -> bool
        ensures part { result ≡ false → IsPart self.now.place self.now.unread }
        ensures more { result ≡ true → IsMore self.now.place self.now.unread }
    {
        match self.place {
            None => begins_hello(self.unread.as_slice()),
            Some(_) => begins_item(self.unread.as_slice()),
        }
    }

    /// Takes what is next in what was heard: the hello first, then messages, at most 64, or a note or a refusal. It is
    /// called after each read, `filled` saying whether the read filled its buffer, and once in a while. What was taken is
    /// acknowledged where nothing whole is left, and the read did not fill its buffer or many messages came.
    ///
    /// A connection is closed that has not said hello for 30 s, on which the peer is silent, that has not the claim, or
    /// whose other side does not read. After that nothing more is taken.
    #[tactic(auto, using(crate::proofs::Growing::grows_same))]
    pub fn go_on<F: SegmentFile>(&mut self, node: &mut Node<F>, filled: bool, now: u64) -> Onward
        ensures shut { self.old.is_closed ≡ true → (result ≡ Onward.Close) × Stays self.old node.old self.new node.new }
        ensures goes { self.old.is_closed ≡ false →
            GoesOn F.told F.has_failed now self.old node.old result self.new node.new }
        ensures exact { Grows F.told F.has_failed node.old node.new }
    {
        if self.is_closed {
            return Onward::Close;
        }
        let onward = self.hear_next(node, filled, now);
        match onward {
            Onward::Open => {}
            Onward::Close => self.is_closed = true,
        }
        onward
    }

    #[tactic(auto, using(crate::proofs::Growing::grows_same, crate::proofs::Taking::hears_there))]
    fn hear_next<F: SegmentFile>(&mut self, node: &mut Node<F>, filled: bool, now: u64) -> Onward
        ensures hears { HearsNext F.told F.has_failed self.old.place now self.old node.old result self.new node.new }
        ensures exact { Grows F.told F.has_failed node.old node.new }
    {
        let Some(place) = self.place() else {
            return self.greet(node, now);
        };
        if place >= node.peers().len() {
            return Onward::Close;
        }
        self.listen(node, place, filled, now)
    }

    /// Takes the hello.
    #[tactic(auto, using(crate::proofs::Growing::grows_same, crate::proofs::Hearing::hello_within))]
    fn greet<F: SegmentFile>(&mut self, node: &mut Node<F>, now: u64) -> Onward
        requires { self.old.place ≡ None }
        ensures greets { Greets now self.old node.old result self.new node.new }
        ensures exact { Grows F.told F.has_failed node.old node.new }
    {
        match decode_hello(self.unread.as_slice()) {
            HelloFront::Whole(hello) => {
                self.unread.skip(Hello::LEN);
                self.claim(node, &hello, now)
            }
            HelloFront::OtherEdition => self.refuse(Refusal::OtherEdition),
            HelloFront::Bad => Onward::Close,
            HelloFront::Short => {
                if now.saturating_sub(self.since) >= HELLO_TIME {
                    Onward::Close
                } else {
                    Onward::Open
                }
            }
        }
    }

    /// Answers a hello, or refuses it.
    #[tactic(auto, using(crate::proofs::Growing::grows_same, crate::proofs::Growing::grows_stays))]
    fn claim<F: SegmentFile>(&mut self, node: &mut Node<F>, hello: &Hello, now: u64) -> Onward
        ensures claims { Claims hello.now now self.old node.old result self.new node.new }
        ensures exact { Grows F.told F.has_failed node.old node.new }
    {
        if hello.epoch.get() > node.epoch().get() {
            return Onward::Close;
        }
        let admitted = match node.hello(self.line, hello, now) {
            Ok(admitted) => admitted,
            Err(refusal) => return self.refuse(refusal),
        };
        self.place = Some(admitted.place);
        let mut spelled = Vec::new(self.alloc);
        match admitted.answer.put(&mut spelled) {
            Ok(()) => self.say(&spelled),
            Err(AllocError) => Onward::Close,
        }
    }

    /// Says why the hello is refused.
    fn refuse(&mut self, refusal: Refusal) -> Onward
        ensures said { SaidIfRoom (refusal_spelling refusal) self.old self.new }
        ensures closes { result ≡ Onward.Close }
    {
        let _ = self.say(&spell_refusal(refusal));
        Onward::Close
    }

    /// Takes what is next of what the peer at this place said.
    #[tactic(auto, using(crate::proofs::Growing::grows_same))]
    fn listen<F: SegmentFile>(
        &mut self,
        node: &mut Node<F>,
        place: usize,
        filled: bool,
        now: u64,
    ) -> Onward
        requires { place < length node.old.peers }
        ensures listens { Listens F.told F.has_failed place now self.old node.old result self.new node.new }
        ensures exact { Grows F.told F.has_failed node.old node.new }
    {
        match decode_item(self.unread()) {
            ItemFront::Whole(item, count) => self.hear_item(node, place, item, count, filled, now),
            ItemFront::Bad => Onward::Close,
            ItemFront::Short => self.rest(node, place, filled, now),
        }
    }

    /// Takes an item, and the messages behind it where it is one. So many bytes spell it.
    #[tactic(auto, using(crate::proofs::Growing::grows_same, crate::proofs::Growing::grows_stays, crate::proofs::Hearing::in_front))]
    fn hear_item<F: SegmentFile>(
        &mut self,
        node: &mut Node<F>,
        place: usize,
        item: Item,
        count: usize,
        filled: bool,
        now: u64,
    ) -> Onward
        requires place { place < length node.old.peers }
        requires front { IsItemFront self.old.unread (ItemFront.Whole item count) }
        ensures listens { Listens F.told F.has_failed place now self.old node.old result self.new node.new }
        ensures exact { Grows F.told F.has_failed node.old node.new }
    {
        match item {
            Item::Message(_) => self.take_messages(node, place, filled, now),
            Item::Note(_) => {
                if is_later(item, node.epoch()) {
                    return Onward::Close;
                }
                self.skip(count);
                self.take(node, place, &[], filled, now)
            }
            Item::Refused(mismatch) => {
                self.skip(count);
                node.told(place, self.line(), mismatch);
                Onward::Close
            }
        }
    }

    /// Takes the messages in front.
    #[tactic(auto, using(crate::proofs::Growing::grows_same, crate::proofs::Taking::takes_batch))]
    fn take_messages<F: SegmentFile>(
        &mut self,
        node: &mut Node<F>,
        place: usize,
        filled: bool,
        now: u64,
    ) -> Onward
        requires { place < length node.old.peers }
        ensures takes { TakesMessages F.told F.has_failed place now self.old node.old result self.new node.new }
        ensures exact { Grows F.told F.has_failed node.old node.new }
    {
        let Ok(batch) = batch_of(self.alloc(), self.unread(), node.epoch()) else {
            return Onward::Close;
        };
        // It is of a later epoch.
        if batch.messages.is_empty() {
            return Onward::Close;
        }
        self.skip(batch.len);
        self.take(node, place, &batch.messages, filled, now)
    }

    /// Gives messages to the site. None are given where a note came.
    #[tactic(auto, using(crate::proofs::Growing::grows_takes, crate::proofs::Growing::grows_not, crate::proofs::Growing::grows_then, crate::proofs::Places::takes_length))]
    fn take<F: SegmentFile>(
        &mut self,
        node: &mut Node<F>,
        place: usize,
        messages: &[Message],
        filled: bool,
        now: u64,
    ) -> Onward
        requires { place < length node.old.peers }
        ensures gives { Gives F.told F.has_failed place messages.now now self.old node.old result self.new node.new }
        ensures exact { Grows F.told F.has_failed node.old node.new }
    {
        match node.take(place, self.line(), messages, now) {
            Ok(taken) => {
                if taken.count != messages.len() {
                    return Onward::Close;
                }
                self.owe();
                self.acknowledge(node, place, filled)
            }
            Err(_) => Onward::Close,
        }
    }

    fn alloc(&self) -> Global {
        self.alloc
    }

    fn unread(&self) -> &[u8]
        ensures { result.now ≡ self.now.unread }
    {
        self.unread.as_slice()
    }

    /// So many bytes were taken.
    fn skip(&mut self, count: usize)
        requires { count ≤ length self.old.unread }
        ensures { self.new ≡ with_unread (drop count self.old.unread) self.old }
    {
        self.unread.skip(count);
    }

    fn line(&self) -> u64
        ensures { result ≡ self.now.line }
    {
        self.line
    }

    /// Something was taken.
    fn owe(&mut self)
        ensures { self.new ≡ owing true self.old }
    {
        self.owes = true;
    }

    /// Nothing whole was heard.
    #[tactic(auto, using(crate::proofs::Growing::grows_same))]
    fn rest<F: SegmentFile>(
        &mut self,
        node: &mut Node<F>,
        place: usize,
        filled: bool,
        now: u64,
    ) -> Onward
        requires { place < length node.old.peers }
        ensures rests { Rests place now self.old node.old result self.new node.new }
        ensures exact { Grows F.told F.has_failed node.old node.new }
    {
        if !node.peers()[place].into.is_claimed(self.line) {
            return Onward::Close;
        }
        if node.is_silent(place, self.line, now) {
            return Onward::Close;
        }
        self.acknowledge(node, place, filled)
    }

    /// Acknowledges what was taken, unless more is there to be taken.
    #[tactic(auto, using(crate::proofs::Growing::grows_same, crate::proofs::Growing::grows_stays))]
    fn acknowledge<F: SegmentFile>(
        &mut self,
        node: &mut Node<F>,
        place: usize,
        filled: bool,
    ) -> Onward
        requires { place < length node.old.peers }
        ensures said { MayAcknowledge place self.old node.old result self.new node.new }
        ensures exact { Grows F.told F.has_failed node.old node.new }
    {
        if !self.owes {
            return Onward::Open;
        }
        match node.acknowledge(place, self.line, filled || self.has_whole()) {
            Some(acknowledgement) => {
                self.owes = false;
                self.say(&acknowledgement.spell())
            }
            None => Onward::Open,
        }
    }

    /// Puts bytes behind what is to be written.
    fn say(&mut self, bytes: &[u8]) -> Onward
        ensures { SaysSo bytes.now self.old result self.new }
    {
        if self.queue.len() >= MOST_QUEUED {
            return Onward::Close;
        }
        match self.queue.extend_from_slice(bytes) {
            Ok(()) => Onward::Open,
            Err(AllocError) => Onward::Close,
        }
    }

    /// What is to be written.
    pub fn to_write(&self) -> &[u8]
        ensures { result.now ≡ self.now.to_write }
    {
        &self.queue
    }

    /// So many of these bytes were written.
    pub fn wrote(&mut self, count: usize)
        ensures { self.new ≡ carries count self.old }
    {
        self.queue.drain(..count.min(self.queue.len()));
    }

    /// The connection ended. Nothing more is taken.
    #[tactic(auto, using(crate::proofs::Growing::grows_same, crate::proofs::Growing::grows_stays))]
    pub fn end<F: SegmentFile>(&mut self, node: &mut Node<F>)
        ensures closed { self.new ≡ closed self.old }
        ensures ends { EndsFor self.old.place self.old.line node.old node.new }
        ensures exact { Grows F.told F.has_failed node.old node.new }
    {
        self.is_closed = true;
        let Some(place) = self.place else {
            return;
        };
        if place < node.peers().len() {
            node.end_line(place, self.line);
        }
    }
}

/// Whether an item is a note of a later epoch than this site's.
fn is_later(item: Item, own: Epoch) -> bool
    ensures later { result ≡ true → (epoch : ℕ) → item ≡ ItemType.Note epoch → own < epoch }
    ensures now { result ≡ false → (epoch : ℕ) → item ≡ ItemType.Note epoch → epoch ≤ own }
{
    match item {
        Item::Note(epoch) => epoch.get() > own.get(),
        _ => false,
    }
}

/// Whether the bytes begin with more than a part of a hello.
fn begins_hello(bytes: &[u8]) -> bool
    ensures part { result ≡ false → IsShortHello bytes.now }
    ensures more { result ≡ true → BeginsHello bytes.now }
{
    match decode_hello(bytes) {
        HelloFront::Short => false,
        _ => true,
    }
}

/// Whether the bytes begin with more than a part of an item.
fn begins_item(bytes: &[u8]) -> bool
    ensures part { result ≡ false → IsShortItem bytes.now }
    ensures more { result ≡ true → BeginsItem bytes.now }
{
    match decode_item(bytes) {
        ItemFront::Short => false,
        _ => true,
    }
}
