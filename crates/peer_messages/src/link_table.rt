//! Keeps what is known of each replica: on how many connections it is heard, why it isn't, and what it has said.
ghost use Rattle.std.specs.Prelude.{◌≡◌, ◌<◌, ◌↔◌, length, map, replicate, slice_set, IfOk, IfSome, IfNone, IsFalse};
ghost use Rattle.std.specs.Option.{option_map};
ghost use Rattle.peer_link.specs.Past.{judged};
ghost use Rattle.peer_link.specs.Saying.{reach_said, view_said};
ghost use Rattle.peer_messages.specs.private.Links.{after_coming, after_going, after_greeting, after_refusal, after_refused_start, after_saying, after_version, changed_at, is_heard, label_of, labels, link_at, nothing_known};

use peer_link::{Claim, Forgotten, Op, Past, PeerMessage, Term};
use server_monitor::Labelled;
use std::alloc::{AllocError, Global};

/// What is known of one replica.
#[derive(Clone, Copy)]
pub struct Link {
    /// On how many connections it is heard.
    pub connections: u64,
    /// The term for which it was refused last, since it was heard last.
    pub refused: Option<Term>,
    /// What it has said.
    pub past: Past,
    /// The start of it that was refused last, since it remembers less.
    pub forgetful: Option<Claim>,
    /// Whether it greeted as version 0.2.0 does, last.
    pub is_earlier: bool,
}

/// A start that isn't heard, since it remembers less than its replica said.
#[derive(Clone, Copy)]
pub struct Forgetful {
    pub forgotten: Forgotten,
    /// Whether the start is refused for the first time.
    pub is_news: bool,
}

impl Link {
    /// Nothing is known of it.
    pub fn new() -> Link
        ensures { result ≡ nothing_known }
    {
        Link {
            connections: 0,
            refused: None,
            past: Past::new(),
            forgetful: None,
            is_earlier: false,
        }
    }

    /// Whether it is heard.
    pub fn is_heard(&self) -> bool
        ensures { result ≡ is_heard self.now }
    {
        self.connections > 0
    }

    /// It is heard on a connection more. What it was refused for is told again, if it is.
    fn come(&mut self)
        ensures { self.new ≡ after_coming self.old }
    {
        self.connections = self.connections.saturating_add(1);
        self.refused = None;
    }

    /// A connection on which it was heard has ended.
    fn go(&mut self)
        ensures { self.new ≡ after_going self.old }
    {
        self.connections = self.connections.saturating_sub(1);
    }

    /// It is refused for this term; whether that is news.
    fn refuse(&mut self, term: Term) -> bool
        ensures news { IsFalse result ↔ (self.old.refused ≡ Some term) }
        ensures link { self.new ≡ after_refusal term self.old }
    {
        let is_news = self.refused != Some(term);
        self.refused = Some(term);
        is_news
    }

    /// A start of it that isn't heard; whether that is news.
    fn refuse_start(&mut self, claim: Claim) -> bool
        ensures news { IsFalse result ↔ (self.old.forgetful ≡ Some claim) }
        ensures link { self.new ≡ after_refused_start claim self.old }
    {
        let is_news = self.forgetful != Some(claim);
        self.forgetful = Some(claim);
        is_news
    }

    /// A start of it greets, which is refused where it remembers less than was said.
    fn greet(&mut self, claim: Claim) -> Option<Forgetful>
        ensures judged { option_map (λ f. f.forgotten) result ≡ judged self.old.past claim }
        ensures news { IfSome result (λ f. IsFalse f.is_news ↔ (self.old.forgetful ≡ Some claim)) }
        ensures refused { IfSome result (λ f. self.new ≡ after_refused_start claim self.old) }
        ensures taken { IfNone result (self.new ≡ after_greeting claim self.old) }
    {
        match self.past.judge(&claim) {
            Some(forgotten) => {
                let is_news = self.refuse_start(claim);
                Some(Forgetful { forgotten, is_news })
            }
            None => {
                self.past.greet(&claim);
                None
            }
        }
    }
}

/// Whether the replica of this index is heard: 1 or 0.
fn label_of(index: usize, link: &Link) -> Labelled
    ensures { (result.label, result.number) ≡ label_of index link.now }
{
    Labelled {
        label: index as u64,
        number: u64::from(link.is_heard()),
    }
}

/// What is known of each replica, by index.
#[derive(Drop)]
pub struct LinkTable {
    pub links: Vec<Link>,
}

impl LinkTable {
    /// Nothing is known of so many replicas.
    pub fn new(alloc: Global, count: usize) -> Result<LinkTable, AllocError>
        ensures { IfOk result (λ table. table.links.items ≡ replicate count nothing_known) }
    {
        let links = vec![in alloc; Link::new(); count]?;
        Ok(LinkTable { links })
    }

    /// What is known of a replica; nothing, of one that isn't of the cluster.
    fn link(&self, sender: u64) -> Link
        ensures { result ≡ link_at self.now.links.items sender }
    {
        match self.links.as_slice().get(sender as usize) {
            Some(link) => *link,
            None => Link::new(),
        }
    }

    /// Puts what is known of a replica; nothing changes, where it isn't of the cluster.
    fn put(&mut self, sender: u64, link: Link)
        ensures { self.new.links.items ≡ slice_set self.old.links.items sender link }
    {
        let place = sender as usize;
        if place < self.links.len() {
            self.links[place] = link;
        }
    }

    /// A replica is heard on a connection more; whether it was heard on another one already.
    pub fn come(&mut self, sender: u64) -> bool
        ensures heard { result ≡ is_heard (link_at self.old.links.items sender) }
        ensures links { self.new.links.items ≡ changed_at after_coming sender self.old.links.items }
    {
        let mut link = self.link(sender);
        let was_there = link.is_heard();
        link.come();
        self.put(sender, link);
        was_there
    }

    /// A connection on which a replica was heard has ended.
    pub fn go(&mut self, sender: u64)
        ensures { self.new.links.items ≡ changed_at after_going sender self.old.links.items }
    {
        let mut link = self.link(sender);
        link.go();
        self.put(sender, link);
    }

    /// A replica is refused for this term; whether that is news.
    pub fn refuse(&mut self, sender: u64, term: Term) -> bool
        ensures news { IsFalse result ↔ ((link_at self.old.links.items sender).refused ≡ Some term) }
        ensures links { self.new.links.items ≡ changed_at (after_refusal term) sender self.old.links.items }
    {
        let mut link = self.link(sender);
        let is_news = link.refuse(term);
        self.put(sender, link);
        is_news
    }

    /// Takes note of a start that greets, unless it remembers less than its replica said.
    pub fn greet(&mut self, sender: u64, claim: Claim) -> Option<Forgetful>
        ensures judged { sender < length self.old.links.items → option_map (λ f. f.forgotten) result ≡
            judged (link_at self.old.links.items sender).past claim }
        ensures news { IfSome result (λ f. IsFalse f.is_news ↔ ((link_at self.old.links.items sender).forgetful ≡
            Some claim)) }
        ensures refused { IfSome result (λ f. self.new.links.items ≡ changed_at (after_refused_start claim) sender
            self.old.links.items) }
        ensures taken { IfNone result (self.new.links.items ≡ changed_at (after_greeting claim) sender
            self.old.links.items) }
    {
        if self.links.len() as u64 <= sender {
            return None;
        }
        let mut link = self.link(sender);
        let forgetful = link.greet(claim);
        self.put(sender, link);
        forgetful
    }

    /// Takes note of whether a replica greets as version 0.2.0 does.
    pub fn note_version(&mut self, sender: u64, is_earlier: bool)
        ensures { self.new.links.items ≡ changed_at (after_version is_earlier) sender self.old.links.items }
    {
        let mut link = self.link(sender);
        link.is_earlier = is_earlier;
        self.put(sender, link);
    }

    /// Whether a replica greeted as version 0.2.0 does, last.
    pub fn is_earlier(&self, index: usize) -> bool
        ensures { result ≡ (link_at self.now.links.items index).is_earlier }
    {
        self.link(index as u64).is_earlier
    }

    /// Whether each replica but the one of this index is heard, 1 or 0, by their indices. Its only error is want of
    /// memory.
    pub fn connected(&self, alloc: Global, own: usize) -> Result<Vec<Labelled>, AllocError>
        ensures { IfOk result (λ v. map (λ x. (x.label, x.number)) v.items ≡ labels own 0 self.now.links.items) }
    {
        let mut connected = Vec::new(alloc);
        let mut index = 0usize;
        let mut rest = self.links.as_slice();
        while let Some((link, behind)) = rest.split_first() {
            if index != own {
                connected.push(label_of(index, link))?;
            }
            index += 1;
            rest = behind;
        }
        Ok(connected)
    }

    /// Takes note of what a message of a replica says.
    pub fn hear(&mut self, sender: u64, message: &PeerMessage<Op>)
        ensures { self.new.links.items ≡ changed_at (after_saying (view_said message.now) (reach_said message.now))
            sender self.old.links.items }
    {
        let mut link = self.link(sender);
        link.past.hear(message);
        self.put(sender, link);
    }
}
