//! The tables beside the entries, and what an entry makes of them.

ghost use Rattle.std.specs.Prelude.{◌≡◌, ◌<◌, ◌++◌, [], None, OnOk, OnErr};
ghost use Rattle.std.specs.HashMap.{spare};
ghost use Rattle.chorus_ui.specs.declared.layout.Layout.{Layout};
ghost use Rattle.chorus_entry.specs.declared.entry.Entry.{Entry};
ghost use Rattle.chorus_world.specs.Posts.{source};
ghost use Rattle.checker_rows.specs.declared.keys.LineKey.{LineKey};
ghost use Rattle.checker_rows.specs.Lines.{line_in, AreSame};
ghost use Rattle.checker_ledger.specs.Asks.{asked_by};
ghost use Rattle.checker_ledger.specs.Ports.{fate_in, MakeFits, TakesFit};
ghost use Rattle.checker_ledger.specs.Ties.{Follows, HasSameRows, HasRoom, HasFew, ListsAfter, RowsAfter, StillFollow, sent_told, tag_by, act_tag, grows};

use crate::groups::{Group, follow_groups, join_group};
use crate::port_state::PortState;
use crate::ports::follow_ports;
use checker_rows::clients::{follow_clients, follow_kept};
use checker_rows::keys::{ClientOf, LineKey, NameAt, PortKey};
use checker_rows::locations::follow_locations;
use checker_rows::message_lines::{End, follow_lines, push, shorten_line};
use checker_rows::messages::{MessageRow, follow_messages, post_in, sent_in};
use checker_rows::places::{PlaceRow, follow_places};
use checker_rows::seats::{SeatRow, follow_seats};
use chorus_entry::{Act, Dest, Entry, MEMBERS_LIMIT, MsgId, Tag};
use chorus_ui::{Layout, Ui};
use chorus_world::{Location, Sent};
use std::alloc::{AllocError, Global};
use std::collections::{HashMap, VecDeque};

/// What the entries so far say, each by its key.
#[derive(Drop)]
pub(crate) struct Tables {
    /// What became of each port.
    pub ports: HashMap<PortKey, PortState>,
    /// Each message, wherever it is.
    pub messages: HashMap<MsgId, MessageRow>,
    /// What was sent from each place in order, by port and route.
    pub lines: HashMap<LineKey, VecDeque<MsgId>>,
    /// The posts to each group in order, by the place where they were made.
    pub asks: HashMap<LineKey, VecDeque<MsgId>>,
    /// Where each place locates each port.
    pub locations: HashMap<NameAt, Location>,
    /// Each place.
    pub places: HashMap<u16, PlaceRow>,
    /// Each caller.
    pub seats: HashMap<u32, SeatRow>,
    /// Each group at each place.
    pub groups: HashMap<NameAt, Group>,
    /// The greatest request number that each port accepted of each client.
    pub kept: HashMap<ClientOf, u32>,
    /// Of how many clients each port keeps a number.
    pub clients: HashMap<PortKey, usize>,
}

/// The table whose lists an act may make longer: no act does so in two.
#[derive(Clone, Copy)]
enum Growing {
    Ports,
    Groups,
    Asks,
    Lines,
}

/// The table whose lists the act may make longer.
fn grows(act: &Act) -> Growing
    ensures { result ≡ grows act.now }
{
    match act {
        Act::Join { .. } => Growing::Groups,
        Act::Choose { .. } => Growing::Lines,
        Act::Post { dest, .. } => match dest {
            Dest::Port(_) => Growing::Lines,
            _ => Growing::Asks,
        },
        _ => Growing::Ports,
    }
}

/// The line, in the ledger's table of lines, of what was sent from the place.
fn sent_line(place: u16, sent: &Sent) -> LineKey
    ensures { result ≡ record { place = place; name = sent.now.port; route = sent.now.route } }
{
    LineKey {
        place,
        name: sent.port,
        route: sent.route,
    }
}

/// The line, in the ledger's table of asks, of the posts to a group that are made at the place.
pub(crate) fn asked_line(place: u16, group: Ui) -> LineKey
    ensures { result ≡ record { place = place; name = group; route = None } }
{
    LineKey {
        place,
        name: group,
        route: None,
    }
}

/// The id under which the tables have the post that the message is, or is a copy of.
pub(crate) fn source(id: MsgId) -> MsgId
    ensures { result ≡ source id }
{
    MsgId {
        seat: id.seat,
        number: id.number,
        copy: 0,
    }
}

/// Puts the entry's post to a group last in its line. An error leaves the lines as they were.
fn follow_asks(
    asks: &mut HashMap<LineKey, VecDeque<MsgId>>,
    alloc: Global,
    entry: &Entry,
) -> Result<(), AllocError>
    ensures ok { OnOk result ((k : LineKey) →
        line_in asks.new k ≡ line_in asks.old k ++ asked_by k entry.now) }
    ensures err { OnErr result (AreSame (line_in asks.old) (line_in asks.new)) }
{
    match &entry.act {
        Act::Post { message, dest } => match dest.group() {
            Some(group) => push(asks, alloc, asked_line(entry.place, group), message.id),
            None => Ok(()),
        },
        _ => Ok(()),
    }
}

impl Tables {
    /// The ledger's tables of no entries.
    pub(crate) fn new(alloc: Global) -> Tables
        ensures { (l : Layout) → Follows l [] result }
    {
        Tables {
            ports: HashMap::new(alloc),
            messages: HashMap::new(alloc),
            lines: HashMap::new(alloc),
            asks: HashMap::new(alloc),
            locations: HashMap::new(alloc),
            places: HashMap::new(alloc),
            seats: HashMap::new(alloc),
            groups: HashMap::new(alloc),
            kept: HashMap::new(alloc),
            clients: HashMap::new(alloc),
        }
    }

    /// Makes room for the rows of one entry: in the table of messages for a post and its copies, in that of groups for two, as a
    /// port joins before the other rows are put.
    pub(crate) fn make_room(&mut self) -> Result<(), AllocError>
        ensures rows { HasSameRows self.old self.new }
        ensures room { OnOk result (HasRoom self.new) }
        ensures joining { OnOk result (1 < spare self.new.groups) }
    {
        self.messages.reserve(MEMBERS_LIMIT + 1)?;
        self.locations.reserve(1)?;
        self.places.reserve(1)?;
        self.seats.reserve(1)?;
        self.groups.reserve(2)?;
        self.kept.reserve(1)?;
        self.clients.reserve(1)?;
        Ok(())
    }

    /// The message that the entry tells of, as it was sent from its place by the table of messages.
    fn sent_told(&self, entry: &Entry) -> Option<Sent>
        ensures { result ≡ sent_told self.now entry.now.place entry.now.act }
    {
        match &entry.act {
            Act::Told { id, .. } => sent_in(&self.messages, entry.place, *id),
            _ => None,
        }
    }

    /// The tag of the message, which its copies share, by the table of messages; Plain where it is not posted.
    pub(crate) fn tag_of(&self, id: MsgId) -> Tag
        ensures { result ≡ tag_by self.now id }
    {
        match post_in(&self.messages, source(id)) {
            Some(post) => post.tag,
            None => Tag::Plain,
        }
    }

    /// The tag of the message that the act takes or accepts, by the table of messages.
    fn act_tag(&self, act: &Act) -> Tag
        ensures { result ≡ act_tag self.now act.now }
    {
        match act {
            Act::Take { id, .. } | Act::Accept { id, .. } => self.tag_of(*id),
            _ => Tag::Plain,
        }
    }

    /// The ledger's lists after the entry. An error leaves all tables as they were.
    pub(crate) fn grow_lists(&mut self, alloc: Global, entry: &Entry) -> Result<(), AllocError>
        requires makes { MakeFits entry.now.act }
        requires takes { TakesFit entry.now (fate_in self.old.ports) }
        ensures ok { OnOk result (ListsAfter entry.now self.old self.new) }
        ensures err { OnErr result (HasSameRows self.old self.new) }
    {
        match grows(&entry.act) {
            Growing::Ports => follow_ports(&mut self.ports, alloc, entry),
            Growing::Groups => join_group(&mut self.groups, alloc, entry),
            Growing::Asks => follow_asks(&mut self.asks, alloc, entry),
            Growing::Lines => follow_lines(&mut self.lines, alloc, entry),
        }
    }

    /// The ledger's tables beside the lists, after the entry, which stands behind `index` others.
    pub(crate) fn grow_rows(&mut self, alloc: Global, layout: Layout, entry: &Entry, index: usize)
        requires room { HasRoom self.old }
        requires few { HasFew entry.now self.old }
        ensures { RowsAfter layout index entry.now self.old self.new }
    {
        let sent = self.sent_told(entry);
        let tag = self.act_tag(&entry.act);
        follow_messages(&mut self.messages, entry);
        follow_locations(&mut self.locations, layout, entry, sent);
        follow_places(&mut self.places, entry);
        follow_seats(&mut self.seats, entry, &tag, index);
        follow_groups(&mut self.groups, alloc, entry);
        follow_clients(&mut self.clients, &self.kept, entry, &tag);
        follow_kept(&mut self.kept, entry, &tag);
    }

    /// Takes out of the line of a message, where it was sent from the place, the first ones that are settled.
    fn shorten_sent(&mut self, place: u16, id: MsgId)
        ensures { StillFollow self.old self.new }
    {
        if let Some(sent) = sent_in(&self.messages, place, id) {
            let line = sent_line(place, &sent);
            shorten_line(&mut self.lines, &self.messages, &line, End::Settled);
        }
    }

    /// Takes out of the line of the group's posts, made at the place of this post, the first ones that have their choice.
    fn shorten_asked(&mut self, id: MsgId, group: Ui)
        ensures { StillFollow self.old self.new }
    {
        if let Some(post) = post_in(&self.messages, id) {
            let line = asked_line(post.place, group);
            shorten_line(&mut self.asks, &self.messages, &line, End::Chosen);
        }
    }

    /// Takes out of the lines of the entry's message the first ones that have met their end.
    pub(crate) fn shorten(&mut self, entry: &Entry)
        ensures { StillFollow self.old self.new }
    {
        match &entry.act {
            Act::Choose { id, group, .. } | Act::NoMember { id, group } => {
                self.shorten_asked(*id, *group)
            }
            Act::Post { .. } | Act::Try { .. } => {}
            act => {
                if let Some(id) = act.message() {
                    self.shorten_sent(entry.place, id);
                }
            }
        }
    }
}
