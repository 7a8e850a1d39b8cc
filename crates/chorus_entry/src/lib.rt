//! What is said on every layer of chorus: messages, commands, the entries of a journal, the record of a port and the
//! packets between places.
//!
//! The layers above rest on these types and on the words of `specs/`: the role of each act (`Act.antt`), and by it whether
//! it answers a command, decides or settles, the answer that it gives, and the message, port and group that it names; the
//! order of entries (`Order`), lists of members (`Members`), the clients that a port remembers (`Clients`), and the
//! conditions of commands (`Command`). A record keeps its room wherever it goes, so that what a port does after it is made
//! takes no memory. The texts, bytes and rules that go with the types stand in the layers above.
//!
//! Begin with `act`: the forty kinds of events. `entry` adds when, where and by whom.
#![tactic(auto)]

mod act;
mod answer;
mod body;
mod command;
mod dest;
mod entry;
mod hand;
mod id;
mod ids;
mod members;
mod message;
mod packet;
mod record;
mod tag;

pub use act::Act;
pub use answer::Answer;
pub use body::Body;
pub use chorus_ui::{BODY_LIMIT, CLIENTS_LIMIT, MEMBERS_LIMIT, PENDING_LIMIT};
pub use command::Command;
pub use dest::Dest;
pub use entry::Entry;
pub use hand::Hand;
pub use id::MsgId;
pub use ids::Ids;
pub use members::{Members, index_of, is_member, turned, turned_back};
pub use message::Message;
pub use packet::{Cargo, Packet};
pub use record::{ClientTable, Pending, PortRecord};
pub use tag::Tag;
