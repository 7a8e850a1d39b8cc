//! The table of the ports that a place holds.
//!
//! The layer above rests on this: [`Ports`] is seen as the list of its records in table order and the number that still fit,
//! and each call's answer and the list after it are exactly those of the definitions in `specs/`: finding, replacing and
//! leaving out by name (`Table`), deciding on a message (`Deciding`), taking (`Taking`), and the limits that each record
//! keeps (`Limits`). `proofs/Tables.antt` has what follows of the list after a call for each name.
//!
//! Begin with `ports.rt`. `law.rt` says what holds over the whole life of a port.
#![tactic(auto)]

mod deciding;
mod law;
mod ports;
mod row;
mod taking;

pub use deciding::Accept;
pub use law::a_port_keeps_order_and_accepts_once;
pub use ports::Ports;
pub use taking::Taken;
