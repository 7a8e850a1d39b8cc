//! Room for the states, put away until the places are closed.
//!
//! A `Vec` may be shared between threads only where its elements may. A table may where they may be sent, so the
//! empty `Vec` lies in the one slot of a table, on which no step is ever made.
ghost use Rattle.std.specs.Prelude.{◌≡◌, ◌≤◌, IfOk, IfErr};
ghost use Rattle.std.specs.Vec.{vec_len, vec_capacity};

use atomic_table::{Refused, Table, TableRule};
use std::alloc::Global;

/// The rule of the room: the list that lies there is empty and has room for as many states as the key says.
pub struct HasRoom;

impl<S> TableRule<Vec<S>, (), usize> for HasRoom {
    ghost use Rattle.chorus_turn.specs.Rooms.{KeepsRoom};

    ghost holds = { λ count. KeepsRoom vec_len vec_capacity count };

    ghost first = { λ _. tt };
}

/// Room for the states, in the one slot of a table.
#[derive(Drop)]
pub struct Room<S> {
    pub(crate) table: Table<Vec<S>, (), usize, HasRoom, Global>,
    ghost one: { table.shared.table_id.slots ≡ 1 },
}

impl<S> Room<S> {
    /// Puts the empty list away, with its room for the states. At want of memory it comes back.
    pub(crate) fn new(alloc: Global, list: Vec<S>, count: usize) -> Result<Room<S>, Vec<S>>
        requires { (vec_len list ≡ 0) × (count ≤ vec_capacity list) }
        ensures ok { IfOk result (λ r. r.table.shared.key ≡ count) }
        ensures err { IfErr result (λ v. (vec_len v ≡ 0) × (count ≤ vec_capacity v)) }
    {
        let Ok(mut slots) = Vec::with_capacity(alloc, 1) else {
            return Err(list);
        };
        match slots.push(list) {
            Ok(()) => {}
            Err(_) => unreachable!(),
        }
        match Table::new(alloc, &[0], slots, &count) {
            Ok((table, _seat)) => Ok(Room { table }),
            Err(Refused { mut slots }) => {
                let list = slots.pop();
                slots.destroy_empty();
                Err(list.unwrap())
            }
        }
    }

    /// Gives back the empty list that was put away, with its room for the states, and frees the table where it lay.
    pub(crate) fn take(self) -> Vec<S>
        ensures { (vec_len result ≡ 0) × (self.table.shared.key ≤ vec_capacity result) }
    {
        let Room { table } = self;
        let mut closed = table.close();
        let list = closed.take(0);
        closed.free();
        list
    }
}
