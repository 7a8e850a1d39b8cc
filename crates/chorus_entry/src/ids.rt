//! Lists of ids.

ghost use Rattle.std.specs.Prelude.{◌≡◌, List, IfOk};
ghost use Rattle.chorus_entry.specs.declared.id.MsgId.{MsgId};

use crate::id::MsgId;
use std::alloc::{AllocError, Global};
use std::marker::Model;

/// The ids of the messages that were discarded with a deleted port, in the order of its queue.
#[derive(Drop)]
pub struct Ids {
    ids: Vec<MsgId>,
}

impl Model for Ids {
    ghost Value = { List MsgId };

    ghost view = { λ list. list.ids.items };
}

impl Ids {
    /// The list of these ids, copied.
    pub fn of(alloc: Global, ids: &[MsgId]) -> Result<Ids, AllocError>
        ensures { IfOk result (λ list. list ≡ ids.now) }
    {
        let ids = Vec::from_slice(alloc, ids)?;
        Ok(Ids { ids })
    }

    /// The ids, in order.
    pub fn ids(&self) -> &[MsgId]
        ensures { result.now ≡ self.now }
    {
        self.ids.as_slice()
    }

    /// The same ids again, in memory of their own.
    pub fn copied(&self) -> Result<Ids, AllocError>
        ensures { IfOk result (λ list. list ≡ self.now) }
    {
        let ids = self.ids.clone()?;
        Ok(Ids { ids })
    }
}

impl PartialEq for Ids {
    ghost use Rattle.std.specs.Cmp.{partial_equiv_from_equiv};
    ghost use Rattle.chorus_entry.specs.Ids.{same_ids, same_ids-equivalence};

    ghost eq = { same_ids };

    ghost laws = { partial_equiv_from_equiv same_ids-equivalence };

    fn eq(&self, other: &Ids) -> bool {
        self.ids == other.ids
    }
}

impl Eq for Ids {
    ghost use Rattle.chorus_entry.specs.Ids.{same_ids-equivalence};

    ghost laws = { same_ids-equivalence };
}
