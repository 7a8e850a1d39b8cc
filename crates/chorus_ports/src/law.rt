//! What holds over the life of a port.

ghost use Rattle.std.specs.Prelude.{◌≡◌, ℕ, ◌≤◌, List, ◌++◌, length};
ghost use Rattle.std.specs.List.{count_by};
ghost use Rattle.chorus_ui.specs.declared.ui.Ui.{Ui};
ghost use Rattle.chorus_entry.specs.declared.message.Message.{Message};
ghost use Rattle.chorus_ports.specs.declared.deciding.Accept.TheVariants.{Accepted};
ghost use Rattle.chorus_ports.specs.Deciding.{answer_to};
ghost use Rattle.chorus_ports.specs.History.{Event, history, IsFrontOf, is_request};

/// The law of a port, for every list of offers, takes, changes of its holder and migrations, from its making on. A migration
/// gives the record any hop and any actor, and hands on all else as it is.
pub fn a_port_keeps_order_and_accepts_once()
    // What was taken is a front of what was accepted.
    ensures front { (ui actor : Ui) (capacity : ℕ) (events : List Event) →
        let h = history ui actor capacity events in IsFrontOf h.taken h.accepted }
    // What was accepted and not taken waits in the port.
    ensures waiting { (ui actor : Ui) (capacity : ℕ) (events : List Event) →
        let h = history ui actor capacity events in h.accepted ≡ h.taken ++ h.port.pending }
    // A port counts what was taken from it.
    ensures counted { (ui actor : Ui) (capacity : ℕ) (events : List Event) →
        let h = history ui actor capacity events in h.port.first ≡ length h.taken }
    // What is accepted next has the position that counts what was accepted before it.
    ensures positions { (ui actor : Ui) (capacity : ℕ) (events : List Event)
        (message : Message) (pos : ℕ) →
        let h = history ui actor capacity events in
        answer_to message h.port ≡ Accepted pos → pos ≡ length h.accepted }
    // No request number of a client is accepted twice.
    ensures once { (ui actor : Ui) (capacity : ℕ) (events : List Event) (client number : ℕ) →
        let h = history ui actor capacity events in
        count_by (is_request client number) h.accepted ≤ 1 }
{}
