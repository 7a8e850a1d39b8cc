//! What holds of a line, whatever it loses, repeats and reorders.
ghost use Rattle.std.specs.Prelude.{◌≡◌, ◌≢◌, ℕ, ◌≤◌, List, length, IfSome, slice_get};
ghost use Rattle.chorus_transport.specs.declared.sender.Acked.TheVariants.{Beyond};
ghost use Rattle.chorus_transport.specs.Sending.{next_number, answer_to};
ghost use Rattle.chorus_transport.specs.Receiving.{ack_of};
ghost use Rattle.chorus_transport.specs.Line.{Event, line_after, IsPrefixOf};

/// The law of a line, for every window and every list of events. It says what is never wrong, and nothing of what arrives:
/// a line that loses everything keeps it too.
pub fn line_delivers_prefix()
    // What was delivered is a prefix of what was put.
    ensures prefix { (window : ℕ) (events : List Event) →
        let line = line_after window events in IsPrefixOf line.delivered line.put }
    // The receiver has all that the sender let go.
    ensures in_order { (window : ℕ) (events : List Event) →
        let line = line_after window events in line.sender.base ≤ ack_of line.receiver }
    // No acknowledgement is of what was never put.
    ensures never_beyond { (window : ℕ) (events : List Event) (which : ℕ) →
        let line = line_after window events in
        IfSome (slice_get line.acks which) (λ upto. answer_to line.sender upto ≢ Beyond) }
    // The ends' numbers count what was put and what was delivered.
    ensures counted { (window : ℕ) (events : List Event) →
        let line = line_after window events in
        (next_number line.sender ≡ length line.put)
        × (line.receiver.delivered ≡ length line.delivered) }
{}
