//! On what a place decides, why it decides so, and that nothing else can be decided there.

ghost use Rattle.chorus_world.specs.Always.{LayoutEntries, LegalEntries};
ghost use Rattle.law_world.specs.Decisions.{AlreadyWhereAccepted, ClientsFullWhereManyAre, DecidesByThePort, DecidesWhatIsDue, NoPortWasMade, OneDecisionIsPossible, SomeDecisionIsPossible};

/// What each decision says of the world before it.
///
/// A place decides on a message that stands tried there, or that is the next to be tried from there and whose port it locates
/// at itself; and else only says Elsewhere of one that asks for a site and whose port it locates off that site, and NoPort of
/// one for a port of no site (`due`). What is to be decided at a place meets its port exactly where the place holds it; it is
/// answered Gone exactly where the port was deleted there, NoPort exactly where it was never made, and Early by a hop exactly
/// where the port is on its way to the place by this hop and the message did not come too late (`cause`). A NoPort is never
/// said of a port that was made (`never_made`).
///
/// A port that the message meets answers Already exactly where it accepted this request or a later one of the client
/// (`already`), and ClientsFull exactly where it accepted no request of the client and requests of 64 others (`clients_full`).
/// Of the others it accepts those for which it has room, as `only_the_holder_accepts` says.
pub fn a_decision_has_its_cause()
    ensures due { LayoutEntries DecidesWhatIsDue }
    ensures cause { LayoutEntries DecidesByThePort }
    ensures never_made { LegalEntries (λ l. NoPortWasMade) }
    ensures already { LayoutEntries (λ l. AlreadyWhereAccepted) }
    ensures clients_full { LayoutEntries (λ l. ClientsFullWhereManyAre) }
{}

/// Two decisions on one message that may come next at one place are the same one (`most`). And on what is to be decided at a place one
/// may come next there, by any seat, at each clock above the last one there, unless the last entry there is the Take of a reply (`some`).
pub fn one_decision_is_possible()
    ensures most { OneDecisionIsPossible }
    ensures some { SomeDecisionIsPossible }
{}
