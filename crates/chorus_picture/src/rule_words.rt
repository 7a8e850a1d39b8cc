//! The rules of an audit in words.

ghost use Rattle.std.specs.Prelude.{◌≡◌};
ghost use Rattle.chorus_picture.specs.RuleWords.{rule_words};

/// What the rule of this number asks. Of any other number it is a line that may not stand there.
pub(crate) fn rule_words(rule: u8) -> &'static str
    ensures { result.now ≡ rule_words rule }
{
    match rule {
        0 => "the place is none of the layout, or the clock is not above its last one",
        1 => "make stands only where the port is its place's next one, with room for 1 to 64",
        2 => "make-full stands only where the place has made all its ports",
        3 => "no-actor stands only where the layout has no such actor",
        4 => "no-site stands only where the layout has no such site",
        5 => "post stands only where the id is the caller's next one, and its tag fits",
        6 => "accept stands only where the port is held with room and the message is due",
        7 => "full stands only where the port is held with no room and the message is due",
        8 => "already stands only where the port is held and took this request, or a later one",
        9 => "clients-full stands only where the port is held and remembers 64 other clients",
        10 => "stale stands only where the message is due and the port left by a later hop",
        11 => "early stands only where the message is due and the port is on its way there",
        12 => "no-port stands only where the message is due and there is no such port",
        13 => "elsewhere stands only where the message is for one site and the port at another",
        14 => "no-member stands only where the post is next and its group has no member for it",
        15 => "choose stands only where the post is next and these are the members for it",
        16 => "try stands only where the message is next to go and the port is located there",
        17 => "told stands only where this was decided on what the place tried",
        18 => "heard stands only where this became of what the place posted to a group",
        19 => "take stands only where the port is held and this message waits first",
        20 => "done stands only behind the take of the reply to the caller's call",
        21 => "late stands only behind the take of a reply that ends no call of the caller",
        22 => "empty stands only where the port is held and nothing waits in it",
        23 => "not-here names a port, and does not stand behind the take of a reply",
        24 => "rehome stands only where the port is held and the actor is of this site",
        25 => "depart stands only where the port is held, and hop, place and actor are its next",
        26 => "arrive stands only where the port is on its way by this hop",
        27 => "group stands only where the group is its site's next one, at its first place",
        28 => "groups-full stands only where the site has made all its groups",
        29 => "join stands only where the group is made here, has room and lacks the port",
        30 => "leave stands only where the group is made here and has the port",
        31 => "no-group stands only where there is no such group",
        32 => "there stands only where the group is made here and has the port",
        33 => "not-there stands only where the group is made here and lacks the port",
        34 => "members-full stands only where the group is made here and has 32 members",
        35 => "outstanding stands only where this call of the caller is outstanding",
        36 => "no-call stands only where no call of the caller is outstanding",
        37 => "no-request stands only where the caller holds no request",
        38 => "cancel stands only where this call of the caller is outstanding",
        39 => "delete stands only where the port is held and these messages wait in it",
        40 => "gone stands only where the message is due and the port was deleted there",
        _ => "no line that may stand here",
    }
}
