//! The kinds of thing that have a name.

ghost use Rattle.std.specs.Prelude.{◌≡◌};
ghost use Rattle.chorus_ui.specs.Kind.{kind_number, kind_letter, kind_with_number, kind_with_text};

/// What a name is the name of. Actors, ports and port groups are those of the Chorus article of 1988.
#[derive(Clone, Copy, Debug, PartialEq, Eq)]
pub enum Kind {
    /// A unit of resources, which stays on its site. In a name's text it is `a`.
    Actor = 1,
    /// An address that messages are sent to. In a name's text it is `p`.
    Port = 2,
    /// A group of ports. In a name's text it is `g`.
    Group = 3,
}

impl Kind {
    /// The kind's number in the bits of a name: 1, 2 or 3.
    pub(crate) fn number(self) -> u8
        ensures { result ≡ kind_number self }
    {
        self as u8
    }

    /// The kind with this number. None exactly where there is none.
    pub(crate) fn with_number(number: u8) -> Option<Kind>
        ensures { result ≡ kind_with_number number }
    {
        match number {
            1 => Some(Kind::Actor),
            2 => Some(Kind::Port),
            3 => Some(Kind::Group),
            _ => None,
        }
    }

    /// The kind's letter in the text of a name.
    pub(crate) fn letter(self) -> u8
        ensures { result ≡ kind_letter self }
    {
        match self {
            Kind::Actor => b'a',
            Kind::Port => b'p',
            Kind::Group => b'g',
        }
    }

    /// The kind whose letter this text is. None exactly where there is none.
    pub(crate) fn with_text(text: &[u8]) -> Option<Kind>
        ensures { result ≡ kind_with_text text.now }
    {
        match text {
            [b'a'] => Some(Kind::Actor),
            [b'p'] => Some(Kind::Port),
            [b'g'] => Some(Kind::Group),
            _ => None,
        }
    }
}
