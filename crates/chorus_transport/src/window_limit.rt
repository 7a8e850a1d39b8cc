//! How wide a window may be.
ghost use Rattle.std.specs.Prelude.{◌↔◌, IsTrue};
ghost use Rattle.chorus_transport.specs.Window.{IsWindow};

/// The widest window, in chunks. The narrowest is 1.
const WIDEST: u16 = 64;

/// Whether so many chunks are a window that a transport may have: 1 to 64.
pub(crate) fn is_window(chunks: u16) -> bool
    ensures { IsTrue result ↔ IsWindow chunks }
{
    1 <= chunks && chunks <= WIDEST
}
