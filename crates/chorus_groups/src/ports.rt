//! Lists of ports.

ghost use Rattle.std.specs.Prelude.{◌≡◌, length};
ghost use Rattle.chorus_groups.specs.Choosing.{first_at};

use chorus_ui::Ui;

/// Of a list of ports, members of a group, the first that is on the site, where `located` has the newest site of each and 0
/// for one that is located nowhere.
pub(crate) fn first_at(site: u16, ports: &[Ui], located: &[u16]) -> Option<Ui>
    requires { length located.now ≡ length ports.now }
    ensures { result ≡ first_at site ports.now located.now }
{
    for (i, port) in ports.iter().enumerate() {
        if located[i] == site && site != 0 {
            return Some(*port);
        }
    }
    None
}
