//! Where ports are, read without a turn.
ghost use Rattle.std.specs.Prelude.{◌≡◌, true};
ghost use Rattle.chorus_ui.specs.declared.kind.Kind.TheVariants.{Port};
ghost use Rattle.chorus_ui.specs.Layout.{has_site};
ghost use Rattle.chorus_nucleus.specs.Passes.{layout_of, IsPassOf};
ghost use Rattle.chorus_nucleus.specs.Reading.{IsLocate};

use crate::nucleus::Nucleus;
use crate::pass::Pass;
use chorus_board::Located;
use chorus_ui::Ui;
use thiserror::Error;

/// The pass has no reader of its home place's board.
#[derive(Clone, Copy, Debug, PartialEq, Eq, Error)]
#[error("the pass has no reader")]
pub struct ReadersFull;

impl Nucleus {
    /// Where the port is, as the board of the pass's home place tells: its location after some entries of that place, which begin with
    /// those of the pass's last answer and with those that its last publish there found. The port's site is in the layout.
    ///
    /// The caller has then seen the last of these entries: its own clock is at least that. It takes no turn, no memory and no wait.
    /// `ReadersFull` comes exactly where the pass has no reader.
    pub fn locate(&self, pass: &mut Pass, port: Ui) -> Result<Located, ReadersFull>
        requires pass { IsPassOf self.now pass.old }
        requires kind { port.kind ≡ Port }
        requires site { has_site (layout_of self.now) port.site ≡ true }
        ensures { IsLocate self.now port pass.old pass.new result }
    {
        match pass.sight.reader.take() {
            Some(mut own) => {
                let found = own.newest(port);
                pass.caller.see(own.clock());
                pass.sight.reader = Some(own);
                Ok(found)
            }
            None => Err(ReadersFull),
        }
    }
}
