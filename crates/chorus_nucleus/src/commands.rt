//! The calls of a caller, each a command in one turn at its place, as [`Nucleus::act`] says.
ghost use Rattle.std.specs.Prelude.{◌≡◌, ◌<◌, ◌≤◌, true, length};
ghost use Rattle.chorus_ui.specs.declared.limits.TheConstants.{BODY_LIMIT};
ghost use Rattle.chorus_ui.specs.NameKind.{is_actor, is_port, is_group};
ghost use Rattle.chorus_entry.specs.Kinds.{has_kinds_in_dest};
ghost use Rattle.chorus_entry.specs.Command.{is_capacity, demands_a_site};
ghost use Rattle.chorus_entry.specs.declared.command.Command.TheVariants as Command;
ghost use Rattle.chorus_nucleus.specs.Passes.{caller_of, IsPassOf};
ghost use Rattle.chorus_nucleus.specs.Calls.{IsCall};

use crate::fault::CallFault;
use crate::nucleus::Nucleus;
use crate::pass::Pass;
use crate::site_turns::Draft;
use chorus_entry::{Command, Dest};
use chorus_place::Reply;
use chorus_ui::Ui;

impl Nucleus {
    /// Makes a port of the actor, an actor's name, with room for `capacity` waiting messages, 1 to 64. The place is the actor's home.
    pub fn make_port(&self, pass: &mut Pass, actor: Ui, capacity: u8) -> Result<Reply, CallFault>
        requires pass { IsPassOf self.now pass.old }
        requires actor { is_actor actor ≡ true }
        requires capacity { is_capacity capacity ≡ true }
        ensures { IsCall self.now (Command.Make actor capacity) pass.old pass.new result }
    {
        self.act(pass, &Command::Make { actor, capacity })
    }

    /// Makes a group at the site. The place is the site's first one.
    pub fn make_group(&self, pass: &mut Pass, site: u16) -> Result<Reply, CallFault>
        requires pass { IsPassOf self.now pass.old }
        ensures { IsCall self.now (Command.GroupMake site) pass.old pass.new result }
    {
        self.act(pass, &Command::GroupMake { site })
    }

    /// Makes the port the last member of the group. The place is the group's.
    pub fn join(&self, pass: &mut Pass, group: Ui, port: Ui) -> Result<Reply, CallFault>
        requires pass { IsPassOf self.now pass.old }
        requires group { is_group group ≡ true }
        requires port { is_port port ≡ true }
        ensures { IsCall self.now (Command.Join group port) pass.old pass.new result }
    {
        self.act(pass, &Command::Join { group, port })
    }

    /// Takes the port out of the group. The place is the group's.
    pub fn leave(&self, pass: &mut Pass, group: Ui, port: Ui) -> Result<Reply, CallFault>
        requires pass { IsPassOf self.now pass.old }
        requires group { is_group group ≡ true }
        requires port { is_port port ≡ true }
        ensures { IsCall self.now (Command.Leave group port) pass.old pass.new result }
    {
        self.act(pass, &Command::Leave { group, port })
    }

    /// Posts a message with this body, at most 4,096 bytes, that asks for nothing. The caller has posted fewer than 2^32 - 1 messages. The
    /// place is the caller's home, as for each call that posts.
    pub fn send(&self, pass: &mut Pass, dest: Dest, body: &[u8]) -> Result<Reply, CallFault>
        requires pass { IsPassOf self.now pass.old }
        requires kinds { has_kinds_in_dest dest ≡ true }
        requires site { demands_a_site dest ≡ true }
        requires body { length body.now ≤ BODY_LIMIT }
        requires posts { (caller_of pass.old).posts < u32.MAX }
        ensures { IsCall self.now (Command.Send dest body.now) pass.old pass.new result }
    {
        self.perform(pass, &Draft::send(&dest, body))
    }

    /// Posts a request with this body to the port; the reply goes to the port `back`. A caller has at most one call outstanding.
    pub fn call(&self, pass: &mut Pass, port: Ui, back: Ui, body: &[u8]) -> Result<Reply, CallFault>
        requires pass { IsPassOf self.now pass.old }
        requires port { is_port port ≡ true }
        requires back { is_port back ≡ true }
        requires body { length body.now ≤ BODY_LIMIT }
        requires posts { (caller_of pass.old).posts < u32.MAX }
        ensures { IsCall self.now (Command.Call port back body.now) pass.old pass.new result }
    {
        let _seen: Option<Dest> = None; // the borrow checker looks for this type
        self.perform(pass, &Draft::call(port, back, body))
    }

    /// Posts the request of the outstanding call again.
    pub fn retry(&self, pass: &mut Pass) -> Result<Reply, CallFault>
        requires pass { IsPassOf self.now pass.old }
        requires posts { (caller_of pass.old).posts < u32.MAX }
        ensures { IsCall self.now Command.Retry pass.old pass.new result }
    {
        self.act(pass, &Command::Retry)
    }

    /// Ends the outstanding call. The place is the caller's home.
    pub fn cancel(&self, pass: &mut Pass) -> Result<Reply, CallFault>
        requires pass { IsPassOf self.now pass.old }
        ensures { IsCall self.now Command.Cancel pass.old pass.new result }
    {
        self.act(pass, &Command::Cancel)
    }

    /// Answers the request in hand, the one that was taken last.
    pub fn reply(&self, pass: &mut Pass, body: &[u8]) -> Result<Reply, CallFault>
        requires pass { IsPassOf self.now pass.old }
        requires body { length body.now ≤ BODY_LIMIT }
        requires posts { (caller_of pass.old).posts < u32.MAX }
        ensures { IsCall self.now (Command.Reply body.now) pass.old pass.new result }
    {
        let _seen: Option<Dest> = None; // as in `call`
        self.perform(pass, &Draft::reply(body))
    }

    /// Receives the first message that waits in the port. The place is that of the port on the caller's site, as for `move_port` and
    /// `delete`.
    pub fn take(&self, pass: &mut Pass, port: Ui) -> Result<Reply, CallFault>
        requires pass { IsPassOf self.now pass.old }
        requires port { is_port port ≡ true }
        ensures { IsCall self.now (Command.Take port) pass.old pass.new result }
    {
        self.act(pass, &Command::Take { port })
    }

    /// Moves the port, with all that waits in it, to the actor, of this or another site.
    pub fn move_port(&self, pass: &mut Pass, port: Ui, actor: Ui) -> Result<Reply, CallFault>
        requires pass { IsPassOf self.now pass.old }
        requires port { is_port port ≡ true }
        requires actor { is_actor actor ≡ true }
        ensures { IsCall self.now (Command.Move port actor) pass.old pass.new result }
    {
        self.act(pass, &Command::Move { port, actor })
    }

    /// Deletes the port, which the caller's actor holds, and with it what waits there.
    pub fn delete(&self, pass: &mut Pass, port: Ui) -> Result<Reply, CallFault>
        requires pass { IsPassOf self.now pass.old }
        requires port { is_port port ≡ true }
        ensures { IsCall self.now (Command.Delete port) pass.old pass.new result }
    {
        self.act(pass, &Command::Delete { port })
    }
}
