//! The law of waiting. It speaks of the definitions alone and makes no call.

ghost use Rattle.law_awaits.specs.Awaits.{WouldTakeIsGives};

/// Behind each schedule of the network machine a take of a caller would be answered by a message exactly where, in the world of the
/// merged journals, the caller's actor holds the port at the command's place and a message waits in it.
///
/// So what a caller waits for can be read from the journals, and no table of a place is needed to say that nothing will come.
pub fn an_await_comes_where_its_port_gives()
    ensures { WouldTakeIsGives }
{}
