//! What a seating means. The laws speak of the definitions alone and make no call.

ghost use Rattle.judge_seats.specs.Laws.{OutIsTheFirst, RunsHaveNoneOut, ToldSeatsMakeARun};

/// In a legal list in which no entry is out, the actors that are told make it a run of these callers.
pub fn told_seats_make_a_run()
    ensures { ToldSeatsMakeARun }
{}

/// No entry is out of a list that some callers, in actors of the layout, make a run.
pub fn runs_have_none_out()
    ensures { RunsHaveNoneOut }
{}

/// In a legal list of which an entry is out, the entries before it are a run for some callers in actors of the layout, and with it
/// for none.
pub fn out_is_the_first()
    ensures { OutIsTheFirst }
{}
