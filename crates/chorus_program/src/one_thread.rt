//! What the words do on one thread, on sites and ends that are started for it.

ghost use Rattle.std.specs.Prelude.{◌≡◌, ◌≤◌, None, IfOk};
ghost use Rattle.chorus_ui.specs.Layout.{IsLayout};
ghost use Rattle.chorus_net.specs.Sites.{net};
ghost use Rattle.chorus_replay.specs.Ends.{EndsAsLoad, EndsAsReplay};
ghost use Rattle.chorus_replay.specs.Ordered.{AreJustStarted};
ghost use Rattle.chorus_words.specs.declared.words.TheConstants.{LOAD_LIMIT};
ghost use Rattle.chorus_words.specs.Words.{IsWithin};
ghost use Rattle.chorus_program.specs.Running.{layout_asked, one_place_each, places_each, replay_layout, DoesOnOneThread, EndsAsAudit, EndsAsExplored, EndsAsLossy, EndsAsPicture, EndsWithCause};
ghost use Rattle.chorus_program.specs.Concluding.{inquiry_in};

use crate::running::PROGRAM_SITES;
use chorus_audit::audit;
use chorus_explore::explore;
use chorus_io::{Sink, Source};
use chorus_lossy::{WINDOW, lossy};
use chorus_net::Sites;
use chorus_picture::picture;
use chorus_report::Finished;
use chorus_run::{LOAD_SITES, load, replay};
use chorus_show::Status;
use chorus_transport::{Receiver, Sender};
use chorus_ui::Layout;
use chorus_words::{EXPLORE_FIRST, EXPLORE_MOST, Words};
use std::alloc::{AllocError, Global};

// A load performs as many commands as its words may ask.
const _: () = prove!(chorus_words::LOAD_LIMIT == chorus_run::LOAD_LIMIT);

// And a crew handles what so many give.
const _: () = prove!(chorus_words::LOAD_LIMIT == chorus_run::DRAWS_LIMIT);

/// Does what the program's words ask, where one thread does it and so no nucleus is used, and nothing is asked about a text.
pub(crate) fn does_on_one_thread<S: Source, K: Sink>(
    alloc: Global,
    asked: Words,
    source: &mut S,
    sink: &mut K,
) -> Finished
    requires one_thread { layout_asked asked ≡ None }
    requires unjudged { inquiry_in asked ≡ None }
    requires within { IsWithin asked }
    ensures does { DoesOnOneThread asked result S.left S.faults S.reliable source.old source.new
        K.held K.faults sink.old sink.new }
    ensures causes { EndsWithCause result S.faults S.reliable source.old source.new
        K.faults sink.old sink.new }
{
    match asked {
        Words::Replay => start_replay(alloc, source, sink),
        Words::Load { first, commands } => start_load(alloc, first, commands, sink),
        Words::Audit { sites, turns } => start_audit(alloc, sites, turns, source, sink),
        Words::Picture { sites, turns } => start_picture(alloc, sites, turns, source, sink),
        Words::Lossy { first } => start_lossy(alloc, first, source, sink),
        Words::Explore => start_explore(alloc, EXPLORE_MOST, EXPLORE_FIRST, source, sink),
        Words::ExploreMost { most } => start_explore(alloc, most, EXPLORE_FIRST, source, sink),
        Words::ExploreFrom { most, first } => start_explore(alloc, most, first, source, sink),
        Words::Run | Words::RunOn { .. } | Words::Crew { .. } => unreachable!(),
        Words::Judge | Words::JudgeFor { .. } => unreachable!(),
        Words::Promises | Words::PromisesFor { .. } => unreachable!(),
        Words::Check | Words::CheckMost { .. } | Words::CheckDrawn { .. } => unreachable!(),
    }
}

/// Does the program's word `replay`, on sites that are started for it.
fn start_replay<S: Source, K: Sink>(alloc: Global, source: &mut S, sink: &mut K) -> Finished
    ensures { EndsAsReplay replay_layout result S.left S.faults S.reliable
        source.old source.new K.held K.faults sink.old sink.new }
{
    match start(alloc, PROGRAM_SITES) {
        Ok(sites) => replay(alloc, source, sink, sites),
        Err(_) => closed_nothing(Status::Memory),
    }
}

/// Does the program's word `load`, on sites that are started for it.
fn start_load<K: Sink>(alloc: Global, first: u64, commands: u32, sink: &mut K) -> Finished
    requires { commands ≤ LOAD_LIMIT }
    ensures { EndsAsLoad first commands result K.held K.faults sink.old sink.new }
{
    match start(alloc, LOAD_SITES) {
        Ok(sites) => load(alloc, first, commands, sink, sites),
        Err(_) => closed_nothing(Status::Memory),
    }
}

/// Does the program's word `audit`: audits what the source gives, for so many sites with so many places each.
fn start_audit<S: Source, K: Sink>(
    alloc: Global,
    sites: u16,
    turns: u16,
    source: &mut S,
    sink: &mut K,
) -> Finished
    requires { IsLayout (places_each sites turns) }
    ensures audits { EndsAsAudit (places_each sites turns) result
        (S.left source.old) (S.left source.new) (K.held sink.old) (K.held sink.new) }
    ensures causes { EndsWithCause result S.faults S.reliable source.old source.new
        K.faults sink.old sink.new }
{
    let layout = Layout::new(sites, turns).unwrap();
    closed_nothing(audit(alloc, layout, source, sink))
}

/// Does the program's word `picture`: draws what the source gives, for so many sites with so many places each.
fn start_picture<S: Source, K: Sink>(
    alloc: Global,
    sites: u16,
    turns: u16,
    source: &mut S,
    sink: &mut K,
) -> Finished
    requires { IsLayout (places_each sites turns) }
    ensures draws { EndsAsPicture (places_each sites turns) result
        (S.left source.old) (S.left source.new) (K.held sink.old) (K.held sink.new) }
    ensures causes { EndsWithCause result S.faults S.reliable source.old source.new
        K.faults sink.old sink.new }
{
    let layout = Layout::new(sites, turns).unwrap();
    closed_nothing(picture(alloc, layout, source, sink))
}

/// Does the program's word `lossy`: carries what the source gives over two ends that are made for it.
fn start_lossy<S: Source, K: Sink>(
    alloc: Global,
    first: u64,
    source: &mut S,
    sink: &mut K,
) -> Finished
    ensures carries { EndsAsLossy first result
        (S.left source.old) (S.left source.new) (K.held sink.old) (K.held sink.new) }
    ensures causes { EndsWithCause result S.faults S.reliable source.old source.new
        K.faults sink.old sink.new }
{
    let mut sender = Sender::new(alloc, WINDOW).unwrap();
    let mut receiver = Receiver::new(alloc, WINDOW).unwrap();
    closed_nothing(lossy(alloc, first, source, sink, &mut sender, &mut receiver))
}

/// Does the program's word `explore`: tells what may come of the scenario that the source gives, with at most so many events
/// carried out, and schedules drawn from this first state on where that limit is met.
fn start_explore<S: Source, K: Sink>(
    alloc: Global,
    most: u32,
    first: u64,
    source: &mut S,
    sink: &mut K,
) -> Finished
    ensures explores { EndsAsExplored most first result S.left S.faults S.reliable source.old source.new
        K.held K.faults sink.old sink.new }
    ensures causes { EndsWithCause result S.faults S.reliable source.old source.new
        K.faults sink.old sink.new }
{
    let layout = Layout::new(PROGRAM_SITES, 1).unwrap();
    closed_nothing(explore(alloc, layout, most, first, source, sink))
}

/// Starts so many sites, with one place each, for a replay or a load by the program's words.
fn start(alloc: Global, sites: u16) -> Result<Sites, AllocError>
    requires { IsLayout (one_place_each sites) }
    ensures { IfOk result (λ started. AreJustStarted (net started)
        × ((net started).layout ≡ one_place_each sites)) }
{
    Sites::start(alloc, Layout::new(sites, 1).unwrap())
}

/// The end of the program with this status, where nothing was closed.
pub(crate) fn closed_nothing(status: Status) -> Finished
    ensures { result ≡ record { status = status; closed = None } }
{
    Finished {
        status,
        closed: None,
    }
}
