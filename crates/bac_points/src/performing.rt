//! Doing what `read`, `write` and `points` ask for.
ghost use Rattle.std.specs.Prelude.{◌≡◌, false, true, IfErr, IfOk, MatchOption};
ghost use Rattle.bac_driver.specs.Runs.{timed};
ghost use Rattle.bac_text.specs.Statuses.{IsFailure};
ghost use Rattle.bac_asking.specs.Online.{HasLooked, IsClient};
ghost use Rattle.bac_npdu.specs.Views.{peer_view};
ghost use Rattle.bac_environment.specs.Files.{OnFile};
ghost use Rattle.bac_environment.specs.Sockets.{OnClock, OnPort};
ghost use Rattle.bac_points.specs.Lists.{any_silent};
ghost use Rattle.bac_points.specs.Points.{ArePoints, IsWork};

use crate::listing::list;
use crate::reading::read;
use crate::silence::tell_silence;
use crate::task::{PointTask, PointWork};
use crate::writing::write;
use bac_asking::{Asking, Client, is_unheard, outcome_of, tell_unheard};
use bac_driver::AskEnd;
use bac_environment::{ClientSockets, Environment, OpenFiles};
use bac_npdu::Peer;
use bac_point_report::is_silent;
use bac_text::Status;
use std::alloc::Global;
use std::io::Write;

/// Who is asked, from where and how.
#[derive(Drop)]
pub(crate) struct Desk<'e, M> {
    pub alloc: Global,
    pub machine: &'e M,
    pub asking: &'e Asking,
    pub peer: Peer,
    /// Whether it is known before any ask that nothing listens where the node is.
    pub is_unheard: bool,
}

/// How the first ask ended that got no answer; None exactly if each got one.
fn first_silent(ends: &[AskEnd]) -> Option<&AskEnd>
    ensures { MatchOption result (any_silent ends.now ≡ false) (λ _. any_silent ends.now ≡ true) }
{
    let mut rest = ends;
    while let [end, more @ ..] = rest {
        if is_silent(outcome_of(end)) {
            return Some(end);
        }
        rest = more;
    }
    None
}

impl<'e, M: ClientSockets> Desk<'e, M> {
    /// A client that has asked nothing. Where there is none, `err` and the status say so.
    pub(crate) fn client<E: Write>(&self, err: &mut E) -> Result<Client<'e, M>, Status>
        ensures node { IfOk result (λ c. IsClient (OnPort M.is_bound M.Link.failures M.Link.calls) self.now.asking.now.host
            (timed c.station.bound_node (M.Timer.told c.station.clock))) }
        ensures clock { IfOk result (λ c. HasLooked (OnClock M.is_made M.Timer.told) (M.Timer.told c.station.clock)) }
        ensures failed { IfErr result IsFailure }
    {
        Client::new(self.alloc, self.machine, self.asking.host, err)
    }

    /// If nothing listens where the node is, `err` says so, and what to look at. Answers whether nothing does.
    pub(crate) fn tells_unheard<E: Write>(&self, err: &mut E) -> bool
        ensures { result ≡ self.now.is_unheard }
    {
        if self.is_unheard {
            tell_unheard(self.alloc, self.peer, err);
        }
        self.is_unheard
    }

    /// If an ask got no answer, `err` says so, and what to look at. Answers whether one did not.
    pub(crate) fn tell_if_silent<E: Write>(&self, ends: &[AskEnd], err: &mut E) -> bool
        ensures { result ≡ any_silent ends.now }
    {
        let Some(end) = first_silent(ends) else {
            return false;
        };
        let timeout = self.asking.timeout;
        tell_silence(
            self.alloc,
            self.machine,
            self.peer,
            timeout,
            outcome_of(end),
            err,
        );
        true
    }
}

/// Does that at a desk.
fn work_at<M: ClientSockets, O: Write, E: Write>(
    desk: &Desk<'_, M>,
    work: PointWork<'_, '_>,
    out: &mut O,
    err: &mut E,
) -> Status
    ensures { IsWork (OnPort M.is_bound M.Link.failures M.Link.calls) (OnClock M.is_made M.Timer.told) desk.now.asking.now (peer_view desk.now.peer)
        desk.now.is_unheard work.entry result (O.contents out.old) (O.contents out.new) }
{
    let done = match work {
        PointWork::Read(words) => read(desk, words, out, err),
        PointWork::Write(writing) => write(desk, writing, out, err),
        PointWork::List(listing) => list(desk, listing, out, err),
    };
    match done {
        Ok(true) => Status::Done,
        Ok(false) => Status::Faulty,
        Err(status) => status,
    }
}

/// Reads or writes properties of a node in the words that people use, or lists its objects. Returns `Faulty` if a property was not read or written, or the node
/// did not answer: `err` says so. Where the node is on this host and nothing listens at its port, it asks nothing.
///
/// If the words are for no property or value, prints `bad words` and which on `err`, and asks nothing.
pub fn do_with_points<F: OpenFiles, M: ClientSockets, O: Write, E: Write>(
    environment: &Environment<'_, F, M>,
    task: &PointTask<'_, '_>,
    out: &mut O,
    err: &mut E,
) -> Status
    ensures { ArePoints (OnFile F.is_file F.File.remaining) (OnPort M.is_bound M.Link.failures M.Link.calls) (OnClock M.is_made M.Timer.told) task.now result
        (O.contents out.old) (O.contents out.new) }
{
    let desk = Desk {
        alloc: environment.alloc,
        machine: environment.machine,
        asking: &task.asking,
        peer: task.peer,
        is_unheard: is_unheard(environment.alloc, environment.files, task.peer),
    };
    work_at(&desk, task.work, out, err)
}
