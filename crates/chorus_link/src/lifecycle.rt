//! How a link begins, and how it ends.
ghost use Rattle.std.specs.Prelude.{◌≡◌, ◌<◌, ◌++◌, IfOk};
ghost use Rattle.chorus_link.specs.Ends.{packets_put, packets_got, packets_left, fulls_of, empties_of};
ghost use Rattle.chorus_link.specs.Ends.{send_link, recv_link, room, AreNew};

use crate::ends::{RecvEnd, SendEnd};
use crate::rest::Rest;
use crate::rule::{Ends, Gets};
use crossbeam_queue::RuledArrayQueue;
use std::alloc::{AllocError, Global};
use std::sync::Arc;

/// Makes a link with room for `capacity` packets, and gives its two ends. Only this call takes memory.
#[tactic(auto, using(crate::proofs::Steps::steps))]
pub fn link<P: Drop>(alloc: Global, capacity: usize) -> Result<(SendEnd<P>, RecvEnd<P>), AllocError>
    requires { 0 < capacity }
    ensures one_link { IfOk result (λ r. (send_link r.0 ≡ recv_link r.1) × (room r.0 ≡ capacity)) }
    ensures empty { IfOk result (λ r. AreNew r.0 r.1) }
    ensures counts { IfOk result (λ r. (fulls_of r.0 ≡ 0) × (empties_of r.1 ≡ 0)) }
{
    let (queue, mut pass) = RuledArrayQueue::ruled(alloc, capacity)?;
    let reader = queue.another::<Ends>(&mut pass);
    let queue = Arc::new(alloc, queue)?;
    let theirs = Arc::try_clone(&queue)?;
    let send = SendEnd {
        queue,
        pass,
        fulls: 0,
    };
    let recv = RecvEnd {
        queue: theirs,
        pass: reader,
        empties: 0,
    };
    Ok((send, recv))
}

/// Ends a link: what was put is what was got, followed by the rest. Takes no memory and does not wait.
#[tactic(auto, using(crate::proofs::Steps::steps))]
pub fn settle<P: Drop>(send: SendEnd<P>, recv: RecvEnd<P>) -> Rest<P>
    requires { send_link send ≡ recv_link recv }
    ensures { packets_put send ≡ packets_got recv ++ packets_left result }
{
    let SendEnd {
        queue,
        mut pass,
        fulls: _,
    } = send;
    let RecvEnd {
        queue: _theirs,
        pass: reader,
        empties: _,
    } = recv;
    queue.absorb::<Ends>(&mut pass, reader);
    queue.learn_as::<Gets>(&mut pass);
    Rest { queue, pass }
}
