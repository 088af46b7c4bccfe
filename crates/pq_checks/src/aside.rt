//! What the other seat may do besides, while a call is held.
ghost use Rattle.std.specs.Prelude.{◌≡◌, ◌-◌, ◌<◌, true, [], length};
ghost use Rattle.pq_api.specs.Limits.{call_limit};
ghost use Rattle.pq_checks.specs.Checks.{HasMade};

use pq_api::SharedQueue;
use std::sync::Wait;

/// Something that a test does with a pass while another's call is held, such as a call that only one kind of queue has.
pub trait Aside<Q: SharedQueue>: Sync {
    /// Does it, and tells whether it went as it is to. It has then added no call to the history.
    fn goes<R: Wait + Sync>(&self, rt: &R, queue: &Q, pass: &mut Q::Pass) -> bool
        requires own { Q.belongs queue.now pass.old }
        requires few { length (Q.known pass.old).calls < call_limit - 1 }
        ensures own { Q.belongs queue.now pass.new }
        ensures none { result ≡ true → HasMade (Q.known pass.old) [] (Q.known pass.new) };
}

/// Nothing besides.
#[derive(Clone, Copy, Debug, PartialEq, Eq)]
pub struct Nothing;

impl<Q: SharedQueue> Aside<Q> for Nothing {
    fn goes<R: Wait + Sync>(&self, _rt: &R, _queue: &Q, _pass: &mut Q::Pass) -> bool {
        true
    }
}
