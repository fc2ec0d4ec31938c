//! The two channels of a pool. A pass of the channel of answers knows the trace of all answers in it. The channel of
//! requests has no rule.
ghost use Rattle.std.specs.Prelude.{◌≡◌, OnOk, OnErr, IfOk, IfErr, IsOk, Some, None, true, IfSome, IsTrue};
ghost use Rattle.rapid_text.specs.Recording.{Recording};
ghost use Rattle.crossbeam_channel.specs.Claims.{view, IsSeatAt};
ghost use Rattle.crossbeam_channel.specs.Ends.{sends_on, receives_on};
ghost use Rattle.search_pool.specs.Passes.{IsOfTrace};

use crate::answer::Answer;
use crate::request::Posed;
use crossbeam_channel::protocol::{Free, Lesson, Outcome, Protocol, Split};
use crossbeam_channel::{Pass, RuledReceiver, RuledSender, bounded_with};
use event_index::Indexed;
use rapid_text::OutOfMemory;
use std::alloc::Global;
use std::marker::{Brand, Model, PhantomData};
use std::sync::Wait;

/// The most requests that are pending at a time. The channels have room for this many requests and answers, so no
/// send waits.
pub(crate) const MAX_PENDING: usize = 64;

/// What a pass of the channel of answers knows: the trace, or nothing yet. This type has no values at run time.
pub(crate) struct View {
    nothing: (),
}

impl Model for View {
    ghost use Rattle.std.specs.Prelude.{Option, None};
    ghost use Rattle.rapid_text.specs.Recording.{Recording};

    ghost Value = { Option Recording };

    ghost view = { λ _. None };
}

/// The rule: all answers are of one trace, and a pass that knows a trace knows that one.
pub(crate) struct OneTrace;

impl Protocol<Answer, View> for OneTrace {
    ghost use Rattle.std.specs.Prelude.{None};
    ghost use Rattle.search_pool.specs.Passes.{OfOne};

    ghost holds = { OfOne };

    ghost first = { None };
}

// An answer is sent. It is of the trace that the pass knows.
struct Sent;

impl Outcome<Answer, View> for Sent {
    ghost use Rattle.std.specs.Prelude.{◌≡◌};

    ghost then = { λ v x w. w ≡ v };
}

impl Lesson<Answer, View> for Sent {
    ghost use Rattle.std.specs.Prelude.{⊤};

    ghost fact = { λ v items. ⊤ };
}

// An answer is received. It is of the trace that the pass knows.
struct Got;

impl Outcome<Answer, View> for Got {
    ghost use Rattle.std.specs.Prelude.{◌≡◌, Some};

    ghost then = { λ v x w. (w ≡ v) × (v ≡ Some x.trace) };
}

impl Lesson<Answer, View> for Got {
    ghost use Rattle.std.specs.Prelude.{⊤};

    ghost fact = { λ v items. ⊤ };
}

// A further pass that knows the same.
struct Alike;

impl<V> Split<V> for Alike {
    ghost left = { λ v. v };

    ghost right = { λ v. v };
}

// A trace that a proof names.
trait Named {
    ghost trace: { Recording };
}

impl Named for Brand {
    ghost use Rattle.std.specs.Prelude.{[]};

    ghost trace = { record {
      events = [];
      threads = [];
      variables = [];
      locks = [];
      locations = [];
    } };
}

// A pass that knows nothing learns the trace, while there is no answer and no other pass.
struct Name<N: Named> {
    of: PhantomData<N>,
}

impl<N: Named> Split<View> for Name<N> {
    ghost use Rattle.std.specs.Prelude.{Some};

    ghost left = { λ v. Some N.trace };

    ghost right = { λ v. Some N.trace };
}

/// The ends of the channel of requests.
pub(crate) type RequestSender = RuledSender<Posed, (), Free>;

pub(crate) type RequestReceiver = RuledReceiver<Posed, (), Free>;

pub(crate) type RequestPass = Pass<Posed, ()>;

/// The ends of the channel of answers.
pub(crate) type AnswerSender = RuledSender<Answer, View, OneTrace>;

pub(crate) type AnswerReceiver = RuledReceiver<Answer, View, OneTrace>;

pub(crate) type AnswerPass = Pass<Answer, View>;

/// A channel of requests, and a pass. Fails if memory runs out.
pub(crate) fn request_line(
    alloc: Global,
) -> Result<(RequestSender, RequestReceiver, RequestPass), OutOfMemory>
    ensures channel { IfOk result (λ r. receives_on r.1 ≡ sends_on r.0) }
    ensures pass { IfOk result (λ r. IsSeatAt (sends_on r.0) r.2) }
{
    let Ok(line) = bounded_with::<Posed, (), Free, Global>(alloc, MAX_PENDING) else {
        return Err(OutOfMemory);
    };
    Ok(line)
}

/// A further pass.
pub(crate) fn another_requester(sender: &RequestSender, pass: &mut RequestPass) -> RequestPass
    requires { IsSeatAt (sends_on sender.now) pass.old }
    ensures kept { IsSeatAt (sends_on sender.now) pass.new }
    ensures made { IsSeatAt (sends_on sender.now) result }
{
    sender.another::<Alike>(pass)
}

/// Sends the request, and returns whether it was sent. It is not sent if all workers have stopped.
pub(crate) fn give_request<R: Wait>(
    rt: &R,
    sender: &RequestSender,
    pass: &mut RequestPass,
    posed: Posed,
) -> bool
    requires { IsSeatAt (sends_on sender.now) pass.old }
    ensures { IsSeatAt (sends_on sender.now) pass.new }
{
    sender.send_as::<Free, R>(rt, pass, posed).ok().is_some()
}

/// The next request, or None after the pool has dropped its end.
pub(crate) fn next_request<R: Wait>(
    rt: &R,
    receiver: &RequestReceiver,
    pass: &mut RequestPass,
) -> Option<Posed>
    requires { IsSeatAt (receives_on receiver.now) pass.old }
    ensures { IsSeatAt (receives_on receiver.now) pass.new }
{
    receiver.recv_as::<Free, R>(rt, pass).ok()
}

// Makes the pass know the trace.
fn tell_trace<N: Named>(sender: &AnswerSender, pass: &mut AnswerPass, indexed: &Indexed)
    requires channel { IsSeatAt (sends_on sender.now) pass.old }
    requires alone { view pass.old ≡ None }
    requires trace { indexed.now ≡ N.trace }
    ensures channel { IsSeatAt (sends_on sender.now) pass.new }
    ensures trace { IsOfTrace indexed.now pass.new }
{
    let _ = indexed;
    let _other = sender.another::<Name<N>>(pass);
}

/// A channel of answers, and a pass that knows the trace of the index. Fails if memory runs out.
pub(crate) fn answer_line(
    alloc: Global,
    indexed: &Indexed,
) -> Result<(AnswerSender, AnswerReceiver, AnswerPass), OutOfMemory>
    ensures channel { IfOk result (λ r. receives_on r.1 ≡ sends_on r.0) }
    ensures pass { IfOk result (λ r. IsSeatAt (sends_on r.0) r.2) }
    ensures trace { IfOk result (λ r. IsOfTrace indexed.now r.2) }
{
    let Ok((sender, receiver, mut pass)) = bounded_with::<Answer, View, OneTrace, Global>(
        alloc,
        MAX_PENDING,
    ) else {
        return Err(OutOfMemory);
    };
    tell_trace::<Brand>(&sender, &mut pass, indexed);
    Ok((sender, receiver, pass))
}

/// A further pass that knows the same trace, which is that of the index.
pub(crate) fn another_answerer(
    sender: &AnswerSender,
    pass: &mut AnswerPass,
    indexed: &Indexed,
) -> AnswerPass
    requires channel { IsSeatAt (sends_on sender.now) pass.old }
    requires trace { IsOfTrace indexed.now pass.old }
    ensures kept { IsSeatAt (sends_on sender.now) pass.new }
    ensures kept_trace { IsOfTrace indexed.now pass.new }
    ensures made { IsSeatAt (sends_on sender.now) result }
    ensures made_trace { IsOfTrace indexed.now result }
{
    let _ = indexed;
    sender.another::<Alike>(pass)
}

/// Sends the answer, and returns whether it was sent. It is not sent if the pool has dropped its end.
pub(crate) fn give_answer<R: Wait>(
    rt: &R,
    sender: &AnswerSender,
    pass: &mut AnswerPass,
    answer: Answer,
) -> bool
    requires channel { IsSeatAt (sends_on sender.now) pass.old }
    requires trace { IsOfTrace answer.trace pass.old }
    ensures channel { IsSeatAt (sends_on sender.now) pass.new }
    ensures kept { view pass.new ≡ view pass.old }
{
    sender.send_as::<Sent, R>(rt, pass, answer).ok().is_some()
}

/// The next answer, or None after all workers have stopped.
pub(crate) fn next_answer<R: Wait>(
    rt: &R,
    receiver: &AnswerReceiver,
    pass: &mut AnswerPass,
) -> Option<Answer>
    requires channel { IsSeatAt (receives_on receiver.now) pass.old }
    requires knows { (t : Recording) × IsOfTrace t pass.old }
    ensures channel { IsSeatAt (receives_on receiver.now) pass.new }
    ensures kept { view pass.new ≡ view pass.old }
    ensures trace { IfSome result (λ answer. IsOfTrace answer.trace pass.old) }
{
    receiver.recv_as::<Got, R>(rt, pass).ok()
}
