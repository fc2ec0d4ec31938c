//! The work of a worker: request after request, until no request can come or nobody receives the answers.
ghost use Rattle.std.specs.Prelude.{◌≡◌, ◌≢◌, IfOk, IfErr};
ghost use Rattle.std.specs.Arc.{arc_value};
ghost use Rattle.crossbeam_channel.specs.Ends.{sends_on, receives_on};
ghost use Rattle.search_pool.specs.Desks.{IsManned};
ghost use Rattle.search_pool.specs.declared.refusal.StartRefusal.TheVariants.{BadCount};

use crate::answer::Answer;
use crate::line::{
    AnswerPass, AnswerSender, RequestPass, RequestReceiver, RequestSender, another_answerer,
    another_requester, give_answer, next_request,
};
use crate::outcome::work_on;
use crate::refusal::StartRefusal;
use event_index::Indexed;
use shb_clocks::Clocks;
use std::alloc::{AllocError, Global};
use std::sync::{Arc, Wait};
use std::thread;
use std::thread::{JoinHandle, Threads};

/// A worker calls `pass` before it handles a request. If `pass` waits, that request and the worker's later ones wait
/// too.
pub trait Gate {
    /// Called with the number of the request.
    fn pass<R: Wait>(&mut self, rt: &R, request: u32);
}

/// What a worker owns: the trace with its clocks, and the channel ends that receive requests and send answers.
#[derive(Drop)]
pub(crate) struct Desk {
    pub(crate) alloc: Global,
    pub(crate) indexed: Arc<Indexed>,
    pub(crate) clocks: Arc<Clocks>,
    pub(crate) requests: RequestReceiver,
    pub(crate) request_pass: RequestPass,
    pub(crate) answers: AnswerSender,
    pub(crate) answer_pass: AnswerPass,
}

// Handles one request after another, until no request can come or nobody receives the answers.
fn work<R: Wait, G: Gate>(rt: &R, desk: &mut Desk, gate: &mut G)
    requires { IsManned desk.old }
{
    for _ in rt.forever() {
        let Some(posed) = next_request(rt, &desk.requests, &mut desk.request_pass) else {
            return;
        };
        gate.pass(rt, posed.number);
        let outcome = work_on(desk.alloc, &desk.indexed, &desk.clocks, &posed.request);
        let answer = Answer::new(&desk.indexed, posed, outcome);
        if !give_answer(rt, &desk.answers, &mut desk.answer_pass, answer) {
            return;
        }
    }
}

// Starts a worker with this gate. Fails if memory runs out or no thread can be started.
fn hire<R: Threads + Wait + Clone + Send + Drop + 'static, G: Gate + Drop + Send + 'static>(
    rt: &R,
    desk: Desk,
    gate: G,
) -> Result<JoinHandle<()>, StartRefusal>
    requires { IsManned desk }
    ensures count { IfErr result (λ why. why ≢ BadCount) }
{
    let own_rt = rt.clone()?;
    let Desk {
        alloc,
        indexed,
        clocks,
        requests,
        request_pass,
        answers,
        answer_pass,
    } = desk;
    // The parts of the desk move into the thread one by one.
    let spawned = thread::spawn(rt, move || {
        let own = Desk {
            alloc,
            indexed,
            clocks,
            requests,
            request_pass,
            answers,
            answer_pass,
        };
        serve(own_rt, own, gate)
    });
    match spawned {
        Ok(worker) => Ok(worker),
        Err(_) => Err(StartRefusal::NoThread),
    }
}

// Works until no work is left, and then drops everything.
fn serve<R: Wait + Drop, G: Gate + Drop>(rt: R, desk: Desk, gate: G)
    requires { IsManned desk }
{
    let mut own = desk;
    let mut own_gate = gate;
    work(&rt, &mut own, &mut own_gate);
}

// A further share of the trace and its clocks.
fn shared_again(own: &Desk) -> Result<(Arc<Indexed>, Arc<Clocks>), AllocError>
    ensures indexed { IfOk result (λ r. arc_value r.0 ≡ arc_value own.now.indexed) }
    ensures clocks { IfOk result (λ r. arc_value r.1 ≡ arc_value own.now.clocks) }
{
    let indexed = Arc::try_clone(&own.indexed)?;
    let clocks = Arc::try_clone(&own.clocks)?;
    Ok((indexed, clocks))
}

// Further ends that receive requests and send answers.
fn ends_again(own: &Desk) -> Result<(RequestReceiver, AnswerSender), AllocError>
    ensures requests { IfOk result (λ r. receives_on r.0 ≡ receives_on own.now.requests) }
    ensures answers { IfOk result (λ r. sends_on r.1 ≡ sends_on own.now.answers) }
{
    let requests = own.requests.try_clone()?;
    let answers = own.answers.try_clone()?;
    Ok((requests, answers))
}

// A further desk on the channels of the worker's own desk; `sender` is the sending end of its requests.
fn further_desk(sender: &RequestSender, own: &mut Desk) -> Result<Desk, AllocError>
    requires requests { receives_on own.old.requests ≡ sends_on sender.now }
    requires manned { IsManned own.old }
    ensures requests { receives_on own.new.requests ≡ sends_on sender.now }
    ensures answers { sends_on own.new.answers ≡ sends_on own.old.answers }
    ensures trace { arc_value own.new.indexed ≡ arc_value own.old.indexed }
    ensures manned { IsManned own.new }
    ensures made { IfOk result IsManned }
{
    let (indexed, clocks) = shared_again(own)?;
    let (requests, answers) = ends_again(own)?;
    Ok(Desk {
        alloc: own.alloc,
        indexed,
        clocks,
        requests,
        request_pass: another_requester(sender, &mut own.request_pass),
        answers,
        answer_pass: another_answerer(&own.answers, &mut own.answer_pass, &own.indexed),
    })
}

// Starts a worker at a further desk.
fn hire_further<R: Threads + Wait + Clone + Send + Drop + 'static, G: Gate + Drop + Send + 'static>(
    rt: &R,
    sender: &RequestSender,
    own: &mut Desk,
    gate: G,
) -> Result<JoinHandle<()>, StartRefusal>
    requires requests { receives_on own.old.requests ≡ sends_on sender.now }
    requires manned { IsManned own.old }
    ensures requests { receives_on own.new.requests ≡ sends_on sender.now }
    ensures answers { sends_on own.new.answers ≡ sends_on own.old.answers }
    ensures trace { arc_value own.new.indexed ≡ arc_value own.old.indexed }
    ensures manned { IsManned own.new }
    ensures count { IfErr result (λ why. why ≢ BadCount) }
{
    match further_desk(sender, own) {
        Ok(desk) => hire(rt, desk, gate),
        Err(_) => Err(StartRefusal::OutOfMemory),
    }
}

/// Starts a worker for each gate, each at a further desk. If one cannot be started, the workers before it end when
/// the ends of the channels are dropped.
pub(crate) fn hire_all<
    R: Threads + Wait + Clone + Send + Drop + 'static,
    G: Gate + Drop + Send + 'static,
>(
    rt: &R,
    sender: &RequestSender,
    own: &mut Desk,
    gates: Vec<G>,
) -> Result<Vec<JoinHandle<()>>, StartRefusal>
    requires requests { receives_on own.old.requests ≡ sends_on sender.now }
    requires manned { IsManned own.old }
    ensures requests { receives_on own.new.requests ≡ sends_on sender.now }
    ensures answers { sends_on own.new.answers ≡ sends_on own.old.answers }
    ensures trace { arc_value own.new.indexed ≡ arc_value own.old.indexed }
    ensures manned { IsManned own.new }
    ensures count { IfErr result (λ why. why ≢ BadCount) }
{
    let mut workers = Vec::new(own.alloc);
    for gate in gates {
        let worker = hire_further(rt, sender, own, gate)?;
        if workers.push(worker).is_err() {
            return Err(StartRefusal::OutOfMemory);
        }
    }
    Ok(workers)
}
