//! A pool of workers, each in a thread.
ghost use Rattle.std.specs.Prelude.{◌≡◌, ◌≢◌, ℕ, ◌<◌, ◌⊎◌, ◌↔◌, [], length, All, AllPairs, IsTrue, IfOk, IfErr, IfSome, OnErr, Err, Some, false, slice_get, vec_len};
ghost use Rattle.std.specs.Arc.{arc_value};
ghost use Rattle.crossbeam_channel.specs.Claims.{IsSeatAt};
ghost use Rattle.crossbeam_channel.specs.Ends.{sends_on, receives_on};
ghost use Rattle.search_pool.specs.Desks.{IsManned};
ghost use Rattle.search_pool.specs.Limits.{worker_limit};
ghost use Rattle.search_pool.specs.Passes.{IsOfTrace};
ghost use Rattle.search_pool.specs.Pools.{AreRising, IsFull, IsPooled, Submits, Collects, IsTaken};
ghost use Rattle.search_pool.specs.declared.refusal.CollectRefusal.TheVariants.{NothingPending};
ghost use Rattle.search_pool.specs.declared.refusal.StartRefusal.TheVariants.{BadCount};
ghost use Rattle.search_pool.specs.declared.refusal.SubmitRefusal.TheVariants.{Busy};

use crate::line::{
    AnswerPass, AnswerReceiver, MAX_PENDING, RequestPass, RequestSender, answer_line, give_request,
    next_answer, request_line,
};
use crate::outcome::Found;
use crate::refusal::{CollectRefusal, StartRefusal, SubmitRefusal};
use crate::request::{Posed, Request, is_same, request_copy};
use crate::worker::{Desk, Gate, hire_all};
use event_index::Indexed;
use shb_clocks::Clocks;
use std::alloc::Global;
use std::marker::{Model, PhantomData};
use std::snapshot::Snapshot;
use std::sync::{Arc, Wait};
use std::thread::{JoinHandle, Threads};

/// The most workers of a pool.
const MAX_WORKERS: usize = 32;

/// Workers that slice and search on one trace, and the requests that wait for their answers. Its owner has to call
/// `stop`.
pub struct Pool<G: Gate + Drop> {
    alloc: Global,
    of: Snapshot<Indexed>,
    requests: RequestSender,
    request_pass: RequestPass,
    answers: AnswerReceiver,
    answer_pass: AnswerPass,
    submitted: u32,
    pending: Vec<Posed>,
    workers: Vec<JoinHandle<()>>,
    gates: PhantomData<G>,
}

impl<G: Gate + Drop> Model for Pool<G> {
    ghost use Rattle.crossbeam_channel.specs.Claims.{IsSeatAt};
    ghost use Rattle.crossbeam_channel.specs.Ends.{sends_on, receives_on};
    ghost use Rattle.search_pool.specs.Passes.{IsOfTrace};
    ghost use Rattle.search_pool.specs.Pools.{Pooled, IsPooled};

    ghost Value = { Pooled };

    ghost view = { λ s. record {
      trace = s.of.value;
      submitted = s.submitted;
      pending = s.pending.items;
    } };

    ghost invariant = { λ s.
        IsPooled s.submitted s.pending.items × IsSeatAt (sends_on s.requests) s.request_pass × IsSeatAt (receives_on s.answers) s.answer_pass × IsOfTrace s.of.value s.answer_pass };
}

impl<G: Gate + Drop + Send + 'static> Pool<G> {
    /// Starts a worker for each gate. The clocks are of the trace of the index. The call does not wait. Fails with 64
    /// to 66; the workers that were started then end.
    pub fn start<R: Threads + Wait + Clone + Send + Drop + 'static>(
        rt: &R,
        alloc: Global,
        indexed: Arc<Indexed>,
        clocks: Arc<Clocks>,
        gates: Vec<G>,
    ) -> Result<Pool<G>, StartRefusal>
        requires trace { arc_value clocks ≡ arc_value indexed }
        // A started pool is of that trace, and has no requests.
        ensures trace { IfOk result (λ pool. pool.trace ≡ arc_value indexed) }
        ensures submitted { IfOk result (λ pool. pool.submitted ≡ 0) }
        ensures pending { IfOk result (λ pool. pool.pending ≡ []) }
        // The call fails with `BadCount` exactly if there are not 1 to 32 gates.
        ensures count { (result ≡ Err BadCount) ↔ ((vec_len gates ≡ 0) ⊎ (worker_limit < vec_len gates)) }
    {
        if gates.len() == 0 {
            return Err(StartRefusal::BadCount);
        }
        if gates.len() > MAX_WORKERS {
            return Err(StartRefusal::BadCount);
        }
        Pool::start_all(rt, alloc, indexed, clocks, gates)
    }

    // The same without a check of the count.
    fn start_all<R: Threads + Wait + Clone + Send + Drop + 'static>(
        rt: &R,
        alloc: Global,
        indexed: Arc<Indexed>,
        clocks: Arc<Clocks>,
        gates: Vec<G>,
    ) -> Result<Pool<G>, StartRefusal>
        requires trace { arc_value clocks ≡ arc_value indexed }
        ensures trace { IfOk result (λ pool. pool.trace ≡ arc_value indexed) }
        ensures submitted { IfOk result (λ pool. pool.submitted ≡ 0) }
        ensures pending { IfOk result (λ pool. pool.pending ≡ []) }
        ensures count { IfErr result (λ why. why ≢ BadCount) }
    {
        let (requests, taken, request_pass) = request_line(alloc)?;
        let (given, answers, answer_pass) = answer_line(alloc, &indexed)?;
        let mut own = Desk {
            alloc,
            indexed,
            clocks,
            requests: taken,
            request_pass,
            answers: given,
            answer_pass,
        };
        match hire_all(rt, &requests, &mut own, gates) {
            Ok(workers) => Ok(Pool::of_workers(requests, answers, own, workers)),
            Err(why) => Err(why),
        }
    }

    // The pool of these workers. `own` is the desk from which their desks were made.
    fn of_workers(
        requests: RequestSender,
        answers: AnswerReceiver,
        own: Desk,
        workers: Vec<JoinHandle<()>>,
    ) -> Pool<G>
        requires manned { IsManned own }
        requires requests { receives_on own.requests ≡ sends_on requests }
        requires answers { receives_on answers ≡ sends_on own.answers }
        ensures trace { result.trace ≡ arc_value own.indexed }
        ensures submitted { result.submitted ≡ 0 }
        ensures pending { result.pending ≡ [] }
    {
        let Desk {
            alloc,
            indexed,
            clocks: _,
            requests: taken,
            request_pass,
            answers: given,
            answer_pass,
        } = own;
        // Only the workers keep the ends that receive requests and send answers.
        drop(taken);
        drop(given);
        Pool {
            alloc,
            of: Snapshot::of(&*indexed),
            requests,
            request_pass,
            answers,
            answer_pass,
            submitted: 0,
            pending: Vec::new(alloc),
            workers,
            gates: PhantomData,
        }
    }

    /// Submits a request, and returns its number: how many were submitted before it. Fails with 64, 68 or 69.
    pub fn submit<R: Wait>(&mut self, rt: &R, request: Request) -> Result<u32, SubmitRefusal>
        // The request is then pending, after the others.
        ensures ok { IfOk result (λ number. Submits self.old request number self.new) }
        ensures refused { OnErr result (self.new ≡ self.old) }
        // The call fails with `Busy` exactly if 64 requests are pending or 4,294,967,295 were submitted.
        ensures busy { (result ≡ Err Busy) ↔ IsFull self.old }
    {
        if self.pending.len() == MAX_PENDING {
            return Err(SubmitRefusal::Busy);
        }
        if self.submitted == u32::MAX {
            return Err(SubmitRefusal::Busy);
        }
        let number = self.submitted;
        let Ok(copy) = request_copy(self.alloc, &request) else {
            return Err(SubmitRefusal::OutOfMemory);
        };
        let Ok(()) = self.pending.reserve(1) else {
            return Err(SubmitRefusal::OutOfMemory);
        };
        let posed = Posed {
            number,
            request: copy,
        };
        if !give_request(rt, &self.requests, &mut self.request_pass, posed) {
            return Err(SubmitRefusal::Stopped);
        }
        let _ = self.pending.push(Posed { number, request });
        self.submitted += 1;
        Ok(number)
    }

    /// Waits for the next answer to a pending request, and returns it. Fails with 67 if no request is pending, and
    /// with 69 if the workers have stopped.
    pub fn collect<R: Wait>(&mut self, rt: &R) -> Result<Found, CollectRefusal>
        // The answer is right for its request on the pool's trace, and the request is no longer pending.
        ensures ok { IfOk result (λ found. Collects self.old found self.new) }
        ensures refused { OnErr result (self.new ≡ self.old) }
        ensures none { (result ≡ Err NothingPending) ↔ (self.old.pending ≡ []) }
    {
        if self.pending.len() == 0 {
            return Err(CollectRefusal::NothingPending);
        }
        let Some(answer) = next_answer(rt, &self.answers, &mut self.answer_pass) else {
            return Err(CollectRefusal::Stopped);
        };
        if !take_out(&mut self.pending, answer.posed()) {
            return Err(CollectRefusal::Stopped);
        }
        Ok(answer.into_found())
    }

    /// Ends the workers, each after at most one more request, and waits until they have ended.
    pub fn stop<R: Threads + Wait>(self, rt: &R) {
        let Pool {
            alloc: _,
            of: _,
            requests,
            request_pass: _,
            answers,
            answer_pass: _,
            submitted: _,
            pending: _,
            workers,
            gates: _,
        } = self;
        drop(requests);
        drop(answers);
        for worker in workers {
            worker.join(rt);
        }
    }
}

// The index of the request among the pending ones, or None.
fn place_of(pending: &[Posed], posed: &Posed) -> Option<usize>
    ensures { IfSome result (λ at. slice_get pending.now at ≡ Some posed.now) }
{
    for at in 0..pending.len() {
        if is_same(&pending[at], posed) {
            return Some(at);
        }
    }
    None
}

// Removes the request from the pending ones, and returns whether it was one of them.
fn take_out(pending: &mut Vec<Posed>, posed: &Posed) -> bool
    requires { AreRising pending.old.items }
    ensures taken { IsTrue result → IsTaken posed.now pending.old.items pending.new.items }
    ensures gone { IsTrue result → All (λ p. p.number ≢ posed.now.number) pending.new.items }
    ensures pooled { (n : ℕ) → IsPooled n pending.old.items → IsPooled n pending.new.items }
    ensures none { result ≡ false → pending.new.items ≡ pending.old.items }
{
    let Some(at) = place_of(pending, posed) else {
        return false;
    };
    drop(pending.remove(at));
    true
}
