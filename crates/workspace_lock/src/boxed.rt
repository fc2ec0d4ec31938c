//! The bench in a box.
ghost use Rattle.std.specs.Prelude.{◌≡◌, ◌≤◌, length, IfOk, IfErr};
ghost use Rattle.dependence.specs.Limits.{client_limit};
ghost use Rattle.inverse_log.specs.Answer.{Called, IsLegal};

use inverse_log::{Bench, Call, Refusal, Reply};
use std::alloc::{AllocFailed, Global};
use std::marker::Model;

/// A bench in a box, so that a turn moves a pointer instead of some 2,500 bytes. Contracts see it as the bench.
#[derive(Drop)]
pub struct BoxedBench {
    bench: Box<Bench>,
}

impl Model for BoxedBench {
    ghost use Rattle.inverse_log.specs.Log.{Benched};

    ghost Value = { Benched };

    ghost view = { λ b. b.bench.value };
}

impl BoxedBench {
    /// Puts the bench in a box. If memory runs out, returns the bench as the error.
    pub fn try_new(alloc: Global, bench: Bench) -> Result<BoxedBench, Bench>
        ensures ok { IfOk result (λ boxed. boxed ≡ bench) }
        ensures err { IfErr result (λ back. back ≡ bench) }
    {
        match Box::new(alloc, bench) {
            Ok(bench) => Ok(BoxedBench { bench }),
            Err(AllocFailed { value: bench }) => Err(bench),
        }
    }

    /// Returns the bench, without its box.
    pub fn into_bench(self) -> Bench
        ensures { result ≡ self }
    {
        let BoxedBench { bench } = self;
        Box::into_inner(bench)
    }

    /// Returns the number of log entries.
    pub fn log_len(&self) -> u64
        ensures len { result ≡ length self.now.log }
        ensures legal { IsLegal self.now.trace self.now.log }
    {
        self.bench.log_len()
    }

    /// Makes a call as this client, a number from 1 to 32.
    pub fn call(&mut self, client: u32, call: &Call) -> Result<Reply, Refusal>
        requires low { 1 ≤ client }
        requires high { client ≤ client_limit }
        ensures trace { self.new.trace ≡ self.old.trace }
        ensures call { Called self.old.trace self.old.log client call.now result self.new.log }
    {
        self.bench.call(client, call)
    }
}
