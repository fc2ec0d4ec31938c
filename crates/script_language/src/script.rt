//! A script: its calls, each with its line and its client.
ghost use Rattle.std.specs.Prelude.{◌≡◌, ◌<◌, ◌≤◌, [], ◌∷◌, ◌++◌, option_map, slice_get, length, OnOk, Some};
ghost use Rattle.dependence.specs.Limits.{client_limit};
ghost use Rattle.script_language.specs.ScriptCalls.{call_given, call_there};
ghost use Rattle.script_language.specs.Scripts.{asked, stranger_line};
ghost use Rattle.script_language.specs.Simple.{AddsSimple, IsSimple};

use crate::kept::{Form, Kept, keep, keep_simple, made};
use crate::plain::{GivenCall, PlainCall};
use crate::simple::Simple;
use inverse_log::Call;
use rapid_text::OutOfMemory;
use std::alloc::Global;
use std::marker::Model;

/// The calls of a script, each with its client and its line. Contracts see it as the list of its calls.
///
/// It keeps 24 bytes for each call, and the names in it. It keeps a call that owns memory as it was read.
#[derive(Drop)]
pub struct Script {
    kept: Vec<Kept>,
    // the bytes of the names, in the order in which they were read
    names: Vec<u8>,
    // the calls that own memory
    owned: Vec<Call>,
}

impl Model for Script {
    ghost use Rattle.std.specs.Prelude.{List};
    ghost use Rattle.script_language.specs.Kept.{calls_in, AreKept};
    ghost use Rattle.script_language.specs.Scripts.{Asked};

    ghost Value = { List Asked };

    ghost view = { calls_in };

    ghost invariant = { AreKept };
}

/// A call of a script: made from what the script keeps, or borrowed if it owns memory. Neither needs memory.
#[derive(Drop)]
pub enum ScriptCall<'a> {
    /// A call that owns no memory.
    Made(Call),
    /// A call that the script keeps, borrowed.
    Lent(&'a Call),
}

impl<'a> ScriptCall<'a> {
    /// The call.
    pub fn get(&self) -> &Call
        ensures { result.now ≡ call_given self.now }
    {
        match self {
            ScriptCall::Made(call) => call,
            ScriptCall::Lent(call) => call,
        }
    }
}

impl Script {
    /// A script without calls.
    pub(crate) fn empty(alloc: Global) -> Script
        ensures { result ≡ [] }
    {
        Script {
            kept: Vec::new(alloc),
            names: Vec::new(alloc),
            owned: Vec::new(alloc),
        }
    }

    /// Appends a call.
    pub(crate) fn push(&mut self, line: u64, client: u32, call: Call) -> Result<(), OutOfMemory>
        requires client { (1 ≤ client) × (client ≤ client_limit) }
        ensures { OnOk result (self.new ≡ self.old ++ asked line client call ∷ []) }
    {
        let kept = keep(&mut self.names, &mut self.owned, line, client, call)?;
        self.kept.push(kept)?;
        Ok(())
    }

    /// Appends a call that owns no memory.
    pub(crate) fn push_simple(
        &mut self,
        line: u64,
        client: u32,
        simple: &Simple<'_>,
    ) -> Result<(), OutOfMemory>
        requires client { (1 ≤ client) × (client ≤ client_limit) }
        requires simple { IsSimple simple.now }
        ensures { OnOk result (AddsSimple self.old line client simple.now self.new) }
    {
        let kept = keep_simple(&mut self.names, line, client, simple)?;
        self.kept.push(kept)?;
        Ok(())
    }

    /// The number of calls.
    pub fn len(&self) -> usize
        ensures { result ≡ length self.now }
    {
        self.kept.len()
    }

    /// The line of a call, counted from 1 over all lines of the script.
    pub fn line(&self, at: usize) -> u64
        requires { at < length self.now }
        ensures { option_map (λ asked. asked.line) (slice_get self.now at) ≡ Some result }
    {
        self.kept[at].line
    }

    /// The client of a call, from 1 to 32.
    pub fn client(&self, at: usize) -> u32
        requires { at < length self.now }
        ensures client { option_map (λ asked. asked.client) (slice_get self.now at) ≡ Some result }
        ensures within { (1 ≤ result) × (result ≤ client_limit) }
    {
        u32::from(self.kept[at].client)
    }

    /// Returns the call with this index. Needs no memory.
    pub fn call(&self, at: usize) -> ScriptCall<'_>
        requires { at < length self.now }
        ensures { option_map (λ asked. asked.call) (slice_get self.now at) ≡ Some (call_given result) }
    {
        let kept = &self.kept[at];
        match kept.form {
            Form::Owned => ScriptCall::Lent(&self.owned[kept.at]),
            _ => ScriptCall::Made(made(&self.names, kept)),
        }
    }

    /// The same, but does not make a call that owns no memory yet.
    pub fn given(&self, at: usize) -> GivenCall<'_>
        requires { at < length self.now }
        ensures { option_map (λ asked. asked.call) (slice_get self.now at) ≡ Some (call_there result) }
    {
        let kept = &self.kept[at];
        match kept.form {
            Form::Owned => GivenCall::Lent(&self.owned[kept.at]),
            _ => GivenCall::Plain(PlainCall::of(&self.names, kept)),
        }
    }

    /// Returns the line of the first call of another client, if there is one.
    pub fn stranger(&self, client: u32) -> Option<u64>
        ensures { result ≡ stranger_line client self.now }
    {
        for at in 0..self.len() {
            if self.client(at) != client {
                return Some(self.line(at));
            }
        }
        None
    }
}
