//! Reads the scripts that run at the same time, one for each client.
ghost use Rattle.std.specs.Prelude.{◌≡◌, ◌≤◌, ◌+◌, [], All, map, false, vec_len, IfOk, IfErr, OnOk};
ghost use Rattle.calls.specs.ScriptInputs.{AddsScript, AreScripts, IsFirstFault, IsScriptFault, IsScriptOf, IsTextFault};

use crate::fault::BenchFault;
use client_scripts::{Script, ScriptCause, ScriptRefusal, Source, read_input, read_script};
use rapid_text::TextKeyed;
use std::alloc::Global;
use std::hash::{DefaultHasher, Hasher};

/// The most scripts of one run, so that one of 32 clients is left to propose what workers find.
pub const MAX_SCRIPTS: usize = 31;

/// The scripts in the order of their clients, with hashers for the names that they choose.
#[derive(Drop)]
pub(crate) struct Scripts {
    pub(crate) scripts: Vec<Script>,
    // It has hashed the text of each script.
    texts: DefaultHasher,
}

/// Reads a script whose lines must all be calls of this client.
fn script_of(alloc: Global, text: &[u8], client: u32) -> Result<Script, BenchFault>
    ensures ok { IfOk result (λ asked. IsScriptOf client text.now asked) }
    ensures err { IfErr result (λ fault. IsTextFault client text.now fault) }
{
    let script = match read_script(alloc, text) {
        Ok(script) => script,
        Err(refusal) => return Err(BenchFault::of_script(client, refusal)),
    };
    match script.stranger(client) {
        Some(line) => Err(BenchFault::of_script(
            client,
            ScriptRefusal {
                line,
                why: ScriptCause::BadClient,
            },
        )),
        None => Ok(script),
    }
}

impl Scripts {
    /// No scripts.
    fn empty(alloc: Global) -> Scripts
        ensures count { vec_len result.scripts ≡ 0 }
        ensures none { result.scripts.items ≡ [] }
    {
        Scripts {
            scripts: Vec::new(alloc),
            texts: DefaultHasher::new(),
        }
    }

    /// Reads the next script, which is that of the next client.
    fn read_next<S: Source>(&mut self, alloc: Global, reader: &mut S) -> Result<(), BenchFault>
        requires reader { S.has_failed reader.old ≡ false }
        requires few { vec_len self.old.scripts ≤ 30 }
        ensures count { OnOk result (vec_len self.new.scripts ≡ vec_len self.old.scripts + 1) }
        ensures read { OnOk result (AddsScript (S.rest reader.old) self.old.scripts self.new.scripts) }
        ensures fault { IfErr result (IsScriptFault (vec_len self.old.scripts + 1) (S.rest reader.old)) }
    {
        let client = self.scripts.len() as u32 + 1;
        let text = read_input(alloc, reader, client + 1)?;
        self.texts.write(&text);
        let script = script_of(alloc, &text, client)?;
        self.scripts.push(script)?;
        Ok(())
    }

    /// Makes hashers for the names in the scripts. Their key comes from the scripts' texts.
    pub(crate) fn keyed(&self) -> TextKeyed {
        TextKeyed::of(&self.texts.finish().to_le_bytes())
    }
}

/// Reads the scripts, that of client 1 first. Script i is input i + 1 in faults.
pub(crate) fn read_scripts<S: Source + Drop>(
    alloc: Global,
    readers: Vec<S>,
) -> Result<Scripts, BenchFault>
    requires readers { All (λ s. S.has_failed s ≡ false) readers.items }
    requires few { vec_len readers ≤ 31 }
    ensures count { IfOk result (λ r. vec_len r.scripts ≡ vec_len readers) }
    ensures read { IfOk result (λ r. AreScripts 1 (map (λ s. S.rest s) readers.items) r.scripts.items) }
    ensures fault { IfErr result (λ fault. IsFirstFault (map (λ s. S.rest s) readers.items) fault) }
{
    let mut all = Scripts::empty(alloc);
    for mut reader in readers {
        match all.read_next(alloc, &mut reader) {
            Ok(()) => {}
            Err(fault) => return Err(fault),
        }
    }
    Ok(all)
}
