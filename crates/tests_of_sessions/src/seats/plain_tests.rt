//! What no clause says of the calls of a script: that those which own no memory are given so that they are made where they are used.
//! A script that lends each call passes the check, and fails here.
ghost use Rattle.std.specs.Prelude.{◌<◌, length};

use crate::seats::fixtures::script_at_last;
use client_scripts::{GivenCall, Script};
use inverse_log::Call;
use moves::Name;

// Seven calls that own no memory, and a proposal. The first shows a schedule.
const CALLS: &[u8] =
    b"1 show Left\n1 races Left\n1 new Left\n1 branch Left 0 Right\n1 undo\n1 undo 3\n1 list\n1 propose 0 1 2\n";

fn name_shown(script: &Script, at: usize) -> Option<Name>
    requires { at < length script.now }
{
    match script.given(at) {
        GivenCall::Plain(call) => call.shown(),
        GivenCall::Lent(_) => None,
    }
}

fn is_plain(script: &Script, at: usize) -> bool
    requires { at < length script.now }
{
    match script.given(at) {
        GivenCall::Plain(_) => true,
        GivenCall::Lent(_) => false,
    }
}

// Whether a call is made as one that shows the schedule `Left`.
fn is_made_to_show(script: &Script, at: usize) -> bool
    requires { at < length script.now }
{
    match script.given(at) {
        GivenCall::Plain(call) => match call.made() {
            Call::Show(name) => name.bytes() == b"Left".as_slice(),
            other => {
                drop(other);
                false
            }
        },
        GivenCall::Lent(_) => false,
    }
}

fn is_right_at(script: &Script, at: usize) -> bool
    requires { at < length script.now }
{
    let is_named = match name_shown(script, at) {
        Some(name) => name.bytes() == b"Left".as_slice(),
        None => false,
    };
    is_named == (at == 0)
        && is_made_to_show(script, at) == (at == 0)
        && is_plain(script, at) == (at < 7)
}

fn are_right(script: &Script) -> bool {
    let mut are_right = script.len() == 8;
    for at in 0..script.len() {
        are_right = is_right_at(script, at) && are_right;
    }
    are_right
}

#[test]
fn first_call_alone_shows_a_schedule(rt: HostRuntime) {
    let is_right = match script_at_last(rt.alloc(), CALLS) {
        Some(script) => {
            let are_right = are_right(&script);
            drop(script);
            are_right
        }
        None => false,
    };
    assert!(rt; is_right);
}
