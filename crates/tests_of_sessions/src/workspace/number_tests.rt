//! What no clause says of refused memory: that the numbers under each name and of each client are put there, and that where memory was
//! wanting all are as they were.
ghost use Rattle.std.specs.Prelude.{◌≡◌, [], ℕ, List, IfSome};
ghost use Rattle.dependence.specs.Lists.{under, of_client};

use crate::workspace::fixtures::name_of;
use dependence::{Clients, Touches};
use moves::{Command, Name};
use std::alloc::Global;

// Whether the entry 3 is under neither name, or under both.
fn are_under(touches: &Touches, one: &Name, two: &Name, is_there: bool) -> bool {
    let wanted = if is_there { Some(3) } else { None };
    touches.first_after(2, one) == wanted && touches.first_after(2, two) == wanted
}

// Whether the entry is put under both names, at a second call where memory was wanting at the first, which changed nothing.
fn is_put_under_both(touches: &mut Touches, one: Name, two: Name) -> bool
    requires { (x : List ℕ) → under touches.old x ≡ [] }
{
    let branch = Command::Branch {
        name: one,
        length: 1,
        to: two,
    };
    let is_put = touches.push(3, &branch).is_ok()
        || are_under(touches, &one, &two, false) && touches.push(3, &branch).is_ok();
    is_put && are_under(touches, &one, &two, true)
}

fn are_put_under_both(touches: &mut Touches, one: Name, two: Name) -> bool
    requires { (x : List ℕ) → under touches.old x ≡ [] }
{
    let commands = [Command::Fresh { name: one }, Command::Fresh { name: two }];
    let is_put = touches.push_all(3, commands.as_slice()).is_ok()
        || are_under(touches, &one, &two, false)
            && touches.push_all(3, commands.as_slice()).is_ok();
    is_put && are_under(touches, &one, &two, true)
}

// The same with no entries under any name before, of one command and of two.
fn is_entry_put(alloc: Global, one: Name, two: Name) -> bool {
    match Touches::empty(alloc) {
        Ok(mut touches) => is_put_under_both(&mut touches, one, two),
        Err(_) => false,
    }
}

fn is_batch_put(alloc: Global, one: Name, two: Name) -> bool {
    match Touches::empty(alloc) {
        Ok(mut touches) => are_put_under_both(&mut touches, one, two),
        Err(_) => false,
    }
}

fn are_entries_put(alloc: Global) -> bool {
    match (name_of(b'A'), name_of(b'B')) {
        (Some(one), Some(two)) => is_entry_put(alloc, one, two) && is_batch_put(alloc, one, two),
        _ => false,
    }
}

#[test]
fn memory_an_entry_is_put_under_all_names_or_none(rt: HostRuntime) {
    assert!(rt; are_entries_put(rt.alloc()));
}

fn clients_of(alloc: Global) -> Option<Clients>
    ensures { IfSome result (λ t. (c : ℕ) → of_client t c ≡ []) }
{
    match Clients::empty(alloc) {
        Ok(clients) => Some(clients),
        Err(_) => None,
    }
}

fn clients_again(alloc: Global) -> Option<Clients>
    ensures { IfSome result (λ t. (c : ℕ) → of_client t c ≡ []) }
{
    match clients_of(alloc) {
        Some(clients) => Some(clients),
        None => clients_of(alloc),
    }
}

fn is_put_in(clients: &mut Clients) -> bool
    requires { (c : ℕ) → of_client clients.old c ≡ [] }
{
    let is_put = clients.push(32, 3).is_ok()
        || clients.last(32).is_none() && clients.push(32, 3).is_ok();
    is_put && clients.last(32) == Some(3) && clients.last(31).is_none()
}

fn is_put_to_a_client(alloc: Global) -> bool {
    match clients_again(alloc) {
        Some(mut clients) => is_put_in(&mut clients),
        None => false,
    }
}

#[test]
fn memory_an_entry_is_put_to_its_client(rt: HostRuntime) {
    assert!(rt; is_put_to_a_client(rt.alloc()));
}
