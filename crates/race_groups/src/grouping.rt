//! Sorts classes by their variables, so that a walk over those of one variable goes through memory in one direction.
ghost use Rattle.std.specs.Prelude.{◌≡◌, ◌≤◌, ◌<◌, ℕ, All, IfOk, Some, length, slice_get, slice_index};
ghost use Rattle.race_groups.specs.Building.{AreAlike, AreElements, IsRegrouped};
ghost use Rattle.rapid_text.specs.Appended.{IfFound};

use crate::class::Class;
use crate::classes::{is_at, variable_of};
use rapid_text::OutOfMemory;
use std::alloc::Global;

/// The classes in another order, and the number of each event's class.
#[derive(Drop)]
pub(crate) struct Regrouped {
    pub(crate) numbers: Vec<u32>,
    pub(crate) infos: Vec<Class>,
}

/// The classes in the order of their variables. The result is compared with the original before it is used; None if
/// they differ.
pub(crate) fn grouped(
    alloc: Global,
    numbers: &[u32],
    infos: &[Class],
    members: &[Vec<u32>],
) -> Result<Option<Regrouped>, OutOfMemory>
    requires { All (λ c. c < length infos.now) numbers.now }
    ensures { IfFound result (IsRegrouped numbers.now infos.now) }
{
    let order = order_of(alloc, infos, members)?;
    let made = picked(alloc, infos, order.as_slice())?;
    let places = places_in(alloc, infos.len(), order.as_slice())?;
    let found = renumbered(alloc, numbers, infos, made.as_slice(), places.as_slice())?;
    let Some(after) = found else {
        return Ok(None);
    };
    Ok(Some(Regrouped {
        numbers: after,
        infos: made,
    }))
}

// The numbers of all classes: those of each variable, and then those that access none.
fn order_of(alloc: Global, infos: &[Class], members: &[Vec<u32>]) -> Result<Vec<u32>, OutOfMemory> {
    let mut order = Vec::with_capacity(alloc, infos.len())?;
    for of_variable in members {
        order.extend_from_slice(of_variable.as_slice())?;
    }
    for class in 0..infos.len() {
        if variable_of(infos[class].op).is_none() {
            order.push(u32::try_from(class).unwrap_or(0))?;
        }
    }
    Ok(order)
}

// The classes with these numbers.
fn picked(alloc: Global, infos: &[Class], order: &[u32]) -> Result<Vec<Class>, OutOfMemory>
    ensures { IfOk result (λ made. AreElements infos.now made.items) }
{
    let mut made = Vec::with_capacity(alloc, order.len())?;
    for number in order {
        if let Some(info) = infos.get(*number as usize) {
            made.push(*info)?;
        }
    }
    Ok(made)
}

// The index of each of `many` numbers in the order.
fn places_in(alloc: Global, many: usize, order: &[u32]) -> Result<Vec<u32>, OutOfMemory> {
    let mut places = vec![in alloc; 0u32; many]?;
    for at in 0..order.len() {
        if let Some(place) = places.as_mut_slice().get_mut(order[at] as usize) {
            *place = u32::try_from(at).unwrap_or(0);
        }
    }
    Ok(places)
}

// The number of each event's class among the new ones. None if a class is not at its index.
fn renumbered(
    alloc: Global,
    numbers: &[u32],
    infos: &[Class],
    made: &[Class],
    places: &[u32],
) -> Result<Option<Vec<u32>>, OutOfMemory>
    requires within { All (λ c. c < length infos.now) numbers.now }
    ensures len { IfFound result (λ after. length after.items ≡ length numbers.now) }
    ensures same { IfFound result (λ after. AreAlike numbers.now infos.now after.items made.now (length numbers.now)) }
    ensures few { IfFound result (λ after. length made.now ≤ length infos.now) }
{
    if made.len() > infos.len() {
        return Ok(None);
    }
    let mut after = Vec::with_capacity(alloc, numbers.len())?;
    for at in 0..numbers.len() {
        let class = class_at(infos, numbers, at);
        let place = place_of(places, numbers[at]);
        if !is_at(made, place as usize, class) {
            return Ok(None);
        }
        after.push(place)?;
    }
    Ok(Some(after))
}

// The class of an event.
fn class_at(infos: &[Class], numbers: &[u32], at: usize) -> Class
    requires at { at < length numbers.now }
    requires within { All (λ c. c < length infos.now) numbers.now }
    ensures { slice_get infos.now (slice_index numbers.now at) ≡ Some result }
{
    infos[numbers[at] as usize]
}

fn place_of(places: &[u32], number: u32) -> u32 {
    match places.get(number as usize) {
        Some(place) => *place,
        None => 0,
    }
}
