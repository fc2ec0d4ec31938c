//! Keeps one copy of equal locations and gives each a number, so that comparing them is quick.
ghost use Rattle.std.specs.Prelude.{◌≡◌, IfOk, IfSome};

use indexmap::IndexSet;
use rapid_text::{OutOfMemory, TextKeyed};
use std::alloc::Global;
use std::hash::{FoldHasher, Hasher};

/// The different locations. The key of their hash is made of the locations of all rows. So names that were chosen ahead
/// do not collide.
type Locations<'a> = IndexSet<&'a [u8], TextKeyed>;

/// How many guesses there are: a power of two.
const GUESSES: usize = 16_384;

/// How many bits a mix is shifted right to give the index of its guess.
const SHIFT: u32 = 50;

/// The mix of a location's bytes, and the number of that location.
#[derive(Clone, Copy)]
struct Guess {
    mix: u64,
    number: usize,
}

/// The locations of rows, and for each row the numbers of its two locations.
#[derive(Drop)]
pub(crate) struct Shares<'a> {
    locations: Locations<'a>,
    // For each index, the number of the last location with that index. A guess saves a look-up, and is checked before
    // it is used. So the mix needs no key: a trace with colliding locations makes guesses useless, but no look-up
    // slower.
    guesses: Vec<Guess>,
    pairs: Vec<(usize, usize)>,
}

/// Shares for no rows yet, with room for this many. `keyed` has the key of their locations.
pub(crate) fn no_shares<'a>(
    alloc: Global,
    rows: usize,
    keyed: TextKeyed,
) -> Result<Shares<'a>, OutOfMemory> {
    let guesses = vec![in alloc; Guess { mix: 0, number: 0 }; GUESSES]?;
    Ok(Shares {
        locations: IndexSet::with_hasher(alloc, keyed),
        guesses,
        pairs: Vec::with_capacity(alloc, rows)?,
    })
}

/// A hash of a location's bytes.
fn mix_of(location: &[u8]) -> u64 {
    let mut hasher = FoldHasher::default();
    hasher.write(location);
    hasher.finish()
}

/// The number of the last location with this mix.
fn guess_at(guesses: &[Guess], mix: u64) -> Option<usize> {
    let guess = guesses.get((mix >> SHIFT) as usize)?;
    if guess.mix == mix {
        Some(guess.number)
    } else {
        None
    }
}

/// Stores the number of a location with this mix.
fn note(guesses: &mut [Guess], mix: u64, number: usize) {
    if let Some(guess) = guesses.get_mut((mix >> SHIFT) as usize) {
        *guess = Guess { mix, number };
    }
}

/// The location with this number, if it is equal to `location`.
#[inline(always)]
fn same_at<'a>(locations: &Locations<'a>, number: usize, location: &[u8]) -> Option<&'a [u8]>
    ensures { IfSome result (λ found. found.now ≡ location.now) }
{
    match locations.get_index(number) {
        Some(known) if *known == location => Some(*known),
        _ => None,
    }
}

/// The first location that is equal to this one, and its number.
#[inline(always)]
fn shared<'a>(shares: &mut Shares<'a>, location: &'a [u8]) -> Result<(&'a [u8], usize), OutOfMemory>
    ensures { IfOk result (λ found. found.0.now ≡ location.now) }
{
    let mix = mix_of(location);
    if let Some(number) = guess_at(&shares.guesses, mix) {
        if let Some(known) = same_at(&shares.locations, number, location) {
            return Ok((known, number));
        }
    }
    looked_up(shares, location, mix)
}

/// The same by a look-up. Stores the number as the guess for this mix.
#[inline(never)]
fn looked_up<'a>(
    shares: &mut Shares<'a>,
    location: &'a [u8],
    mix: u64,
) -> Result<(&'a [u8], usize), OutOfMemory>
    ensures { IfOk result (λ found. found.0.now ≡ location.now) }
{
    let (number, _) = shares.locations.insert_full(location)?;
    note(&mut shares.guesses, mix, number);
    match same_at(&shares.locations, number, location) {
        Some(known) => Ok((known, number)),
        None => Ok((location, number)),
    }
}

/// The shared copies of the next row's two locations.
pub(crate) fn share_both<'a>(
    shares: &mut Shares<'a>,
    one: &'a [u8],
    other: &'a [u8],
) -> Result<(&'a [u8], &'a [u8]), OutOfMemory>
    ensures one { IfOk result (λ found. found.0.now ≡ one.now) }
    ensures other { IfOk result (λ found. found.1.now ≡ other.now) }
{
    let (one, first) = shared(shares, one)?;
    let (other, second) = shared(shares, other)?;
    shares.pairs.push((first, second))?;
    Ok((one, other))
}

/// For each location its position among all locations, sorted by their bytes.
fn places_of(alloc: Global, locations: &Locations<'_>) -> Result<Vec<usize>, OutOfMemory> {
    let mut names = Vec::with_capacity(alloc, locations.len())?;
    for (number, name) in locations.iter().enumerate() {
        names.push((*name, number))?;
    }
    names.sort_unstable();
    let mut places = vec![in alloc; 0usize; names.len()]?;
    for (place, (_, number)) in names.iter().enumerate() {
        if let Some(found) = places.get_mut(*number) {
            *found = place;
        }
    }
    Ok(places)
}

/// The position of the location with this number.
fn place_at(places: &[usize], number: usize) -> usize {
    match places.get(number) {
        Some(place) => *place,
        None => number,
    }
}

/// For each row the positions of its two locations, the lesser first.
pub(crate) fn places_in(
    alloc: Global,
    shares: Shares<'_>,
) -> Result<Vec<(usize, usize)>, OutOfMemory> {
    let Shares {
        locations,
        guesses: _,
        pairs,
    } = shares;
    let places = places_of(alloc, &locations)?;
    let mut pairs = pairs;
    for pair in pairs.iter_mut() {
        let one = place_at(&places, pair.0);
        let other = place_at(&places, pair.1);
        *pair = (one.min(other), one.max(other));
    }
    Ok(pairs)
}
