//! A triage file that has an entry for each race, and no entry twice.
ghost use Rattle.std.specs.Prelude.{◌≡◌, ◌∷◌, [], IfOk, OnErr, OnOk, flat_map, nat_eq, option_map, string_bytes};
ghost use Rattle.std.specs.List.{concat, list_any};
ghost use Rattle.std.specs.Cmp.Lexicographic.{pointwise};
ghost use Rattle.rapid_text.specs.Appended.{Appended};
ghost use Rattle.race_triage.specs.Places.{texts_of, with_text};
ghost use Rattle.variable_names.specs.Names.{without_number};
ghost use Rattle.triage_file.specs.Writing.{alone_line, race_entries, entry_text, functions_line, is_alone, is_only, is_plain, is_same_by, line_text, lines_line, name_line, paths_line, place_at, source_line, text_of, two_of, variable_line, with_race, with_verdict, AppendedEntries};

use crate::choosing::is_race;
use crate::matching::{function_of, is_at, line_of, path_of, use_of};
use event_index::Indexed;
use explain_report::places::{cut_at_arrow, location_of};
use indexmap::IndexSet;
use race_triage::{Chosen, Verdict};
use rapid_text::{OutOfMemory, TextKeyed};
use std::alloc::Global;
use std::fmt::Formatter;
use toml_writer::write_string;
use variable_names::{are_same, is_address, parts_of};

/// The texts of entries, each once.
type Entries = IndexSet<Vec<u8>, TextKeyed>;

/// Appends an entry of a triage file for each race among the chosen verdicts, in their order, and no entry twice.
/// `numbers` has the number of each event's location. If memory runs out, `out` stays as it was.
#[tactic(auto, using(crate::proofs::EntryLemmas::concat_texts))]
pub fn triage_entries(
    indexed: &Indexed,
    numbers: &[u32],
    chosen: &Chosen,
    out: &mut Vec<u8>,
) -> Result<(), OutOfMemory>
    ensures ok { AppendedEntries result out.old out.new indexed.now numbers.now chosen.now }
    ensures err { OnErr result (out.new.items ≡ out.old.items) }
{
    let alloc = *out.allocator();
    let entries = race_entries(alloc, indexed, numbers, chosen.verdicts.as_slice())?;
    let mut text = Vec::new(alloc);
    append_texts(&mut text, entries.as_slice())?;
    out.extend_from_slice(text.as_slice())?;
    Ok(())
}

/// The entries of the races among these verdicts.
fn race_entries(
    alloc: Global,
    indexed: &Indexed,
    numbers: &[u32],
    verdicts: &[Verdict],
) -> Result<Entries, OutOfMemory>
    ensures { IfOk result (λ entries. texts_of entries.keys ≡ race_entries indexed.now numbers.now verdicts.now) }
{
    let mut entries = Entries::with_hasher(alloc, indexed.trace().raw().keyed());
    match add_verdicts(&mut entries, alloc, indexed, numbers, verdicts) {
        Ok(()) => Ok(entries),
        Err(refused) => Err(refused),
    }
}

/// Adds the entries of the races among these verdicts to none.
#[tactic(auto, using(crate::proofs::EntryLemmas::entries_more))]
fn add_verdicts(
    entries: &mut Entries,
    alloc: Global,
    indexed: &Indexed,
    numbers: &[u32],
    verdicts: &[Verdict],
) -> Result<(), OutOfMemory>
    requires { texts_of entries.old.keys ≡ [] }
    ensures { OnOk result (texts_of entries.new.keys ≡ race_entries indexed.now numbers.now verdicts.now) }
{
    for verdict in verdicts {
        add_verdict(entries, alloc, indexed, numbers, verdict)?;
    }
    Ok(())
}

/// Adds the entry of a verdict, if it is a race.
fn add_verdict(
    entries: &mut Entries,
    alloc: Global,
    indexed: &Indexed,
    numbers: &[u32],
    verdict: &Verdict,
) -> Result<(), OutOfMemory>
    ensures { OnOk result (texts_of entries.new.keys
        ≡ with_verdict indexed.now numbers.now (texts_of entries.old.keys) verdict.now) }
{
    if is_race(verdict) {
        add_race(entries, alloc, indexed, numbers, verdict)
    } else {
        Ok(())
    }
}

/// Adds the entry of a race, unless it is there in either order of its accesses.
fn add_race(
    entries: &mut Entries,
    alloc: Global,
    indexed: &Indexed,
    numbers: &[u32],
    verdict: &Verdict,
) -> Result<(), OutOfMemory>
    ensures { OnOk result (texts_of entries.new.keys
        ≡ with_race indexed.now numbers.now (texts_of entries.old.keys) verdict.now) }
{
    let Verdict { first, second, .. } = *verdict;
    let turned = entry_of(alloc, indexed, numbers, verdict, (second, first))?;
    if has_entry(entries, turned.as_slice()) {
        return Ok(());
    }
    add_entry(
        entries,
        entry_of(alloc, indexed, numbers, verdict, (first, second))?,
    )
}

/// Whether the text is one of the entries.
fn has_entry(entries: &Entries, text: &[u8]) -> bool
    ensures { result ≡ list_any (pointwise nat_eq text.now) (texts_of entries.now.keys) }
{
    entries.contains(text)
}

/// Adds an entry, unless it is there.
#[tactic(auto, using(crate::proofs::EntryLemmas::insert_entry))]
fn add_entry(entries: &mut Entries, text: Vec<u8>) -> Result<(), OutOfMemory>
    ensures { OnOk result (texts_of entries.new.keys ≡ with_text (texts_of entries.old.keys) text.items) }
{
    entries.insert(text)?;
    Ok(())
}

/// Appends texts, one after another.
fn append_texts(out: &mut Vec<u8>, texts: &[Vec<u8>]) -> Result<(), OutOfMemory>
    ensures { Appended result out.old out.new (flat_map (λ text. text.items) texts.now) }
{
    for text in texts {
        out.extend_from_slice(text.as_slice())?;
    }
    Ok(())
}

/// The entry of a race, with its accesses in this order.
fn entry_of(
    alloc: Global,
    indexed: &Indexed,
    numbers: &[u32],
    verdict: &Verdict,
    events: (u32, u32),
) -> Result<Vec<u8>, OutOfMemory>
    ensures { IfOk result (λ text. text.items ≡ entry_text indexed.now numbers.now verdict.now events.0 events.1) }
{
    let mut text = Vec::new(alloc);
    append_entry(&mut text, indexed, numbers, verdict, events)?;
    Ok(text)
}

/// Appends the entry of a race, with its accesses in this order.
fn append_entry(
    out: &mut Vec<u8>,
    indexed: &Indexed,
    numbers: &[u32],
    verdict: &Verdict,
    events: (u32, u32),
) -> Result<(), OutOfMemory>
    ensures { Appended result out.old out.new (entry_text indexed.now numbers.now verdict.now events.0 events.1) }
{
    let (one, other) = events;
    out.extend_from_slice(b"[[race]]\n")?;
    append_paths(out, indexed, one, other)?;
    append_functions(out, indexed, one, other)?;
    append_variable(out, indexed, numbers, verdict)?;
    append_lines(out, indexed, one, other)?;
    out.extend_from_slice(b"verdict = \"known\"\nreason = \"\"\nauthor = \"\"\n\n")?;
    Ok(())
}

/// Appends a key with an array of two items.
fn append_two(out: &mut Vec<u8>, key: &[u8], one: &[u8], other: &[u8]) -> Result<(), OutOfMemory>
    ensures { Appended result out.old out.new (two_of key.now one.now other.now) }
{
    out.extend_from_slice(key)?;
    out.extend_from_slice(b" = [")?;
    out.extend_from_slice(one)?;
    out.extend_from_slice(b", ")?;
    out.extend_from_slice(other)?;
    out.extend_from_slice(b"]\n")?;
    Ok(())
}

/// Bytes of a trace as a TOML string. Bytes that are not UTF-8 become U+FFFD.
fn text_of(alloc: Global, bytes: &[u8]) -> Result<String, OutOfMemory>
    ensures { IfOk result (λ text. string_bytes text ≡ text_of bytes.now) }
{
    let text = String::from_utf8_lossy(alloc, bytes)?;
    let mut f = Formatter::new(String::with_capacity(alloc, 64)?);
    match write_string(&mut f, text.as_str()) {
        Ok(()) => Ok(f.into_inner()),
        Err(_) => Err(OutOfMemory),
    }
}

/// The place of an event: the first part of its location.
fn place_of(indexed: &Indexed, event: u32) -> &[u8]
    ensures { result.now ≡ place_at indexed.now event }
{
    let (place, _) = cut_at_arrow(location_of(indexed, event));
    place
}

/// Appends the paths of two accesses.
fn append_paths(
    out: &mut Vec<u8>,
    indexed: &Indexed,
    one: u32,
    other: u32,
) -> Result<(), OutOfMemory>
    ensures { Appended result out.old out.new (paths_line indexed.now one other) }
{
    let alloc = *out.allocator();
    let first = text_of(alloc, path_of(place_of(indexed, one)))?;
    let second = text_of(alloc, path_of(place_of(indexed, other)))?;
    append_two(out, b"paths", first.as_bytes(), second.as_bytes())
}

/// Appends the functions of two accesses.
fn append_functions(
    out: &mut Vec<u8>,
    indexed: &Indexed,
    one: u32,
    other: u32,
) -> Result<(), OutOfMemory>
    ensures { Appended result out.old out.new (functions_line indexed.now one other) }
{
    let alloc = *out.allocator();
    let first = text_of(alloc, function_of(location_of(indexed, one)))?;
    let second = text_of(alloc, function_of(location_of(indexed, other)))?;
    append_two(out, b"functions", first.as_bytes(), second.as_bytes())
}

/// Appends the lines of two accesses.
fn append_lines(
    out: &mut Vec<u8>,
    indexed: &Indexed,
    one: u32,
    other: u32,
) -> Result<(), OutOfMemory>
    ensures { Appended result out.old out.new (lines_line indexed.now one other) }
{
    append_two(
        out,
        b"lines",
        line_in(indexed, one),
        line_in(indexed, other),
    )
}

/// The line of an access; 0 if its location names none.
fn line_in(indexed: &Indexed, event: u32) -> &[u8]
    ensures { result.now ≡ line_text indexed.now event }
{
    let line = line_of(place_of(indexed, event));
    if is_plain(line) { line } else { b"0" }
}

/// Whether the digits are a positive number as TOML writes it, below 10^18.
fn is_plain(digits: &[u8]) -> bool
    ensures { result ≡ is_plain digits.now }
{
    !digits.is_empty() && digits.len() < 19 && digits[0] != b'0'
}

/// Appends the variable of a race, if the source has it and one of the race's locations has no access to another one.
fn append_variable(
    out: &mut Vec<u8>,
    indexed: &Indexed,
    numbers: &[u32],
    verdict: &Verdict,
) -> Result<(), OutOfMemory>
    ensures { Appended result out.old out.new (variable_line indexed.now numbers.now verdict.now) }
{
    match use_of(indexed, verdict.first) {
        Some(name) => append_source(out, indexed, numbers, name, verdict.row.places),
        None => Ok(()),
    }
}

/// The same for this variable, which may be an address.
fn append_source(
    out: &mut Vec<u8>,
    indexed: &Indexed,
    numbers: &[u32],
    name: &[u8],
    places: (u32, u32),
) -> Result<(), OutOfMemory>
    ensures { Appended result out.old out.new (source_line indexed.now numbers.now name.now places) }
{
    if is_address(name) {
        Ok(())
    } else {
        append_alone(out, indexed, numbers, name, places)
    }
}

/// The same for this variable, which is no address.
fn append_alone(
    out: &mut Vec<u8>,
    indexed: &Indexed,
    numbers: &[u32],
    name: &[u8],
    places: (u32, u32),
) -> Result<(), OutOfMemory>
    ensures { Appended result out.old out.new (alone_line indexed.now numbers.now name.now places) }
{
    if is_alone(indexed, numbers, name, places.0) || is_alone(indexed, numbers, name, places.1) {
        append_name(out, name)
    } else {
        Ok(())
    }
}

/// Appends a variable without its number.
fn append_name(out: &mut Vec<u8>, name: &[u8]) -> Result<(), OutOfMemory>
    ensures { Appended result out.old out.new (name_line name.now) }
{
    let alloc = *out.allocator();
    let plain = without_number(alloc, name)?;
    let text = text_of(alloc, plain.as_slice())?;
    append_three(out, b"variables = [", text.as_bytes(), b"]\n")
}

/// The name without its number.
fn without_number(alloc: Global, name: &[u8]) -> Result<Vec<u8>, OutOfMemory>
    ensures { IfOk result (λ plain. plain.items ≡ without_number name.now) }
{
    let (before, after) = parts_of(name);
    let mut plain = Vec::from_slice(alloc, before)?;
    plain.extend_from_slice(after)?;
    Ok(plain)
}

/// Appends three texts.
fn append_three(out: &mut Vec<u8>, one: &[u8], two: &[u8], three: &[u8]) -> Result<(), OutOfMemory>
    ensures { Appended result out.old out.new (concat (one.now ∷ two.now ∷ three.now ∷ [])) }
{
    out.extend_from_slice(one)?;
    out.extend_from_slice(two)?;
    out.extend_from_slice(three)?;
    Ok(())
}

/// Whether the other variable, if there is one, is this one, without numbers.
fn is_same_by(name: &[u8], other: Option<&[u8]>) -> bool
    ensures { result ≡ is_same_by name.now (option_map (λ text. text.now) other.entry) }
{
    match other {
        Some(other) => are_same(other, name),
        None => true,
    }
}

/// Whether the event is not at this location, or accesses no variable other than this one, without numbers.
fn is_only(indexed: &Indexed, numbers: &[u32], name: &[u8], place: u32, event: u32) -> bool
    ensures { result ≡ is_only indexed.now numbers.now name.now place event }
{
    !is_at(numbers, place, event) || is_same_by(name, use_of(indexed, event))
}

/// Whether no access at this location is to another variable.
fn is_alone(indexed: &Indexed, numbers: &[u32], name: &[u8], place: u32) -> bool
    ensures { result ≡ is_alone indexed.now numbers.now name.now place }
{
    (0..indexed.len()).all(|event| is_only(indexed, numbers, name, place, event))
}
