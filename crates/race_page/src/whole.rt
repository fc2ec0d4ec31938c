//! The whole page.
ghost use Rattle.std.specs.Prelude.{◌≡◌, ◌++◌, [], OnErr};
ghost use Rattle.rapid_text.specs.Appended.{Appended, AppendedOne};
ghost use Rattle.race_page.specs.Heads.{top_text};
ghost use Rattle.race_page.specs.Pages.{AddedRows, AppendedPage, IsChosenPage, left_of};
ghost use Rattle.race_page.specs.Rows.{all_rows_about, rows_about, sort_rows_about};
ghost use Rattle.race_page.specs.declared.merged_head.LeftOut.{LeftOut};
ghost use Rattle.race_page.specs.declared.style.TheConstants.{TOP};

use crate::about::About;
use crate::ending::append_end;
use crate::followed::write_beside;
use crate::heading::{append_begin, file_of};
use crate::leftovers::write_left_out;
use crate::merged_head::LeftOut;
use crate::own::Tag;
use crate::page::Page;
use crate::piece::{Item, Piece};
use crate::rows::write_rows;
use crate::selecting::of_sort;
use crate::shell::word_of;
use crate::shown::Sort;
use must_order::Analysis;
use race_triage::{Chosen, Verdict, Verdicts};
use rapid_text::OutOfMemory;

/// Appends a page (HTML) of the chosen verdicts. Its first line is `6 races in pdsh.std`: how many races are chosen,
/// and the file of `about.name` without folders. With known races or filters, it also says how many pairs of locations
/// they left out.
///
/// Then there is a row for each chosen race and each undecided pair of locations. If `apart` is true, there is one also
/// for each that is apart. Each sort has at most 2,000 rows, and the first 200 races have a picture; a line says how
/// many are left out.
///
/// Then come the eleven counts of the whole trace, and what the terms mean. If `about` has followed races, each race
/// has a word beside it. If memory runs out, `out` stays as it was.
pub fn page_text(
    analysis: &Analysis<'_>,
    verdicts: &Verdicts,
    chosen: &Chosen,
    apart: bool,
    about: About<'_>,
    out: &mut Vec<u8>,
) -> Result<(), OutOfMemory>
    // What is appended is a page with a row for each chosen verdict, of each sort the first 2,000, and no others. The
    // first line has the number of all chosen races, with or without a row. It also has the file's name, and what was
    // left out.
    ensures ok { AppendedOne result out.old out.new (IsChosenPage analysis.now verdicts.now chosen.now apart about.entry) }
    ensures err { OnErr result (out.new.items ≡ out.old.items) }
    // The head of each page has the policy `default-src 'none'`: a page fetches nothing and runs nothing.
    ensures policy { TOP.now ≡ top_text }
{
    let mut page = Page::new(*out.allocator(), analysis);
    append_page(&mut page, verdicts, chosen, apart, about, out)
}

/// Appends the page of the chosen verdicts. `page` has no rows yet.
fn append_page(
    page: &mut Page<'_>,
    verdicts: &Verdicts,
    chosen: &Chosen,
    apart: bool,
    about: About<'_>,
    out: &mut Vec<u8>,
) -> Result<(), OutOfMemory>
    requires { page.old.rows ≡ [] }
    ensures ok { AppendedOne result out.old out.new (IsChosenPage page.old.trace verdicts.now chosen.now apart about.entry) }
    ensures err { OnErr result (out.new.items ≡ out.old.items) }
{
    write_page(page, chosen.verdicts.as_slice(), apart, about)?;
    let mut end = Vec::new(*out.allocator());
    append_end(
        &mut end,
        page.indexed(),
        verdicts,
        chosen,
        apart,
        about.followed.is_some(),
    )?;
    append_written(
        page,
        end.as_slice(),
        chosen.races,
        left_of(chosen),
        about.name,
        out,
    )?;
    Ok(())
}

/// Appends the page, from parts that are written. Its beginning is made first, so that everything is appended, or
/// nothing.
fn append_written(
    page: &Page<'_>,
    end: &[u8],
    races: u64,
    left: LeftOut,
    name: &[u8],
    out: &mut Vec<u8>,
) -> Result<(), OutOfMemory>
    ensures ok { AppendedPage result out.old out.new page.now end.now races left name.now }
    ensures err { OnErr result (out.new.items ≡ out.old.items) }
{
    let mut begin = Vec::new(*out.allocator());
    append_begin(&mut begin, races, file_of(name), left)?;
    append_all(out, begin.as_slice(), page.bytes(), end)?;
    Ok(())
}

/// How many pairs of locations were left out.
fn left_of(chosen: &Chosen) -> LeftOut
    ensures { result ≡ left_of chosen.now }
{
    LeftOut {
        known: chosen.known,
        hidden: chosen.hidden,
    }
}

/// Appends three texts, or nothing if memory runs out.
fn append_all(
    out: &mut Vec<u8>,
    first: &[u8],
    second: &[u8],
    third: &[u8],
) -> Result<(), OutOfMemory>
    ensures ok { Appended result out.old out.new (first.now ++ second.now ++ third.now) }
    ensures err { OnErr result (out.new.items ≡ out.old.items) }
{
    out.reserve((first.len() + second.len()).saturating_add(third.len()))?;
    out.extend_from_slice(first)?;
    out.extend_from_slice(second)?;
    out.extend_from_slice(third)?;
    Ok(())
}

/// Writes the rows. One piece, which keeps its memory, is used for all.
fn write_page(
    page: &mut Page<'_>,
    told: &[Verdict],
    apart: bool,
    about: About<'_>,
) -> Result<(), OutOfMemory>
    ensures trace { page.new.trace ≡ page.old.trace }
    ensures rows { AddedRows result page.old page.new (all_rows_about about.entry apart told.now) }
{
    let mut piece = Piece::new(page.allocator());
    write_told(page, &mut piece, told, apart, about)
}

/// Writes a section for each sort. The trace's name becomes one word of a shell.
fn write_told(
    page: &mut Page<'_>,
    piece: &mut Piece,
    told: &[Verdict],
    apart: bool,
    about: About<'_>,
) -> Result<(), OutOfMemory>
    ensures trace { page.new.trace ≡ page.old.trace }
    ensures rows { AddedRows result page.old page.new (all_rows_about about.entry apart told.now) }
{
    match word_of(page.allocator(), about.name) {
        Ok(word) => write_sections(
            page,
            piece,
            told,
            apart,
            About {
                name: word.as_slice(),
                followed: about.followed,
            },
        ),
        Err(refused) => Err(refused),
    }
}

/// Writes a section for each sort.
fn write_sections(
    page: &mut Page<'_>,
    piece: &mut Piece,
    told: &[Verdict],
    apart: bool,
    about: About<'_>,
) -> Result<(), OutOfMemory>
    ensures trace { page.new.trace ≡ page.old.trace }
    ensures rows { AddedRows result page.old page.new (all_rows_about about.entry apart told.now) }
{
    write_sort(page, piece, about, Sort::Race, told)?;
    write_sort(page, piece, about, Sort::Undecided, told)?;
    if apart {
        write_sort(page, piece, about, Sort::Apart, told)?;
    }
    Ok(())
}

/// Writes the section of a sort, from all verdicts.
fn write_sort(
    page: &mut Page<'_>,
    piece: &mut Piece,
    about: About<'_>,
    sort: Sort,
    told: &[Verdict],
) -> Result<(), OutOfMemory>
    ensures trace { page.new.trace ≡ page.old.trace }
    ensures rows { AddedRows result page.old page.new (sort_rows_about about.entry sort told.now) }
{
    match of_sort(page.allocator(), told, sort) {
        Ok(kept) => write_section(page, piece, about, sort, kept.as_slice()),
        Err(refused) => Err(refused),
    }
}

/// Writes the section of a sort, with a row for each of the first 2,000 verdicts in `kept`.
fn write_section(
    page: &mut Page<'_>,
    piece: &mut Piece,
    about: About<'_>,
    sort: Sort,
    kept: &[Verdict],
) -> Result<(), OutOfMemory>
    ensures trace { page.new.trace ≡ page.old.trace }
    ensures rows { AddedRows result page.old page.new (rows_about about.entry kept.now) }
{
    begin_section(page, piece, about, sort, kept.is_empty())?;
    write_rows(page, piece, about, kept)?;
    end_section(page, piece, about.name, sort, kept.len())
}

/// Writes the heading of a section.
fn begin_section(
    page: &mut Page<'_>,
    piece: &mut Piece,
    about: About<'_>,
    sort: Sort,
    is_empty: bool,
) -> Result<(), OutOfMemory>
    ensures trace { page.new.trace ≡ page.old.trace }
    ensures rows { page.new.rows ≡ page.old.rows }
{
    piece.clear();
    piece.write(&[
        Item::Begin(Tag::Section),
        Item::Element(Tag::SectionHeading, heading_of(sort)),
    ])?;
    if is_empty {
        piece.write(&[Item::Element(Tag::Paragraph, b"None.")])?;
    } else if sort == Sort::Race {
        write_beside(piece, about)?;
    }
    page.write(piece)
}

/// Writes what comes after the rows of a section.
fn end_section(
    page: &mut Page<'_>,
    piece: &mut Piece,
    word: &[u8],
    sort: Sort,
    kept: usize,
) -> Result<(), OutOfMemory>
    ensures trace { page.new.trace ≡ page.old.trace }
    ensures rows { page.new.rows ≡ page.old.rows }
{
    piece.clear();
    write_left_out(piece, word, sort, kept)?;
    piece.write(&[Item::End(Tag::Section)])?;
    page.write(piece)
}

/// The heading for a sort.
fn heading_of(sort: Sort) -> &'static [u8] {
    match sort {
        Sort::Race => b"Races",
        Sort::Undecided => b"Undecided",
        Sort::Apart => b"Apart",
    }
}
