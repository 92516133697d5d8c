// The report's bytes, put on a page. A function that puts a part asks for the room that it fills, and one that makes the page of a whole report shows that there is enough.
ghost use Rattle.std.specs.Prelude.{◌≡◌, ◌+◌, ◌*◌, ◌<◌, ◌≤◌, [], ◌∷◌, ◌++◌, map, length, codes, decimal};
ghost use Rattle.swimlog.specs.Limits.{most_gates};
ghost use Rattle.swimlog.specs.Pages.{page_bytes, Spare, Room};
ghost use Rattle.swimlog.specs.Report.{Written, space, line_end, spaced, line, mark_word, place_fields, gate_line, gate_lines, kept_bytes, empty_bytes, refused_bytes, report_bytes};
ghost use Rattle.swimlog.specs.Rooms.{gate_line_length};

use super::Report;
use crate::fault::LogFault;
use crate::kind::Axis;
use crate::page::Page;
use crate::sizes::Sizes;
use contractor::{Fault, Mark};
use itoa::{Buffer, Integer};
use std::alloc::AllocError;
use tube::{MAX_CELLS, Row};

fn put_field<I: Integer>(page: &mut Page, n: I)
    requires { Room page.old (space ∷ I.text n) }
    ensures { page_bytes page.new ≡ page_bytes page.old ++ (space ∷ I.text n) }
{
    page.put_byte(b' ');
    page.put_number(n);
}

fn put_fields<I: Integer>(page: &mut Page, fields: &[I])
    requires { Room page.old (spaced (map I.text fields.now)) }
    ensures { page_bytes page.new ≡ page_bytes page.old ++ spaced (map I.text fields.now) }
{
    for field in fields {
        put_field(page, *field);
    }
}

// A line of a word and numbers.
fn put_line<I: Integer>(page: &mut Page, word: &[u8], fields: &[I])
    requires { Room page.old (line word.now (map I.text fields.now)) }
    ensures { page_bytes page.new ≡ page_bytes page.old ++ line word.now (map I.text fields.now) }
{
    page.put(word);
    put_fields(page, fields);
    page.put_byte(b'\n');
}

// A gate, then the ends of its x and of its y.
fn put_place_line(page: &mut Page, gate: u16, x: Row, y: Row)
    requires gate { gate < most_gates }
    requires room { Spare page.old gate_line_length }
    ensures line { page_bytes page.new ≡ page_bytes page.old ++ line (decimal gate) (place_fields x y) }
    ensures short { length (page_bytes page.new) ≤ length (page_bytes page.old) + gate_line_length }
{
    put_line(
        page,
        Buffer::new().format(gate).as_bytes(),
        &[x.low, x.high, y.low, y.high],
    );
}

// The tube and the sizes that tell its cells go side by side, as the report has them: a struct of both would only be taken apart again.
fn put_gate(page: &mut Page, sizes: Sizes, tube: &[Row; MAX_CELLS], gate: u16)
    requires gate { gate < sizes.gates }
    requires room { Spare page.old gate_line_length }
    ensures line { page_bytes page.new ≡ page_bytes page.old ++ gate_line sizes.gates tube.now gate }
    ensures short { length (page_bytes page.new) ≤ length (page_bytes page.old) + gate_line_length }
{
    let x = tube[sizes.gate_cell(Axis::X, gate)];
    let y = tube[sizes.gate_cell(Axis::Y, gate)];
    put_place_line(page, gate, x, y);
}

fn put_gates(page: &mut Page, sizes: Sizes, tube: &[Row; MAX_CELLS])
    requires { Spare page.old (gate_line_length * sizes.gates) }
    ensures { page_bytes page.new ≡ page_bytes page.old ++ gate_lines sizes.gates tube.now sizes.gates }
{
    for gate in 0..sizes.gates() {
        put_gate(page, sizes, tube, gate);
    }
}

// The mark as the end of a line. Not a Display: that writes to what may be full, and a page that has room is not.
fn mark_end(mark: Mark) -> &'static [u8]
    ensures { result.now ≡ space ∷ (mark_word mark ++ (line_end ∷ [])) }
{
    match mark {
        Mark::Settled => b" settled\n",
        Mark::Stopped => b" stopped\n",
    }
}

fn put_kept_line(page: &mut Page, calls: u64, mark: Mark)
    requires { Room page.old (line (codes "kept") (decimal calls ∷ mark_word mark ∷ [])) }
    ensures { page_bytes page.new ≡ page_bytes page.old ++ line (codes "kept") (decimal calls ∷ mark_word mark ∷ []) }
{
    page.put(b"kept ");
    page.put_number(calls);
    page.put(mark_end(mark));
}

fn kept_page(calls: u64, mark: Mark, sizes: Sizes, tube: &[Row; MAX_CELLS]) -> Page
    ensures { page_bytes result ≡ kept_bytes calls mark sizes.gates tube.now }
{
    let mut page = Page::new();
    put_kept_line(&mut page, calls, mark);
    put_gates(&mut page, sizes, tube);
    page
}

fn empty_page(fault: Fault, calls: u64) -> Page
    ensures { page_bytes result ≡ empty_bytes fault calls }
{
    let mut page = Page::new();
    put_line(
        &mut page,
        b"empty",
        &[
            fault.number as u64,
            fault.cause as u64,
            fault.cell as u64,
            fault.path,
            calls,
        ],
    );
    page
}

fn refused_page(fault: LogFault) -> Page
    ensures { page_bytes result ≡ refused_bytes fault }
{
    let mut page = Page::new();
    put_line(
        &mut page,
        b"refused",
        &[
            fault.number() as u64,
            fault.record() as u64,
            fault.inner() as u64,
        ],
    );
    page
}

// The report as it is printed.
pub fn report_page(report: &Report) -> Page
    ensures { page_bytes result ≡ report_bytes report.now }
{
    match report {
        Report::Kept {
            calls,
            mark,
            sizes,
            tube,
        } => kept_page(*calls, *mark, *sizes, tube),
        Report::Empty { fault, calls } => empty_page(*fault, *calls),
        Report::Refused(fault) => refused_page(*fault),
    }
}

// Adds the report to a buffer. Where there is no memory for all of it, the buffer stays as it was.
pub fn write_report(report: &Report, out: &mut Vec<u8>) -> Result<(), AllocError>
    ensures { Written out.old.items (report_bytes report.now) result out.new.items }
{
    out.extend_from_slice(report_page(report).bytes())
}
