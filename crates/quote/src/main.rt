// A bond quote checked from its rows: an honest desk, a desk that commits to another factor for the
// second of two dates on one curve point, and the same columns without that slot's tie.
#![tactic(auto)]

use builder::{Open, Role};
use circuit::{Circuit, Columns};
use matrix::{Cell, SparseMatrix};
use refusal::Refusal;
use residue::Residue;
use ring::Ring;
use std::io;
use worksheet::{Counts, Var};

mod proving;
mod show;
mod verifying;

// What the bond pays at its three dates.
const FLOWS: [u32; 3] = [2, 2, 52];

// The price quoted, in hundredths.
const PRICE: u32 = 5276;

// Room in a worksheet for the quote and nothing more.
const CAPACITY: Counts = Counts {
    constants: 4,
    witnesses: 2,
    nodes: 5,
    assertions: 1,
};

// A slot for each date, and a gate for each curve point.
const SLOTS: usize = 3;

const GATES: usize = 2;

// Columns: one, three committed, two left, two right, two out.
const ONE: u32 = 0;

const COMMITTED: u32 = 1;

const LEFT: u32 = 4;

const WIDTH: u32 = 10;

fn native(x: u32) -> Var<Residue> {
    Var::Native(Residue::new(x))
}

// Asserts that the flows times their factors sum to the price.
fn assert_price<R, T>(
    open: &mut Open<R>,
    tables: &mut T,
    products: [Var<Residue>; 3],
    price: u32,
) -> Result<(), Refusal>
where
    R: Role<Residue, T>,
{
    let sum = open.add(tables, products[0], products[1])?;
    let total = open.add(tables, sum, products[2])?;
    open.assert_equal(tables, total, native(price))
}

// The price, as the flows times the factors: the first two dates share the first slot's factor.
fn write_price(rows: &mut SparseMatrix<'_, Residue>) -> Result<(), Refusal> {
    rows.add(0, COMMITTED, Residue::new(FLOWS[0]))?;
    rows.add(0, COMMITTED, Residue::new(FLOWS[1]))?;
    rows.add(0, COMMITTED + 2, Residue::new(FLOWS[2]))?;
    rows.set(0, ONE, Residue::new(PRICE).negate())
}

// The row that ties a committed slot to the curve point of its date.
fn write_tie(rows: &mut SparseMatrix<'_, Residue>, slot: u32, point: u32) -> Result<(), Refusal> {
    let row = rows.height();
    rows.set(row, LEFT.saturating_add(point), Residue::one())?;
    rows.set(row, COMMITTED.saturating_add(slot), Residue::one().negate())
}

fn show_rows(rt: &impl Print, rows: &SparseMatrix<'_, Residue>) -> io::Result<()> {
    println!(rt;
        "  rows (row, column) weight, {} by {}:",
        rows.height(),
        rows.width()
    )?;
    for cell in rows.cells() {
        println!(rt; "    ({}, {}) {}", cell.row, cell.column, cell.weight)?;
    }
    Ok(())
}

fn show_list(rt: &impl Print, name: &str, list: &[Residue]) -> io::Result<()> {
    print!(rt; "    {name}")?;
    for x in list {
        print!(rt; " {x}")?;
    }
    println!(rt; "")
}

// No gate multiplies here, so right and out are zero.
fn show_verdict(
    rt: &impl Print,
    rows: &SparseMatrix<'_, Residue>,
    values: &[Residue],
    left: &[Residue],
) -> io::Result<()> {
    let zeros = [Residue::zero(); GATES];
    println!(rt; "  columns:")?;
    show_list(rt, "one", &[Residue::one()])?;
    show_list(rt, "committed", values)?;
    show_list(rt, "left", left)?;
    show_list(rt, "right", &zeros)?;
    show_list(rt, "out", &zeros)?;
    let columns = Columns {
        values,
        left,
        right: &zeros,
    };
    let verdict = Circuit::is_satisfied(rows, SLOTS, GATES, &columns);
    println!(rt; "  verdict: {}", if verdict { "yes" } else { "no" })
}

fn blank() -> Cell<Residue> {
    Cell {
        row: 0,
        column: 0,
        weight: Residue::zero(),
    }
}

// Rows with a tie for each slot: an honest desk passes, and one with another factor does not.
fn check_tied(rt: &impl Print) -> anyhow::Result<()> {
    let mut table = [blank(); 12];
    let mut rows = SparseMatrix::new(&mut table);
    write_price(&mut rows)?;
    write_tie(&mut rows, 0, 0)?;
    write_tie(&mut rows, 1, 0)?;
    write_tie(&mut rows, 2, 1)?;
    if let Err(refusal) = Circuit::new(SLOTS, &rows) {
        println!(rt;
            "Of width {} the rows are no circuit: {refusal}.",
            rows.width()
        )?;
    }
    rows.pad(WIDTH, 0)?;
    let gates = Circuit::new(SLOTS, &rows)?;
    println!(rt; "Padded to width {} they have {gates} gates.", rows.width())?;
    println!(rt; "An honest desk:")?;
    show_rows(rt, &rows)?;
    show_verdict(rt, &rows, &honest_values(), &points())?;
    println!(rt; "A desk that commits to another factor for the second date:")?;
    show_verdict(rt, &rows, &other_values(), &points())?;
    Ok(())
}

// The same rows but the second slot's tie: the desk with another factor passes.
fn check_untied(rt: &impl Print) -> anyhow::Result<()> {
    let mut table = [blank(); 12];
    let mut rows = SparseMatrix::new(&mut table);
    write_price(&mut rows)?;
    write_tie(&mut rows, 0, 0)?;
    write_tie(&mut rows, 2, 1)?;
    println!(rt; "The same columns with the second date's tie left out:")?;
    show_rows(rt, &rows)?;
    show_verdict(rt, &rows, &other_values(), &points())?;
    println!(rt;
        "Without that row the buyer's commitment to the second date binds the desk to nothing."
    )?;
    Ok(())
}

// The factors of the two curve points, in hundredths.
fn points() -> [Residue; GATES] {
    [Residue::new(97), Residue::new(94)]
}

fn honest_values() -> [Residue; SLOTS] {
    [Residue::new(97), Residue::new(97), Residue::new(94)]
}

fn other_values() -> [Residue; SLOTS] {
    [Residue::new(97), Residue::new(90), Residue::new(94)]
}

fn run(rt: &impl Print) -> anyhow::Result<()> {
    println!(rt; "A bond pays 2, 2 and 52; the curve gives the first two dates one point.")?;
    println!(rt; "The desk commits to a factor for each date and quotes 52.76.")?;
    verifying::build(rt, FLOWS, PRICE)?;
    println!(rt; "The same worksheet, as the desk builds it with the curve's values:")?;
    proving::build(rt, FLOWS, PRICE, points())?;
    println!(rt; "And with 52.77 in the place of the price:")?;
    proving::build(rt, FLOWS, 5277, points())?;
    check_tied(rt)?;
    check_untied(rt)
}

fn main(rt: HostRuntime) -> anyhow::Result<()> {
    run(&rt)
}
