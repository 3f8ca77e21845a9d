// The entries of a worksheet, printed.
use builder::Tables;
use residue::Residue;
use std::io;
use worksheet::Counts;

// What stands in the tables past the counts `was`, up to the counts `is`.
pub(super) fn show_new(
    rt: &impl Print,
    tables: &Tables<'_, Residue>,
    was: Counts,
    is: Counts,
) -> io::Result<()> {
    // A verifier has no table of witnesses to go over.
    for w in was.witnesses..is.witnesses {
        println!(rt; "  witness {w}")?;
    }
    let constants = tables
        .constants
        .iter()
        .enumerate()
        .take(is.constants as usize);
    for (k, x) in constants.skip(was.constants as usize) {
        println!(rt; "  constant {k}: {x}")?;
    }
    let nodes = tables.nodes.iter().enumerate().take(is.nodes as usize);
    for (n, node) in nodes.skip(was.nodes as usize) {
        println!(rt; "  node {n}: {node}")?;
    }
    let assertions = tables
        .assertions
        .iter()
        .enumerate()
        .take(is.assertions as usize);
    for (j, (a, b)) in assertions.skip(was.assertions as usize) {
        println!(rt; "  assertion {j}: {a} = {b}")?;
    }
    Ok(())
}
