// The quote's worksheet, as a prover builds it.
use super::show::show_new;
use super::{CAPACITY, assert_price, native};
use builder::{Open, Tables};
use prover::{Ledger, Prover, Values, Witnesses};
use residue::Residue;
use ring::Ring;
use std::io;
use worksheet::{CircuitIdx, CircuitNode, Counts};

// The values of the witnesses and nodes, read by their ids, and the verdict.
fn show_values(rt: &impl Print, values: Values<'_, Residue>, counts: Counts) -> anyhow::Result<()> {
    print!(rt; "  values: witnesses")?;
    for id in (0..counts.witnesses).map(|w| CircuitIdx::Witness(w)) {
        print!(rt; " {}", values.get(id)?)?;
    }
    print!(rt; ", nodes")?;
    for id in (0..counts.nodes).map(|n| CircuitIdx::Node(n)) {
        print!(rt; " {}", values.get(id)?)?;
    }
    println!(rt; "")?;
    let verdict = values.is_satisfied();
    println!(rt; "  verdict: {}", if verdict { "yes" } else { "no" })?;
    Ok(())
}

pub(super) fn build(
    rt: &impl Print,
    flows: [u32; 3],
    price: u32,
    points: [Residue; 2],
) -> anyhow::Result<()> {
    let zero = CircuitIdx::Constant(0);
    let mut constants = [Residue::zero(); 4];
    let mut nodes = [CircuitNode::Add(zero, zero); 5];
    let mut assertions = [(zero, zero); 1];
    let mut values = [Residue::zero(); 2];
    let mut worked = [Residue::zero(); 5];
    let mut ledger = Ledger {
        tables: Tables {
            constants: &mut constants,
            nodes: &mut nodes,
            assertions: &mut assertions,
        },
        values: &mut values,
        worked: &mut worked,
    };
    let mut open = Open::<Prover>::new(CAPACITY)?;
    let empty = open.counts();
    let near = open.witness(&mut ledger, points[0])?;
    let far = open.witness(&mut ledger, points[1])?;
    show_new(rt, &ledger.tables, empty, open.counts())?;
    let was = open.counts();
    let products = [
        open.multiply(&mut ledger, native(flows[0]), near)?,
        open.multiply(&mut ledger, native(flows[1]), near)?,
        open.multiply(&mut ledger, native(flows[2]), far)?,
    ];
    assert_price(&mut open, &mut ledger, products, price)?;
    show_new(rt, &ledger.tables, was, open.counts())?;
    if let Err(refusal) = open.witness(&mut ledger, points[0]) {
        println!(rt; "  one witness more is {refusal}")?;
    }
    let sealed = open.seal();
    let view = Values::of(&sealed, &constants, &nodes, &assertions, &values, &worked)?;
    show_values(rt, view, sealed.counts())
}
