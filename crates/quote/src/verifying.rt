// The quote's worksheet, as a verifier builds it.
use super::show::show_new;
use super::{CAPACITY, assert_price, native};
use builder::{Open, Tables};
use residue::Residue;
use ring::Ring;
use verifier::{Verifier, Witnesses};
use worksheet::{CircuitIdx, CircuitNode, Var};

// The flow of a date times its factor.
fn add_flow(
    rt: &impl Print,
    open: &mut Open<Verifier>,
    tables: &mut Tables<'_, Residue>,
    flow: u32,
    factor: Var<Residue>,
) -> anyhow::Result<Var<Residue>> {
    let was = open.counts();
    let product = open.multiply(tables, native(flow), factor)?;
    show_new(rt, tables, was, open.counts())?;
    Ok(product)
}

pub(super) fn build(rt: &impl Print, flows: [u32; 3], price: u32) -> anyhow::Result<()> {
    let zero = CircuitIdx::Constant(0);
    let mut tables = Tables {
        constants: &mut [Residue::zero(); 4],
        nodes: &mut [CircuitNode::Add(zero, zero); 5],
        assertions: &mut [(zero, zero); 1],
    };
    println!(rt; "The quote's worksheet, as a verifier builds it:")?;
    let mut open = Open::<Verifier>::new(CAPACITY)?;
    let was = open.counts();
    let near = open.witness(&mut tables)?;
    let far = open.witness(&mut tables)?;
    show_new(rt, &tables, was, open.counts())?;
    let products = [
        add_flow(rt, &mut open, &mut tables, flows[0], near)?,
        add_flow(rt, &mut open, &mut tables, flows[1], near)?,
        add_flow(rt, &mut open, &mut tables, flows[2], far)?,
    ];
    let was = open.counts();
    assert_price(&mut open, &mut tables, products, price)?;
    show_new(rt, &tables, was, open.counts())?;
    if let Err(refusal) = open.add(&mut tables, near, far) {
        println!(rt; "  one node more is {refusal}")?;
    }
    let sealed = open.seal();
    let counts = sealed.counts();
    println!(rt; "Sealed with {} nodes.", counts.nodes)?;
    Ok(())
}
