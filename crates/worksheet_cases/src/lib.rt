// The cases of builder calls: each refusal, the order of causes, and what is appended.
#![tactic(auto)]

#[cfg(test)]
mod tests {
    use builder::{Open, Tables};
    use prover::{Ledger, Prover, Values, Witnesses as _};
    use refusal::Refusal;
    use residue::Residue;
    use ring::Ring;
    use std::test::Fail;
    use verifier::{Verifier, Witnesses as _};
    use worksheet::{CircuitIdx, CircuitNode, Counts, Var};

    const C0: CircuitIdx = CircuitIdx::Constant(0);

    const BLANK: CircuitNode = CircuitNode::Add(C0, C0);

    fn counts(constants: u32, witnesses: u32, nodes: u32, assertions: u32) -> Counts {
        Counts {
            constants,
            witnesses,
            nodes,
            assertions,
        }
    }

    // The number of a refusal, or 0; each crate of tests has its own, as they stand on no common one.
    fn number<T: Drop>(answer: Result<T, Refusal>) -> u8 {
        match answer {
            Ok(_) => 0,
            Err(refusal) => refusal.number(),
        }
    }

    fn native(x: u32) -> Var<Residue> {
        Var::Native(Residue::new(x))
    }

    fn id(i: CircuitIdx) -> Var<Residue> {
        Var::Circuit(i)
    }

    fn ledger<'a>(
        constants: &'a mut [Residue],
        nodes: &'a mut [CircuitNode],
        assertions: &'a mut [(CircuitIdx, CircuitIdx)],
        values: &'a mut [Residue],
        worked: &'a mut [Residue],
    ) -> Ledger<'a, Residue> {
        Ledger {
            tables: Tables {
                constants,
                nodes,
                assertions,
            },
            values,
            worked,
        }
    }

    #[test]
    fn a_capacity_has_a_limit(rt: HostRuntime) {
        assert_eq!(rt;
            number(Open::<Verifier>::new(counts(65_536, 65_536, 65_536, 65_536))),
            0
        );
        assert_eq!(rt; number(Open::<Verifier>::new(counts(65_537, 0, 0, 0))), 1);
        assert_eq!(rt; number(Open::<Verifier>::new(counts(0, 65_537, 0, 0))), 1);
        assert_eq!(rt; number(Open::<Verifier>::new(counts(0, 0, 65_537, 0))), 1);
        assert_eq!(rt; number(Open::<Verifier>::new(counts(0, 0, 0, u32::MAX))), 1);
    }

    // Short tables come first, then absent ids, then unequal natives, then the counts in their order.
    #[test]
    fn causes_have_an_order(rt: HostRuntime) -> Result<(), Fail> {
        let mut open = Open::<Verifier>::new(counts(0, 0, 0, 0))?;
        let (mut cs, mut ns, mut qs) = ([Residue::zero(); 0], [BLANK; 0], [(C0, C0); 0]);
        let mut tables = Tables {
            constants: &mut cs,
            nodes: &mut ns,
            assertions: &mut qs,
        };
        assert_eq!(rt; number(open.add(&mut tables, native(1), id(C0))), 3);
        assert_eq!(rt;
            number(open.assert_equal(&mut tables, native(3), native(4))),
            4
        );
        assert_eq!(rt;
            number(open.assert_equal(&mut tables, native(3), native(3))),
            0
        );
        assert_eq!(rt; number(open.constant(&mut tables, Residue::one())), 5);
        assert_eq!(rt; number(open.witness(&mut tables)), 6);
        let mut open = Open::<Verifier>::new(counts(0, 1, 0, 1))?;
        assert_eq!(rt; number(open.witness(&mut tables)), 2);
        assert_eq!(rt; number(open.add(&mut tables, id(C0), id(C0))), 2);
        let mut one = [(C0, C0)];
        let mut tables = Tables {
            constants: &mut cs,
            nodes: &mut ns,
            assertions: &mut one,
        };
        assert_eq!(rt; number(open.witness(&mut tables)), 0);
        let w = id(CircuitIdx::Witness(0));
        assert_eq!(rt; number(open.add(&mut tables, w, w)), 7);
        assert_eq!(rt; number(open.divide(&mut tables, native(1), w)), 5);
        assert_eq!(rt; number(open.divide(&mut tables, w, w)), 6);
        assert_eq!(rt; number(open.boolean_assert(&mut tables, w)), 7);
        assert_eq!(rt; number(open.boolean_assert(&mut tables, native(2))), 4);
        assert_eq!(rt; number(open.assert_equal(&mut tables, w, w)), 0);
        assert_eq!(rt; number(open.assert_equal(&mut tables, w, w)), 8);
        assert!(rt; open.counts() == counts(0, 1, 0, 1));
        Ok(())
    }

    // A composite call that does not fit leaves everything as it was.
    #[test]
    fn a_refused_call_changes_nothing(rt: HostRuntime) -> Result<(), Fail> {
        let mut open = Open::<Verifier>::new(counts(2, 2, 1, 1))?;
        let mut cs = [Residue::new(7); 2];
        let mut ns = [CircuitNode::Mul(C0, C0); 1];
        let mut qs = [(C0, C0)];
        let mut tables = Tables {
            constants: &mut cs,
            nodes: &mut ns,
            assertions: &mut qs,
        };
        let a = open.witness(&mut tables)?;
        let b = open.witness(&mut tables)?;
        assert_eq!(rt; number(open.subtract(&mut tables, a, b)), 7);
        assert!(rt; open.counts() == counts(0, 2, 0, 0));
        assert_eq!(rt; (cs[0].value(), cs[1].value()), (7, 7));
        assert!(rt; ns[0] == CircuitNode::Mul(C0, C0));
        Ok(())
    }

    // The constant minus one, a product with it, and the sum; the native of a product stands first.
    #[test]
    fn calls_append_in_order(rt: HostRuntime) -> Result<(), Fail> {
        let mut open = Open::<Verifier>::new(counts(3, 2, 3, 1))?;
        let mut cs = [Residue::zero(); 3];
        let mut ns = [BLANK; 3];
        let mut qs = [(C0, C0)];
        let mut tables = Tables {
            constants: &mut cs,
            nodes: &mut ns,
            assertions: &mut qs,
        };
        let a = open.witness(&mut tables)?;
        let b = open.witness(&mut tables)?;
        let difference = open.subtract(&mut tables, a, b)?;
        let double = open.multiply(&mut tables, difference, native(2))?;
        open.assert_equal(&mut tables, double, native(6))?;
        assert!(rt; open.counts() == counts(3, 2, 3, 1));
        assert_eq!(rt; (cs[0].value(), cs[1].value(), cs[2].value()), (8190, 2, 6));
        let (w0, w1) = (CircuitIdx::Witness(0), CircuitIdx::Witness(1));
        assert!(rt; ns[0] == CircuitNode::Mul(C0, w1));
        assert!(rt; ns[1] == CircuitNode::Add(w0, CircuitIdx::Node(0)));
        assert!(rt; ns[2] == CircuitNode::Mul(CircuitIdx::Constant(1), CircuitIdx::Node(1)));
        assert!(rt; qs[0].0 == CircuitIdx::Constant(2));
        assert!(rt; qs[0].1 == CircuitIdx::Node(2));
        Ok(())
    }

    // (a - b) * 2, asserted to be what is claimed, where a is 5 and b is 2.
    fn double_is(claimed: u32) -> Result<(bool, u16, u8), Refusal> {
        let mut open = Open::<Prover>::new(counts(3, 2, 3, 1))?;
        let mut cs = [Residue::zero(); 3];
        let mut ns = [BLANK; 3];
        let mut qs = [(C0, C0)];
        let (mut vs, mut ws) = ([Residue::zero(); 2], [Residue::zero(); 3]);
        let mut lent = ledger(&mut cs, &mut ns, &mut qs, &mut vs, &mut ws);
        let five = Residue::new(5);
        let two = Residue::new(2);
        let a = open.witness(&mut lent, five)?;
        let b = open.witness(&mut lent, two)?;
        let difference = open.subtract(&mut lent, a, b)?;
        let double = open.multiply(&mut lent, difference, native(2))?;
        open.assert_equal(&mut lent, double, native(claimed))?;
        let sealed = open.seal();
        let values = Values::of(&sealed, &cs, &ns, &qs, &vs, &ws)?;
        let last = values.get(CircuitIdx::Node(2))?;
        Ok((
            values.is_satisfied(),
            last.value(),
            number(values.get(CircuitIdx::Node(3))),
        ))
    }

    // The verdict is yes exactly if the assertion holds; an id past its count has no value.
    #[test]
    fn values_decide_the_verdict(rt: HostRuntime) -> Result<(), Fail> {
        assert!(rt; double_is(6)? == (true, 6, 3));
        assert!(rt; double_is(7)? == (false, 6, 3));
        Ok(())
    }

    // A table of values that is short is refused at a call and at reading.
    #[test]
    fn value_tables_are_long_enough(rt: HostRuntime) -> Result<(), Fail> {
        let mut open = Open::<Prover>::new(counts(0, 1, 1, 0))?;
        let (mut cs, mut ns, mut qs) = ([Residue::zero(); 0], [BLANK], [(C0, C0); 0]);
        let mut one = [Residue::new(7)];
        let mut other = [Residue::new(8)];
        let mut none = [Residue::zero(); 0];
        let x = Residue::one();
        let mut lent = ledger(&mut cs, &mut ns, &mut qs, &mut none, &mut other);
        assert_eq!(rt; number(open.witness(&mut lent, x)), 2);
        let mut lent = ledger(&mut cs, &mut ns, &mut qs, &mut one, &mut none);
        assert_eq!(rt; number(open.witness(&mut lent, x)), 2);
        assert!(rt; open.counts() == counts(0, 0, 0, 0));
        assert_eq!(rt; (one[0].value(), other[0].value()), (7, 8));
        let mut lent = ledger(&mut cs, &mut ns, &mut qs, &mut one, &mut other);
        assert_eq!(rt; number(open.witness(&mut lent, x)), 0);
        assert_eq!(rt; number(open.witness(&mut lent, x)), 6);
        assert_eq!(rt; (one[0].value(), other[0].value()), (1, 8));
        let sealed = open.seal();
        assert!(rt; sealed.counts() == counts(0, 1, 0, 0));
        assert_eq!(rt;
            number(Values::of(&sealed, &cs, &ns, &qs, &none, &other)),
            2
        );
        assert_eq!(rt; number(Values::of(&sealed, &cs, &ns, &qs, &one, &other)), 0);
        Ok(())
    }

    // A call, refused or not, leaves the tables of values as long as they were, so that an index into them stays one.
    #[test]
    fn value_tables_keep_their_lengths(rt: HostRuntime) -> Result<(), Fail> {
        let mut open = Open::<Prover>::new(counts(0, 1, 1, 0))?;
        let (mut cs, mut ns, mut qs) = ([Residue::zero(); 0], [BLANK], [(C0, C0); 0]);
        let (mut vs, mut ws) = ([Residue::zero()], [Residue::zero()]);
        let mut lent = ledger(&mut cs, &mut ns, &mut qs, &mut vs, &mut ws);
        assert!(rt; lent.values.len() > 0 && lent.worked.len() > 0);
        let a = open.witness(&mut lent, Residue::new(5))?;
        let _ = open.add(&mut lent, a, a)?;
        assert_eq!(rt; (lent.values[0].value(), lent.worked[0].value()), (5, 10));
        (lent.values[0], lent.worked[0]) = (Residue::new(6), Residue::new(12));
        assert_eq!(rt; number(open.add(&mut lent, a, a)), 7);
        assert_eq!(rt; (lent.values[0].value(), lent.worked[0].value()), (6, 12));
        Ok(())
    }

    // The verdict on 1 / x, and the value that was found.
    fn inverse_of(x: u32) -> Result<(bool, u16), Refusal> {
        let mut open = Open::<Prover>::new(counts(1, 2, 1, 1))?;
        let (mut cs, mut ns, mut qs) = ([Residue::zero()], [BLANK], [(C0, C0)]);
        let (mut vs, mut ws) = ([Residue::zero(); 2], [Residue::zero()]);
        let mut lent = ledger(&mut cs, &mut ns, &mut qs, &mut vs, &mut ws);
        let x = Residue::new(x);
        let a = open.witness(&mut lent, x)?;
        let _ = open.invert(&mut lent, a)?;
        let sealed = open.seal();
        let values = Values::of(&sealed, &cs, &ns, &qs, &vs, &ws)?;
        let inverse = values.get(CircuitIdx::Witness(1))?;
        Ok((values.is_satisfied(), inverse.value()))
    }

    // The inverse of zero is zero, and its assertion fails.
    #[test]
    fn zero_has_no_inverse(rt: HostRuntime) -> Result<(), Fail> {
        assert!(rt; inverse_of(2)? == (true, 4096));
        assert!(rt; inverse_of(0)? == (false, 0));
        Ok(())
    }

    // The element that a bit selects of 3 and 4.
    fn selected_by(bit: bool) -> Result<(bool, u16), Refusal> {
        let mut open = Open::<Prover>::new(counts(3, 1, 4, 1))?;
        let (mut cs, mut ns, mut qs) = ([Residue::zero(); 3], [BLANK; 4], [(C0, C0)]);
        let (mut vs, mut ws) = ([Residue::zero()], [Residue::zero(); 4]);
        let mut lent = ledger(&mut cs, &mut ns, &mut qs, &mut vs, &mut ws);
        let b = open.boolean_witness(&mut lent, bit)?;
        let _ = open.select(&mut lent, b, native(3), native(4))?;
        let sealed = open.seal();
        let values = Values::of(&sealed, &cs, &ns, &qs, &vs, &ws)?;
        let selected = values.get(CircuitIdx::Node(2))?;
        Ok((values.is_satisfied(), selected.value()))
    }

    #[test]
    fn a_bit_selects(rt: HostRuntime) -> Result<(), Fail> {
        assert!(rt; selected_by(true)? == (true, 3));
        assert!(rt; selected_by(false)? == (true, 4));
        Ok(())
    }
}
