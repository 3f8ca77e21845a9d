// The cases of the matrix, the verdict and the witness: each refusal, the sizes at their limits, and every ring.
#![tactic(auto)]

#[cfg(test)]
mod tests {
    use bit::Bit;
    use circuit::{Circuit, Columns, Witness};
    use licensee::Hour;
    use matrix::{Cell, SparseMatrix};
    use refusal::Refusal;
    use residue::Residue;
    use ring::Ring;
    use std::test::Fail;
    use word::Word;

    const LIMIT: u32 = 1_048_576;

    fn blank<E: Ring>() -> Cell<E> {
        Cell {
            row: 0,
            column: 0,
            weight: E::zero(),
        }
    }

    // The number of a refusal, or 0; each crate of tests has its own, as they stand on no common one.
    fn number<T: Drop>(answer: Result<T, Refusal>) -> u8 {
        match answer {
            Ok(_) => 0,
            Err(refusal) => refusal.number(),
        }
    }

    fn residue(number: u32) -> Residue {
        Residue::new(number)
    }

    fn columns<'a, E>(values: &'a [E], left: &'a [E], right: &'a [E]) -> Columns<'a, E> {
        Columns {
            values,
            left,
            right,
        }
    }

    #[test]
    fn indices_and_sizes_have_a_limit(rt: HostRuntime) {
        let mut table = [blank(); 2];
        let mut m = SparseMatrix::new(&mut table);
        assert_eq!(rt; number(m.add(LIMIT, 0, residue(1))), 15);
        assert_eq!(rt; number(m.add(0, LIMIT, residue(1))), 15);
        assert_eq!(rt; number(m.set(u32::MAX, 0, residue(1))), 15);
        assert_eq!(rt; number(m.set(0, u32::MAX, residue(1))), 15);
        assert_eq!(rt; number(m.pad(LIMIT + 1, 0)), 15);
        assert_eq!(rt; number(m.pad(0, LIMIT + 1)), 15);
        assert_eq!(rt; (m.width(), m.height(), m.cells().len()), (0, 0, 0));
        assert_eq!(rt; number(m.set(LIMIT - 1, LIMIT - 1, residue(7))), 0);
        assert_eq!(rt; number(m.pad(LIMIT, LIMIT)), 0);
        assert_eq!(rt; (m.width(), m.height()), (LIMIT, LIMIT));
        assert_eq!(rt; m.get(LIMIT - 1, LIMIT - 1).value(), 7);
    }

    #[test]
    fn a_full_table_takes_no_other_cell(rt: HostRuntime) {
        let mut table = [blank(); 2];
        let mut m = SparseMatrix::new(&mut table);
        assert_eq!(rt; number(m.add(1, 1, residue(5))), 0);
        assert_eq!(rt; number(m.add(0, 3, residue(6))), 0);
        assert_eq!(rt; number(m.add(2, 0, residue(1))), 16);
        assert_eq!(rt; number(m.set(0, 2, residue(1))), 16);
        assert_eq!(rt; (m.width(), m.height()), (4, 2));
        assert_eq!(rt; number(m.add(1, 1, residue(8186))), 0);
        assert_eq!(rt; number(m.set(0, 3, residue(9))), 0);
        assert_eq!(rt; m.get(1, 1).value(), 0);
        assert_eq!(rt; m.get(0, 3).value(), 9);
        assert_eq!(rt; m.get(0, 2).value(), 0);
        let cells = m.cells();
        assert!(rt; cells.len() == 2);
        assert_eq!(rt; (cells[0].row, cells[0].column), (0, 3));
        assert_eq!(rt; (cells[1].row, cells[1].column), (1, 1));
        let mut none: [Cell<Residue>; 0] = [];
        assert_eq!(rt;
            number(SparseMatrix::new(&mut none).add(0, 0, residue(0))),
            16
        );
    }

    #[test]
    fn a_product_has_one_entry_for_each_row(rt: HostRuntime) -> Result<(), Fail> {
        let mut table = [blank(); 4];
        let mut m = SparseMatrix::new(&mut table);
        m.add(0, 0, residue(2))?;
        m.add(0, 5, residue(3))?;
        m.add(2, 1, residue(4))?;
        let mut short = [residue(9); 2];
        assert_eq!(rt;
            number(m.multiply(&[residue(10), residue(20)], &mut short)),
            18
        );
        assert_eq!(rt; (short[0].value(), short[1].value()), (9, 9));
        let mut sums = [residue(9); 3];
        assert_eq!(rt;
            number(m.multiply(&[residue(10), residue(20)], &mut sums)),
            0
        );
        assert_eq!(rt;
            (sums[0].value(), sums[1].value(), sums[2].value()),
            (20, 0, 80)
        );
        Ok(())
    }

    #[test]
    fn a_circuit_has_one_width(rt: HostRuntime) -> Result<(), Fail> {
        let mut table = [blank::<Residue>(); 1];
        let mut m = SparseMatrix::new(&mut table);
        assert_eq!(rt; number(Circuit::new(0, &m)), 17);
        m.pad(7, 0)?;
        assert_eq!(rt; number(Circuit::new(1, &m)), 17);
        assert_eq!(rt; Circuit::new(0, &m), Ok(2));
        assert_eq!(rt; Circuit::new(6, &m), Ok(0));
        assert_eq!(rt; number(Circuit::new(7, &m)), 17);
        assert_eq!(rt; number(Circuit::new(usize::MAX, &m)), 17);
        Ok(())
    }

    // With one committed value and two gates the columns are 8; this matrix touches only 5, as if it had one gate.
    #[test]
    fn a_width_may_fit_another_number_of_gates(rt: HostRuntime) -> Result<(), Fail> {
        let mut table = [blank(); 4];
        let mut m = SparseMatrix::new(&mut table);
        m.add(0, 4, residue(1))?;
        m.add(0, 1, residue(8190))?;
        assert_eq!(rt; Circuit::new(1, &m), Ok(1));
        let (four, two, zero) = (residue(4), residue(2), residue(0));
        assert!(rt; Circuit::is_satisfied(&m, 1, 1, &columns(&[four], &[two], &[two])));
        assert!(rt;
            Circuit::is_satisfied(&m, 1, 2, &columns(&[four], &[two, zero], &[four, zero]))
        );
        assert!(rt;
            !Circuit::is_satisfied(&m, 1, 2, &columns(&[four], &[two, zero], &[two, zero]))
        );
        assert!(rt; !Circuit::is_satisfied(&m, 1, 0, &columns(&[four], &[], &[])));
        assert!(rt; !Circuit::is_satisfied(&m, 1, 1, &columns(&[four], &[two], &[two, two])));
        assert!(rt; !Circuit::is_satisfied(&m, 2, 1, &columns(&[four], &[two], &[two])));
        m.pad(8, 0)?;
        assert!(rt;
            Circuit::is_satisfied(&m, 1, 2, &columns(&[four], &[two, zero], &[four, zero]))
        );
        m.pad(9, 0)?;
        assert!(rt;
            !Circuit::is_satisfied(&m, 1, 2, &columns(&[four], &[two, zero], &[four, zero]))
        );
        Ok(())
    }

    #[test]
    fn a_witness_has_lists_of_two_lengths(rt: HostRuntime) -> Result<(), Fail> {
        let (none, one, two) = ([residue(0); 0], [residue(0); 1], [residue(0); 2]);
        assert_eq!(rt; number(Witness::new(&one, &one, &two, &two, &two)), 0);
        assert_eq!(rt; number(Witness::new(&one, &two, &two, &two, &two)), 18);
        assert_eq!(rt; number(Witness::new(&one, &one, &two, &one, &two)), 18);
        assert_eq!(rt; number(Witness::new(&one, &one, &two, &two, &one)), 18);
        assert_eq!(rt;
            Witness::new(&none, &none, &one, &one, &one)?.values().len(),
            0
        );
        Ok(())
    }

    // The Rust never reads the out that a witness holds.
    #[test]
    fn the_out_that_is_held_counts(rt: HostRuntime) -> Result<(), Fail> {
        let mut table = [blank(); 1];
        let mut m = SparseMatrix::new(&mut table);
        m.pad(4, 0)?;
        let (zero, one) = ([residue(0)], [residue(1)]);
        assert!(rt; Circuit::is_satisfied(&m, 0, 1, &columns(&[], &zero, &zero)));
        assert!(rt; Witness::new(&[], &[], &zero, &zero, &zero)?.is_satisfied(&m, 0, 1));
        assert!(rt; !Witness::new(&[], &[], &zero, &zero, &one)?.is_satisfied(&m, 0, 1));
        Ok(())
    }

    // Whether x times x is y, by one row over one gate whose left and right are x.
    fn squares<E: Ring>(table: &mut [Cell<E>], x: &[E], y: E) -> Result<bool, Refusal> {
        let mut m = SparseMatrix::new(table);
        m.add(0, 3, E::one())?;
        m.set(0, 0, y.negate())?;
        Ok(Circuit::is_satisfied(&m, 0, 1, &columns(&[], x, x)))
    }

    #[test]
    fn one_text_serves_every_ring(rt: HostRuntime) -> Result<(), Fail> {
        assert!(rt; squares(&mut [blank(); 2], &[residue(8188)], residue(9))?);
        assert!(rt; !squares(&mut [blank(); 2], &[residue(3)], residue(12))?);
        assert!(rt; squares(&mut [blank(); 2], &[Bit::new(true)], Bit::new(true))?);
        assert!(rt; !squares(&mut [blank(); 2], &[Bit::new(true)], Bit::new(false))?);
        assert!(rt; squares(&mut [blank(); 2], &[Word::new(1 << 32)], Word::new(0))?);
        assert!(rt;
            !squares(
                &mut [blank(); 2],
                &[Word::new(u64::MAX)],
                Word::new(u64::MAX),
            )?
        );
        assert!(rt; squares(&mut [blank(); 2], &[Hour::new(6)], Hour::new(0))?);
        assert!(rt; !squares(&mut [blank(); 2], &[Hour::new(5)], Hour::new(2))?);
        Ok(())
    }
}
