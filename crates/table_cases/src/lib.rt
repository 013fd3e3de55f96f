// Cases of a table, each with the answer worked out by hand.
#![tactic(auto)]

ghost use Rattle.std.specs.Prelude.{◌≡◌};
ghost use Rattle.table_cases.specs.declared.EquateFault.TheVariants.{Join};
ghost use Rattle.table.specs.Uniformity.{IsUniform};

use table::{BackFault, Equation, JoinFault, RowFault, Table, Unequal};

/// Why two rows were not equated.
#[derive(Clone, Copy, PartialEq, Eq, Debug)]
pub enum EquateFault {
    /// The equation was refused.
    Join(JoinFault),
    /// With it there would be a cycle.
    Cycle,
}

impl From<JoinFault> for EquateFault {
    ghost from_gives = { λ fault e. e ≡ Join fault };

    fn from(fault: JoinFault) -> EquateFault {
        EquateFault::Join(fault)
    }
}

/// The refusal that names these two rows.
fn unequal(left: u16, right: u16) -> EquateFault
    ensures { result ≡ EquateFault.Join (JoinFault.Unequal (record { left = left; right = right })) }
{
    EquateFault::Join(JoinFault::Unequal(Unequal { left, right }))
}

/// Puts the equation down unless it is refused.
pub fn equate(table: &mut Table, left: u16, right: u16) -> Result<(), EquateFault>
    ensures { IsUniform table.old.rows table.old.equations table.old.classes → IsUniform table.new.rows table.new.equations table.new.classes }
{
    let e = Equation { left, right };
    let classes = table.join(e)?;
    let depths = table.deepen(e, &classes).ok_or(EquateFault::Cycle)?;
    table.commit(e, &classes, &depths);
    Ok(())
}

// status(?1,paused(?2)) and status(c2,suspended(grid)), with the words 0 status, 1 paused, 2 suspended, 4 grid, 7 c2.
#[test]
fn alike_words(rt: HostRuntime) {
    let mut t = Table::new();
    assert_eq!(rt; t.variable(1), Ok(0));
    assert_eq!(rt; t.variable(2), Ok(1));
    assert_eq!(rt; t.compose(1, &[1]), Ok(2));
    assert_eq!(rt; t.compose(0, &[0, 2]), Ok(3));
    assert_eq!(rt; t.compose(7, &[]), Ok(4));
    assert_eq!(rt; t.compose(4, &[]), Ok(5));
    assert_eq!(rt; t.compose(2, &[5]), Ok(6));
    assert_eq!(rt; t.compose(0, &[4, 6]), Ok(7));
    assert_eq!(rt; equate(&mut t, 3, 7), Ok(()));
    assert_eq!(rt; t.representative(0), Some(4));
    assert_eq!(rt; t.representative(1), Some(5));
    assert_eq!(rt; t.representative(2), Some(2));
    assert_eq!(rt; t.representative(6), Some(2));
    assert_eq!(rt; t.representative(7), Some(3));
    assert_eq!(rt; t.representative(8), None);
    assert_eq!(rt; t.words_at(t.classes(), 6), Some((2, 1)));
    assert_eq!(rt; t.words_at(t.classes(), 3), Some((0, 0)));
    assert_eq!(rt; t.words_at(t.classes(), 0), None);
    assert_eq!(rt; t.words_at(t.classes(), 8), None);
    assert_eq!(rt; t.equation_count(), 1);
    assert_eq!(rt; t.row_count(), 8);
}

// Rows 0 ?1, 1 paused(?1), 2 grid, 3 paused(grid).
#[test]
fn refusals(rt: HostRuntime) {
    let mut t = Table::new();
    assert_eq!(rt; t.variable(1), Ok(0));
    assert_eq!(rt; t.compose(1, &[0]), Ok(1));
    assert_eq!(rt; t.compose(4, &[]), Ok(2));
    assert_eq!(rt; t.compose(1, &[2]), Ok(3));
    assert_eq!(rt; equate(&mut t, 0, 1), Err(EquateFault::Cycle));
    assert_eq!(rt; equate(&mut t, 2, 3), Err(unequal(3, 2)));
    assert_eq!(rt;
        equate(&mut t, 4, 4),
        Err(EquateFault::Join(JoinFault::Missing(0)))
    );
    assert_eq!(rt;
        equate(&mut t, 3, 4),
        Err(EquateFault::Join(JoinFault::Missing(1)))
    );
    assert_eq!(rt; t.equation_count(), 0);
    assert_eq!(rt; t.representative(0), Some(0));
    assert_eq!(rt; equate(&mut t, 1, 3), Ok(()));
    assert_eq!(rt; t.representative(0), Some(2));
    assert_eq!(rt; t.representative(3), Some(1));
}

#[test]
fn labels_and_rows(rt: HostRuntime) {
    let mut t = Table::new();
    assert_eq!(rt; t.variable(99), Ok(0));
    assert_eq!(rt; t.variable(99), Ok(0));
    assert_eq!(rt; t.row_of(99), Some(0));
    assert_eq!(rt; t.row_of(98), None);
    assert_eq!(rt; t.variable(100), Err(RowFault::Label));
    assert_eq!(rt; t.compose(0, &[0, 1, 2]), Err(RowFault::Missing(1)));
    assert_eq!(rt;
        t.compose(0, &[9, 0, 0, 0, 0, 0, 0]),
        Err(RowFault::TooMany)
    );
    assert_eq!(rt; t.compose(0, &[0, 0, 0, 0, 0, 0]), Ok(1));
    assert_eq!(rt; t.row_count(), 2);
}

// 512 rows, then a label that has a row, one that has none, and 128 equations.
#[test]
fn edges(rt: HostRuntime) {
    let mut t = Table::new();
    assert_eq!(rt; t.variable(7), Ok(0));
    for p in 1..512u16 {
        assert_eq!(rt; t.compose(0, &[]), Ok(p));
    }
    assert_eq!(rt; t.compose(0, &[]), Err(RowFault::Full));
    assert_eq!(rt; t.compose(0, &[512]), Err(RowFault::Missing(0)));
    assert_eq!(rt; t.variable(8), Err(RowFault::Full));
    assert_eq!(rt; t.variable(7), Ok(0));
    for _ in 0..128u16 {
        assert_eq!(rt; equate(&mut t, 511, 510), Ok(()));
    }
    assert_eq!(rt;
        equate(&mut t, 511, 510),
        Err(EquateFault::Join(JoinFault::Full))
    );
    assert_eq!(rt; t.representative(511), Some(510));
    assert_eq!(rt; t.equation_count(), 128);
}

// Rows 0 ?1, 1 paused(?1), 2 grid, 3 paused(grid), 4 ?2, with the equations of 1 and 3, and of 4 and 2.
#[test]
fn back_over_equations(rt: HostRuntime) {
    let mut t = Table::new();
    assert_eq!(rt; t.variable(1), Ok(0));
    assert_eq!(rt; t.compose(1, &[0]), Ok(1));
    assert_eq!(rt; t.compose(4, &[]), Ok(2));
    assert_eq!(rt; t.compose(1, &[2]), Ok(3));
    assert_eq!(rt; t.variable(2), Ok(4));
    assert_eq!(rt; equate(&mut t, 1, 3), Ok(()));
    assert_eq!(rt; equate(&mut t, 4, 2), Ok(()));
    assert_eq!(rt; t.representative(4), Some(2));
    assert_eq!(rt; t.back(5, 1), Ok(()));
    assert_eq!(rt; t.representative(4), Some(4));
    assert_eq!(rt; t.representative(0), Some(2));
    assert_eq!(rt; t.back(4, 1), Ok(()));
    assert_eq!(rt; t.representative(4), None);
    assert_eq!(rt; t.representative(3), Some(1));
    assert_eq!(rt; t.back(3, 0), Ok(()));
    assert_eq!(rt; t.representative(0), Some(0));
    assert_eq!(rt; t.back(0, 0), Ok(()));
    assert_eq!(rt; t.row_count(), 0);
    assert_eq!(rt; t.variable(9), Ok(0));
}

// Rows 0 ?1, 1 grid, 2 paused(grid), with the equation of 0 and 1.
#[test]
fn back_refused(rt: HostRuntime) {
    let mut t = Table::new();
    assert_eq!(rt; t.variable(1), Ok(0));
    assert_eq!(rt; t.compose(4, &[]), Ok(1));
    assert_eq!(rt; t.compose(1, &[1]), Ok(2));
    assert_eq!(rt; equate(&mut t, 0, 1), Ok(()));
    assert_eq!(rt; equate(&mut t, 0, 2), Err(unequal(2, 1)));
    assert_eq!(rt; t.back(4, 2), Err(BackFault::Rows));
    assert_eq!(rt; t.back(3, 2), Err(BackFault::Equations));
    assert_eq!(rt; t.back(1, 2), Err(BackFault::Equations));
    assert_eq!(rt; t.back(1, 1), Err(BackFault::Dropped));
    assert_eq!(rt; t.representative(0), Some(1));
    assert_eq!(rt; t.back(3, 0), Ok(()));
    assert_eq!(rt; equate(&mut t, 0, 2), Ok(()));
    assert_eq!(rt; t.representative(0), Some(2));
    assert_eq!(rt; t.back(2, 1), Err(BackFault::Dropped));
    assert_eq!(rt; t.back(2, 0), Ok(()));
    assert_eq!(rt; t.equation_count(), 0);
}
