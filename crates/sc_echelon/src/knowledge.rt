//! What equations that were told determine of the byte strings at some columns.
ghost use Rattle.std.specs.Prelude.{◌≡◌, ◌≢◌, ◌↔◌, ◌*◌, ◌<◌, ◌≤◌, ℕ, List, IfOk, MatchOption, length};
ghost use Rattle.sc_echelon.specs.Knowledge.{IsSolution, Follows, Contradicts, Adds, IsValueAt, IsOpenAt, Forgets, nothing_known};

use crate::equation::Equation;
use crate::table::{add_work, blank_rows, forget_rows};
use crate::tables::Tables;
use sc_field::Field;
use sc_outside::NoMemory;
use std::alloc::Global;
use std::marker::Model;

/// The most columns of a [`Knowledge`].
pub const MAX_COLS: usize = 6_615;

/// The most bytes at all columns of a [`Knowledge`] together.
pub const MAX_BYTES: usize = 67_108_864;

/// What adding a row said.
#[derive(Debug, Clone, Copy, PartialEq, Eq)]
pub enum Added {
    /// The row told something new.
    New,
    /// Every solution met it already.
    Known,
    /// No solution meets it.
    Clash,
}

/// What is known of the byte strings at `cols` columns, of `width` bytes each: the equations that were told.
///
/// What it means is the set of its solutions: lists of byte strings, one for each column, that meet each equation. There
/// always is one. `start` reserves all memory, and no other call takes any.
#[derive(Drop)]
pub struct Knowledge<F: Field> {
    width: usize,
    reach: usize,
    mixed: Vec<bool>,
    used: Vec<bool>,
    rows: Vec<Equation<F>>,
    work: Equation<F>,
    tables: Tables<F>,
}

impl<F: Field> Model for Knowledge<F> {
    ghost use Rattle.std.specs.Prelude.{length};
    ghost use Rattle.sc_echelon.specs.Knowledge.{Knowledge as Known};
    ghost use Rattle.sc_echelon.specs.Kept.{known_by, knowledge_code};
    ghost use Rattle.sc_echelon.specs.Storage.{table_of, IsStored};

    ghost Value = { Known F };

    ghost coded = { knowledge_code F.code };

    ghost view = { λ k. known_by (length k.used.items) k.width (table_of k.used.items k.rows.items) };

    ghost invariant = { λ k. IsStored F.IsElement F.zero F.one k.width k.reach k.mixed.items k.used.items k.rows.items k.work };
}

impl<F: Field> Knowledge<F> {
    /// Nothing is known of `cols` columns of `width` bytes.
    ///
    /// It reserves a row of `cols` coefficients, room for as many that are forgotten, and `width` bytes for each column, and one
    /// row more to work on. It prepares the products of all coefficients, which takes some 8 kB.
    pub fn start(alloc: Global, cols: usize, width: usize) -> Result<Knowledge<F>, NoMemory>
        requires cols { cols ≤ MAX_COLS }
        requires width { 1 ≤ width }
        requires small { cols * width ≤ MAX_BYTES }
        ensures { IfOk result (λ k. k ≡ nothing_known cols width) }
    {
        let used = vec![in alloc; false; cols]?;
        let mixed = vec![in alloc; false; cols]?;
        let rows = blank_rows(alloc, cols, cols, width)?;
        let work = Equation::zeros(alloc, cols, cols, width)?;
        let tables = Tables::all(alloc)?;
        Ok(Knowledge {
            width,
            reach: 0,
            mixed,
            used,
            rows,
            work,
            tables,
        })
    }

    /// Does nothing. Its contract tells a proof that a value in hand has a solution.
    pub fn known(&self)
        ensures solvable { (vs : List (List ℕ)) × IsSolution F.act self.now vs }
        ensures width { 1 ≤ self.now.width }
    {
        let _work = &self.work;
    }

    /// The number of columns.
    pub fn cols(&self) -> usize
        ensures { result ≡ self.now.cols }
    {
        self.used.len()
    }

    /// The number of bytes at each column.
    pub fn width(&self) -> usize
        ensures { result ≡ self.now.width }
    {
        self.width
    }

    /// Adds an equation: a coefficient for each column, and the bytes that the sum of the columns, each times its
    /// coefficient, is to be.
    ///
    /// `Clash` exactly where no solution meets it, and `Known` exactly where all do. Then nothing changes. Else it is
    /// `New`, and the solutions are those that meet it.
    ///
    /// Each coefficient is read once. Then it costs a look at each column from the first to the last that the row touches, and
    /// where it is new at each before its pivot, as far back as a row before reached. For each row that it is cleared by, or
    /// that it clears, it costs a pass over `width` bytes and the columns from the first to the last that the added row
    /// touches.
    pub fn add_row(&mut self, coeffs: &[F], rhs: &[u8]) -> Added
        requires coeffs { length coeffs.now ≡ self.old.cols }
        requires rhs { length rhs.now ≡ self.old.width }
        ensures cols { self.new.cols ≡ self.old.cols }
        ensures width { self.new.width ≡ self.old.width }
        ensures known { result ≡ Added.Known ↔ Follows F.act self.old (record { coeffs = coeffs.now; right = rhs.now }) }
        ensures clash { result ≡ Added.Clash ↔ Contradicts F.act self.old (record { coeffs = coeffs.now; right = rhs.now }) }
        ensures adds { result ≡ Added.New → Adds F.act self.old (record { coeffs = coeffs.now; right = rhs.now }) self.new }
        ensures stays { result ≢ Added.New → self.new ≡ self.old }
    {
        let width = self.width;
        self.work.load(coeffs, rhs);
        add_work(
            self.rows.as_mut_slice(),
            self.used.as_mut_slice(),
            self.mixed.as_mut_slice(),
            &mut self.work,
            width,
            &mut self.reach,
            &mut self.tables,
        )
    }

    /// The bytes that every solution has at column `col`. None exactly where two solutions differ there.
    ///
    /// It costs at most a look at each coefficient that one row touches.
    pub fn value_of(&self, col: usize) -> Option<&[u8]>
        requires { col < self.now.cols }
        ensures { MatchOption result (IsOpenAt F.act self.now col) (λ bytes. IsValueAt F.act self.now col bytes.now) }
    {
        if !self.used[col] {
            return None;
        }
        let row = &self.rows[col];
        match row.another_nonzero(col) {
            Some(_other) => None,
            None => Some(row.right()),
        }
    }

    /// Forgets the first `count` columns. The others move to the front, and behind them stand `count` columns of which
    /// nothing is known.
    ///
    /// A list then is a solution exactly where some values of the forgotten columns in front of it, less its last
    /// `count` values, make a solution of before. So what the forgotten columns say of the others stays known.
    ///
    /// It costs a look at each column, and for each row that stays the change of a few numbers: its columns move by an
    /// index. Only where a row has forgotten as many columns as it has, its coefficients are moved.
    pub fn forget_front(&mut self, count: usize)
        requires { count ≤ self.old.cols }
        ensures cols { self.new.cols ≡ self.old.cols }
        ensures width { self.new.width ≡ self.old.width }
        ensures solutions { Forgets F.act count self.old self.new }
    {
        let width = self.width;
        let reach = self.reach;
        forget_rows(
            self.rows.as_mut_slice(),
            self.used.as_mut_slice(),
            self.mixed.as_mut_slice(),
            &self.work,
            width,
            reach,
            count,
        );
    }
}
