//! The laws of vectors and matrices, as contracts of functions that do nothing.
//!
//! Each holds for the field's elements, and where it says so for the bytes too, on which the elements act.
ghost use Rattle.std.specs.Prelude.{◌≡◌, ◌↔◌, IsTrue, bytes_eq, bit_xor};
ghost use Rattle.sc_matrix.specs.Matrix.{Matrix as MatrixOf, IsMatrix, all_numbers};
ghost use Rattle.sc_matrix.specs.Module.{IsByte};
ghost use Rattle.sc_matrix.specs.Laws.{AreDotLaws, AreProductLaws, AreKernelLaws, AreRowSpaceLaws, AreTransposeLaws};

use sc_field::Field;

/// Dot products and linear combinations are linear on both sides.
pub fn dot_products_are_linear<F: Field>()
    ensures elements { AreDotLaws F.IsElement F.zero F.one F.add F.mul F.IsElement F.zero F.add F.mul }
    ensures bytes { AreDotLaws F.IsElement F.zero F.one F.add F.mul IsByte 0 bit_xor F.act }
{}

/// Products of matrices are associative and linear, and the identity matrix changes nothing.
pub fn products_are_linear<F: Field>()
    ensures elements { AreProductLaws F.IsElement F.zero F.one F.add F.mul F.IsElement F.zero F.add F.mul }
    ensures bytes { AreProductLaws F.IsElement F.zero F.one F.add F.mul IsByte 0 bit_xor F.act }
{}

/// The kernel is a subspace, and matrices of one row space have one kernel.
pub fn kernels_are_subspaces<F: Field>()
    ensures elements { AreKernelLaws F.IsElement F.zero F.one F.add F.mul F.IsElement F.zero F.add F.mul }
    ensures bytes { AreKernelLaws F.IsElement F.zero F.one F.add F.mul IsByte 0 bit_xor F.act }
{}

/// Each row operation keeps the row space, and another row operation undoes it.
pub fn row_operations_keep_the_row_space<F: Field>()
    ensures { AreRowSpaceLaws F.IsElement F.zero F.one F.add F.sub F.mul F.inv }
{}

/// The transpose undoes itself and turns products round.
pub fn transposes_turn_products<F: Field>()
    ensures { AreTransposeLaws F.IsElement F.zero F.one F.add F.sub F.mul F.inv }
{}

/// `==` tells matrices apart.
pub fn equality_is_exact<F: Field>()
    ensures { (a b : MatrixOf F) → IsMatrix F.IsElement a → IsMatrix F.IsElement b → IsTrue (bytes_eq (all_numbers F.number a) (all_numbers F.number b)) ↔ (a ≡ b) }
{}
