//! Laws of what is made entry by entry. The functions do nothing: each has a law as its contract.

ghost use Rattle.sc_diag.specs.MadeLaws.{MatricesHaveEntries, CodesHaveCoefficients, DiagonalsHoldTheMatrix, OffTheDiagonalsAreZeros};

/// Matrices and codes that are defined by their entries have these entries.
pub fn entries_are_had()
    ensures matrices { MatricesHaveEntries }
    ensures codes { CodesHaveCoefficients }
{}

/// Interleaved, entry `i`, `j` of a matrix of `k` rows stands at lag `k + j - i`, and everything else is zero.
pub fn diagonals_hold_the_matrix()
    ensures diagonals { DiagonalsHoldTheMatrix }
    ensures others { OffTheDiagonalsAreZeros }
{}
