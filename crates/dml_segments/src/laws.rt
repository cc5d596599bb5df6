//! What memory in segments is: the law that contracts of images over them rest on.
ghost use Rattle.std.specs.Prelude.{◌≡◌, ℕ, ◌*◌, ◌<◌, false, true, List, length};
ghost use Rattle.dml_types.specs.Memory.{bytes_at, has};
ghost use Rattle.dml_segments.specs.Pieces.{Piece, AreInOrder, IsIn, piece_at, pieces_memory};

/// Segments: the bytes of each are present and stand at its place, and a byte in none of them is absent.
pub fn law_of_segments()
    ensures present { (pieces : List Piece) (k address : ℕ) → AreInOrder 0 pieces → k < length pieces
        → IsIn (piece_at pieces k) address → has (pieces_memory pieces) address ≡ true }
    ensures bytes { (pieces : List Piece) (k : ℕ) → AreInOrder 0 pieces → k < length pieces
        → bytes_at (pieces_memory pieces) (4096 * (piece_at pieces k).first) (length (piece_at pieces k).bytes)
        ≡ (piece_at pieces k).bytes }
    ensures absent { (pieces : List Piece) (address : ℕ) → AreInOrder 0 pieces
        → ((k : ℕ) → k < length pieces → IsIn (piece_at pieces k) address → ⊥)
        → has (pieces_memory pieces) address ≡ false }
{}
