ghost use Rattle.std.specs.Prelude.{◌≡◌, ◌+◌, ◌∷◌, ◌++◌, ℕ, List, length, drop};
ghost use Rattle.gate_block.specs.Log.{first_gate, bodies_of, gate_of, IsWhole, open_blocks, AreSmall, LogsUpTo};

/// The open blocks of some bodies from byte 15 on, and a closed gate behind them, are the log of a file: these bodies, up to that
/// gate, whatever stands before byte 15 and whatever follows the gate.
pub fn written_blocks_are_logged()
    ensures logs { (bodies : List (List ℕ)) (rest file : List ℕ) → AreSmall bodies → drop first_gate file ≡ open_blocks bodies ++ 0 ∷ rest
        → LogsUpTo bodies (first_gate + length (open_blocks bodies)) file }
    ensures read { (bodies : List (List ℕ)) (rest file : List ℕ) → AreSmall bodies → drop first_gate file ≡ open_blocks bodies ++ 0 ∷ rest
        → (bodies_of file ≡ bodies) × (gate_of file ≡ first_gate + length (open_blocks bodies)) × IsWhole file }
{}
