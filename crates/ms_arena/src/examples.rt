ghost use Rattle.std.specs.Prelude.{◌≡◌, [], ◌∷◌, true, false};
ghost use Rattle.ms_arena.specs.declared.node.Ref.TheVariants.{Inner, Leaf};
ghost use Rattle.ms_arena.specs.inner.Bucket.{bucket_of, position_of};
ghost use Rattle.ms_arena.specs.inner.Code.{code_of, ref_of};
ghost use Rattle.ms_arena.specs.inner.Packing.{cells_of, whole_code};

/// Codes of references.
pub fn worked_codes()
    ensures leaf { code_of (Leaf 3) ≡ 6 }
    ensures node { code_of (Inner 3) ≡ 7 }
    ensures of_leaf { ref_of 6 ≡ Leaf 3 }
    ensures of_node { ref_of 7 ≡ Inner 3 }
    ensures lower { whole_code 7 false ≡ 7 }
    ensures upper { whole_code 7 true ≡ 4294967303 }
    ensures least_long { ref_of (whole_code 0 true) ≡ Leaf 2147483648 }
    ensures greatest { ref_of (whole_code 4294967295 true) ≡ Inner 4294967295 }
{}

/// Cells in sixteen bytes, with the upper bits of the first alone.
pub fn worked_cells()
    ensures { cells_of (record { var = 2; low = 6; high = 1; next = 0 } ∷ record { var = 5; low = 7; high = 0; next = 1 } ∷ []) (record { low = false; high = true } ∷ []) ≡ record { node = record { var = 2; low = Leaf 3; high = Inner 2147483648 }; next = 0 } ∷ record { node = record { var = 5; low = Inner 3; high = Leaf 0 }; next = 1 } ∷ [] }
{}

/// Buckets of nodes.
pub fn worked_buckets()
    ensures node { bucket_of 1024 (record { var = 2; low = Inner 4; high = Inner 5 }) ≡ 110 }
    ensures neighbour { bucket_of 1024 (record { var = 2; low = Inner 5; high = Inner 6 }) ≡ 133 }
    ensures few_buckets { bucket_of 64 (record { var = 2; low = Inner 4; high = Inner 5 }) ≡ 46 }
    ensures leaf { position_of (Leaf 1) ≡ 2654435769 }
{}
