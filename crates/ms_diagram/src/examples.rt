ghost use Rattle.std.specs.Prelude.{◌≡◌, [], ◌∷◌, false, true};
ghost use Rattle.ms_arena.specs.declared.node.Ref.TheVariants.{Inner, Leaf};
ghost use Rattle.ms_diagram.specs.Across.{AreOn, HasLeavesAcross, IsHalf, IsOn, LacksAcross, NumberAcross, leaves_across};
ghost use Rattle.ms_diagram.specs.Collect.{LacksSet, SetNumber};
ghost use Rattle.ms_diagram.specs.Hash.{hash_of, scattered};
ghost use Rattle.ms_diagram.specs.Projecting.{IsReadIn, KeepsOrder, opened};
ghost use Rattle.ms_diagram.specs.Store.{IsNewest};
ghost use Rattle.ms_diagram.specs.inner.Computed.{row_of, HasMoved, IsPlaced, entries_of as slots_of, no_slots, place_of};
ghost use Rattle.ms_diagram.specs.inner.Listed.{IsListedIn, bucket_of, entries_of, listed_behind};
ghost use Rattle.ms_diagram.specs.inner.Short.{AreShort, IsLong, short_entries};
ghost use Rattle.ms_diagram.specs.inner.Examples.{both_roots, crossed, first_list, half_full, left_out_bit, one_and_both, only, read_in, renamed_bit, row_of_three, second_list, without_map};

/// Two diagrams of other stores, each read through a map: the pairs of their leaves, and the numbers of these.
pub fn worked_sides()
    // the left diagram reads variable 1, and the right one variable 0
    ensures left { leaves_across crossed both_roots (only 1) ≡ (1, 0) }
    ensures right { leaves_across crossed both_roots (only 0) ≡ (0, 1) }
    ensures met { HasLeavesAcross crossed both_roots (1, 0) }
    ensures never_met { ¬ HasLeavesAcross crossed both_roots (2, 0) }

    // the number of a pair is its place
    ensures number { NumberAcross crossed ((0, 1) ∷ (1, 0) ∷ []) both_roots (only 1) 1 }
    ensures other_number { ¬ NumberAcross crossed ((0, 1) ∷ (1, 0) ∷ []) both_roots (only 1) 0 }
    ensures room_for_numbers { ¬ LacksAcross crossed ((0, 1) ∷ []) both_roots }

    // a map has a variable for each that a diagram tests
    ensures on { AreOn crossed both_roots }
    ensures no_place { ¬ IsOn crossed.left (Inner 1) }
    ensures no_variable { ¬ IsOn without_map (Inner 0) }
{}

/// Codes of references, which a computed table has up to 2^32 - 3.
pub fn worked_codes()
    ensures entries { short_entries (((6, 7), 2) ∷ ((0, 1), 9) ∷ []) ≡ ((Leaf 3, Inner 3), Leaf 1) ∷ ((Leaf 0, Inner 0), Inner 4) ∷ [] }
    ensures greatest { AreShort (((4294967293, 0), 2) ∷ []) }
    ensures too_great { ¬ AreShort (((0, 4294967294), 2) ∷ []) }
    ensures long_node { IsLong (Inner 2147483647, Leaf 0) }
    ensures long_leaf { IsLong (Inner 0, Leaf 2147483647) }
    ensures short_pair { ¬ IsLong (Inner 2147483646, Leaf 2147483646) }
{}

/// A computed table of one bucket whose second slot is empty, and the buckets of pairs: those of leaves 3 and 4 with one node
/// stand side by side.
pub fn worked_buckets()
    ensures entries { slots_of (half_full ∷ []) ≡ ((6, 7), 2) ∷ [] }
    ensures empty { slots_of (no_slots ∷ no_slots ∷ []) ≡ [] }
    ensures scattered { scattered 1 ≡ 2654435769 }
    ensures row { row_of (6, 9) ≡ 1741314242 }
    ensures bucket { place_of 1024 (6, 9) ≡ 197 }
    ensures few_buckets { place_of 16 (6, 7) ≡ 13 }
    ensures same_row { row_of (8, 7) ≡ row_of (6, 7) }
    ensures beside { place_of 16 (8, 7) ≡ 14 }
    ensures own_place { IsPlaced (0, 0) 16 13 half_full.first }
    ensures other_place { ¬ IsPlaced (0, 0) 16 14 half_full.first }
    ensures waits { IsPlaced (14, 16) 16 14 half_full.first }
    ensures waits_no_more { ¬ IsPlaced (15, 16) 16 14 half_full.first }
    ensures no_place { IsPlaced (0, 0) 16 17 half_full.second }
    ensures moved { HasMoved (no_slots ∷ half_full ∷ []) (half_full ∷ []) }
    ensures added { ¬ HasMoved (no_slots ∷ []) (half_full ∷ []) }
{}

/// What is left of each diagram once variable 0 has a bit: the right one reads it, and the left one reads variable 1 alone.
pub fn worked_halves()
    ensures low_end { IsHalf crossed.right 0 false (Inner 0) (Leaf 0) }
    ensures high_end { IsHalf crossed.right 0 true (Inner 0) (Leaf 1) }
    ensures other_end { ¬ IsHalf crossed.right 0 true (Inner 0) (Leaf 0) }
    ensures as_it_is { IsHalf crossed.left 0 true (Inner 0) (Inner 0) }
    ensures too_late { ¬ IsHalf crossed.left 1 true (Inner 0) (Inner 0) }
{}

/// A diagram of another store with one variable left out: another one, so that one leaf is met, and its own, so that both are.
pub fn worked_projected()
    ensures other_variable { opened renamed_bit (only 5) false 0 ≡ true }
    ensures track { opened left_out_bit (only 5) false 0 ≡ false }
    ensures order { KeepsOrder (read_in (2 ∷ 0 ∷ 5 ∷ []) 1) }
    ensures turned_round { ¬ KeepsOrder (read_in (2 ∷ 0 ∷ 5 ∷ []) 2) }
    ensures read { IsReadIn renamed_bit (Inner 0) }
    ensures no_variable { ¬ IsReadIn (read_in [] 1) (Inner 0) }

    // the number of a set is its place
    ensures both_leaves { SetNumber left_out_bit one_and_both (Inner 0 ∷ []) (only 5) 1 }
    ensures one_leaf { SetNumber renamed_bit one_and_both (Inner 0 ∷ []) (only 5) 0 }
    ensures not_both { ¬ SetNumber renamed_bit one_and_both (Inner 0 ∷ []) (only 5) 1 }
    ensures room_for_sets { ¬ LacksSet left_out_bit one_and_both (Inner 0 ∷ []) }
{}

/// Two lists in a row, the second of which has a wrong hash.
pub fn worked_lists()
    // what was told last comes first
    ensures entries { entries_of row_of_three (first_list ∷ second_list ∷ []) ≡ (Inner 7 ∷ [], Inner 9) ∷ (Leaf 1 ∷ Inner 2 ∷ [], Leaf 4) ∷ [] }

    // by hand from the first bits of the golden ratio
    ensures hash_of_none { hash_of [] ≡ 0 }
    ensures hash_of_one { hash_of (Leaf 1 ∷ []) ≡ 3703547198 }
    ensures hash_of_two { hash_of (Leaf 1 ∷ Inner 2 ∷ []) ≡ 2278550756 }
    ensures listed { IsListedIn row_of_three (first_list) }
    ensures wrong_hash { ¬ IsListedIn row_of_three (second_list) }
    ensures bucket { bucket_of 16 2278550756 ≡ 4 }
    ensures behind { listed_behind row_of_three (Leaf 1 ∷ []) (Leaf 0) ≡ record { begin = 3; end = 4; made = Leaf 0; hash = 3703547198 } }
{}

/// The node at the last of three places.
pub fn worked_newest()
    ensures last { IsNewest 3 (Inner 2) }
    ensures earlier { ¬ IsNewest 3 (Inner 1) }
    ensures leaf { ¬ IsNewest 3 (Leaf 2) }
{}
