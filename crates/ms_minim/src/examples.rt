ghost use Rattle.ms_logic_words.specs.Residual.{HaveEqualResiduals, HasFewestStates};
ghost use Rattle.std.specs.Prelude.{◌≡◌, [], ◌∷◌};
ghost use Rattle.ms_arena.specs.declared.node.Ref.TheVariants.{Leaf, Inner};
ghost use Rattle.ms_logic_words.specs.declared.sign.Sign.TheVariants.{No, Undefined, Outside};
ghost use Rattle.ms_minim.specs.declared.origins.Origins.{Origins};
ghost use Rattle.ms_minim.specs.declared.reading.SignReading.TheVariants.{AsTheyAre, UndefinedAsOutside};
ghost use Rattle.ms_minim.specs.SignReading.{read_sign};
ghost use Rattle.ms_minim.specs.inner.Examples.{AreNoted, one_image, one_node, one_state, three_states, two_nodes, with_unreached};
ghost use Rattle.ms_minim.specs.inner.Discrete.{AreOwnImages};
ghost use Rattle.ms_minim.specs.inner.Hash.{AreCoarseMarks, AreHashes, hash_of, joined};
ghost use Rattle.ms_minim.specs.inner.Image.{AreImages, IsImage, image_of};
ghost use Rattle.ms_minim.specs.inner.Origin.{AreClosed, AreOrigins, ComesFrom, nowhere};
ghost use Rattle.ms_minim.specs.inner.Split.{IsPlacedBehind, IsSplit, key_of, own_keys};

/// States that lead to each other with one sign have equal residuals, and states with different signs have not.
pub fn worked_residuals()
    ensures equal { HaveEqualResiduals three_states 1 2 }
    ensures different { ¬ HaveEqualResiduals three_states 0 1 }
{}

/// No content has fewer states than one, and a state that no word leads to is one too many.
pub fn worked_fewest()
    ensures fewest { HasFewestStates one_state }
    ensures too_many { ¬ HasFewestStates with_unreached }
{}

/// Undefined is read as it is, or as Outside.
pub fn worked_readings()
    ensures own { read_sign AsTheyAre Undefined ≡ Undefined }
    ensures undefined { read_sign UndefinedAsOutside Undefined ≡ Outside }
    ensures no { read_sign UndefinedAsOutside No ≡ No }
{}

/// The start leads to the first state alone, and letters lead from there to the first two. A node comes from where each of its
/// leaves does.
pub fn worked_comes_from()
    ensures start { ComesFrom three_states 0 (Leaf 0) }
    ensures letter { ComesFrom three_states 1 (Leaf 1) }
    ensures node { ComesFrom three_states 1 (Inner 0) }
    ensures later { ComesFrom three_states 2 (Leaf 2) }
    ensures not_by_start { ¬ ComesFrom three_states 0 (Leaf 1) }
    ensures not_by_letter { ¬ ComesFrom three_states 1 (Leaf 2) }
    ensures one_leaf_only { ¬ ComesFrom three_states 0 (Inner 0) }
{}

/// Where the upper node is reached, so is the lower, but the lower can be reached without it.
pub fn worked_are_closed()
    ensures leaves { AreClosed three_states.nodes (1 ∷ []) }
    ensures both { AreClosed two_nodes (1 ∷ 1 ∷ []) }
    ensures lower { AreClosed two_nodes (1 ∷ nowhere ∷ []) }
    ensures upper { ¬ AreClosed two_nodes (nowhere ∷ 1 ∷ []) }
{}

/// Of several origins each is right. The origin of a state that no word leads to is here the state itself.
pub fn worked_are_origins()
    ensures least { (origins : Origins) → AreNoted origins (1 ∷ []) (0 ∷ 1 ∷ 2 ∷ []) → AreOrigins three_states origins }
    ensures another { (origins : Origins) → AreNoted origins (1 ∷ []) (0 ∷ 3 ∷ 2 ∷ []) → AreOrigins three_states origins }
    ensures itself { (origins : Origins) → AreNoted origins [] (0 ∷ 2 ∷ []) → AreOrigins with_unreached origins }
    ensures wrong_origin { (origins : Origins) → AreNoted origins [] (0 ∷ 1 ∷ []) → ¬ AreOrigins with_unreached origins }
    ensures no_start { (origins : Origins) → AreNoted origins [] (nowhere ∷ 2 ∷ []) → ¬ AreOrigins with_unreached origins }
    ensures no_node { (origins : Origins) → AreNoted origins (nowhere ∷ []) (0 ∷ 1 ∷ 2 ∷ []) → ¬ AreOrigins three_states origins }
    ensures no_end { (origins : Origins) → AreNoted origins (1 ∷ []) (0 ∷ nowhere ∷ 2 ∷ []) → ¬ AreOrigins three_states origins }
    ensures too_short { (origins : Origins) → AreNoted origins [] (0 ∷ []) → ¬ AreOrigins with_unreached origins }
{}

/// Hashes of nodes over leaves of two classes, and marks of states.
pub fn worked_hashes()
    ensures ends { joined 0 0 1 ≡ 839513548 }
    ensures turned_round { joined 0 1 0 ≡ 256349429 }
    ensures other_variable { joined 1 0 1 ≡ 2975101409 }
    ensures equal_ends { joined 0 5 5 ≡ 5 }
    ensures leaf { hash_of (4 ∷ 6 ∷ []) (9 ∷ []) (Leaf 1) ≡ 6 }
    ensures node { hash_of (4 ∷ 6 ∷ []) (9 ∷ []) (Inner 0) ≡ 9 }
    ensures nodes { AreHashes (one_node 1 0 1) (0 ∷ 1 ∷ []) (2975101409 ∷ []) }
    ensures one_class { AreHashes (one_node 1 0 1) (5 ∷ 5 ∷ []) (5 ∷ []) }
    ensures another { ¬ AreHashes (one_node 1 0 1) (0 ∷ 1 ∷ []) (5 ∷ []) }
    ensures one_mark { AreCoarseMarks one_state (0 ∷ []) (7 ∷ []) }
    ensures told_apart { ¬ AreCoarseMarks three_states (0 ∷ 1 ∷ 1 ∷ []) (0 ∷ 1 ∷ 2 ∷ []) }
{}

/// Two classes of three states, of which the third has not the mark of the first, by which its class is known. It gets a class of
/// its own.
pub fn worked_split()
    ensures own_keys { own_keys (5 ∷ 7 ∷ 7 ∷ []) 0 (0 ∷ 1 ∷ []) ≡ (0, 5) ∷ (1, 7) ∷ [] }
    ensures key { key_of (0 ∷ 1 ∷ 0 ∷ []) (5 ∷ 7 ∷ 7 ∷ []) 2 ≡ (0, 7) }
    ensures placed { IsPlacedBehind [] (0 ∷ 1 ∷ []) ((0, 7) ∷ []) (0 ∷ 1 ∷ 2 ∷ []) (0, 7) 2 2 }
    ensures left_together { ¬ IsSplit (0 ∷ 1 ∷ 0 ∷ []) (0 ∷ 1 ∷ []) (5 ∷ 7 ∷ 7 ∷ []) (0 ∷ 1 ∷ 0 ∷ []) (0 ∷ 1 ∷ []) }
    ensures put_together { ¬ IsSplit (0 ∷ 1 ∷ 0 ∷ []) (0 ∷ 1 ∷ []) (5 ∷ 7 ∷ 7 ∷ []) (0 ∷ 1 ∷ 1 ∷ []) (0 ∷ 1 ∷ []) }
{}

/// A leaf becomes its class, and a node what was found for it.
pub fn worked_image_of()
    ensures leaf { image_of (Inner 0 ∷ Leaf 7 ∷ []) (4 ∷ 6 ∷ []) (Leaf 1) ≡ Leaf 6 }
    ensures node { image_of (Inner 0 ∷ Leaf 7 ∷ []) (4 ∷ 6 ∷ []) (Inner 0) ≡ Inner 0 }
    ensures to_leaf { image_of (Inner 0 ∷ Leaf 7 ∷ []) (4 ∷ 6 ∷ []) (Inner 1) ≡ Leaf 7 }
{}

/// An image has the classes of the leaves, is in its list, and tests no variable before those of the root.
pub fn worked_is_image()
    ensures same { IsImage (one_node 0 0 1) three_states.nodes (0 ∷ 1 ∷ 1 ∷ []) (Inner 0) (Inner 0) }
    ensures turned_round { IsImage (one_node 0 1 0) three_states.nodes (1 ∷ 0 ∷ 0 ∷ []) (Inner 0) (Inner 0) }
    ensures one_class { IsImage [] three_states.nodes (3 ∷ 3 ∷ 0 ∷ []) (Inner 0) (Leaf 3) }
    ensures two_classes { ¬ IsImage [] three_states.nodes (0 ∷ 1 ∷ 1 ∷ []) (Inner 0) (Leaf 1) }
    ensures no_node { ¬ IsImage [] three_states.nodes (0 ∷ 0 ∷ 0 ∷ []) (Inner 0) (Inner 0) }
    ensures earlier { ¬ IsImage (one_node 0 2 2) (one_node 1 0 1) (2 ∷ 2 ∷ []) (Inner 0) (Inner 0) }
{}

/// Each node that is reached has an image, and the store is reduced.
pub fn worked_are_images()
    ensures same { AreImages three_states.nodes (0 ∷ 1 ∷ 1 ∷ []) (1 ∷ []) (one_image (one_node 0 0 1) (Inner 0)) }
    ensures one_class { AreImages three_states.nodes (3 ∷ 3 ∷ 0 ∷ []) (1 ∷ []) (one_image [] (Leaf 3)) }
    ensures unreached { AreImages three_states.nodes (0 ∷ 1 ∷ 1 ∷ []) (nowhere ∷ []) (one_image [] (Leaf 0)) }
    ensures other { ¬ AreImages three_states.nodes (0 ∷ 1 ∷ 1 ∷ []) (1 ∷ []) (one_image [] (Leaf 0)) }
    ensures equal_ends { ¬ AreImages three_states.nodes (3 ∷ 3 ∷ 0 ∷ []) (1 ∷ []) (one_image (one_node 0 3 3) (Inner 0)) }
{}

/// The nodes as they are, one after the other.
pub fn worked_are_own_images()
    ensures none { AreOwnImages 0 [] }
    ensures own { AreOwnImages 2 (Inner 0 ∷ Inner 1 ∷ []) }
    ensures turned_round { ¬ AreOwnImages 2 (Inner 1 ∷ Inner 0 ∷ []) }
    ensures too_few { ¬ AreOwnImages 2 (Inner 0 ∷ []) }
{}
