//! Laws of counts from below. Each function has an empty body, and its contract states its law.

ghost use Rattle.ms_logic_starts.specs.AtLeast.{AtMostAnyCount, AtMostLabels};
ghost use Rattle.std.specs.Prelude.{ℕ};

/// Items, some of which are alike.
pub trait Items {
    /// Which two are alike.
    ghost AreAlike: { Self → Self → Type 0 };

    /// Which are counted.
    ghost IsItem: { Self → Type 0 };
}

/// Items with labels, each of which is a pair of numbers.
pub trait Labels: Items {
    /// Which pair an item has.
    ghost HasLabel: { Self → ℕ → ℕ → Type 0 };
}

/// What is at least a number is at most each exact count.
pub fn law_of_counts<T: Items>()
    ensures at_most { AtMostAnyCount T.AreAlike T.IsItem }
{}

/// Items whose labels are pairs below two numbers are at most as many as the pairs.
pub fn law_of_labels<T: Labels>()
    ensures at_most { AtMostLabels T.Items.AreAlike T.Items.IsItem T.HasLabel }
{}
