//! A law of exact counts. The function has an empty body, and its contract states the law.

ghost use Rattle.ms_logic_counts.specs.Counts.{CountsExist};

/// Items, some of which are alike.
pub trait Items {
    /// Which two are alike.
    ghost AreAlike: { Self → Self → Type 0 };

    /// Which are counted.
    ghost IsItem: { Self → Type 0 };
}

/// Where items have finitely many labels, and those with one label are alike, there is an exact count.
pub fn law_of_counts<T: Items, Label>()
    ensures exist { CountsExist T.AreAlike T.IsItem Label }
{}
