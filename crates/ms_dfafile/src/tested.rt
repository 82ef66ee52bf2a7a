ghost use Rattle.std.specs.Prelude.{◌≡◌, ◌&&◌};
ghost use Rattle.ms_logic_words.specs.Content.{is_in_letters, is_truth_value};

use ms_logic::Order;

/// What a reference tests.
#[derive(Clone, Copy)]
pub(crate) struct Tests {
    /// Truth values alone.
    pub truth_values: bool,
    /// Variables in letters alone.
    pub letters: bool,
}

impl Tests {
    /// Nothing is tested.
    pub(crate) const NONE: Tests = Tests {
        truth_values: true,
        letters: true,
    };

    /// A variable of this order is tested.
    pub(crate) fn of_order(order: Order) -> Tests
        ensures truth_values { result.truth_values ≡ is_truth_value order }
        ensures letters { result.letters ≡ is_in_letters order }
    {
        let truth_values = order == Order::Zero;
        Tests {
            truth_values,
            letters: !truth_values,
        }
    }

    /// What either tests.
    pub(crate) fn with(self, other: Tests) -> Tests
        ensures truth_values { result.truth_values ≡ (self.truth_values && other.truth_values) }
        ensures letters { result.letters ≡ (self.letters && other.letters) }
    {
        Tests {
            truth_values: self.truth_values && other.truth_values,
            letters: self.letters && other.letters,
        }
    }
}
