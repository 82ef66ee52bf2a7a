ghost use Rattle.std.specs.Prelude.{◌≡◌, ◌+◌, ◌^◌, ◌<◌, ◌↔◌, ℕ, List, IsTrue};
ghost use Rattle.ms_dfafile_outside.specs.declared.label.Label.TheVariants.{Seen};
ghost use Rattle.ms_dfafile_outside.specs.inner.Labels.{IsLabelWith, IsSmall};
ghost use Rattle.ms_dfafile_outside.specs.inner.Numbers.{IsNumberAt, rank};
ghost use Rattle.ms_logic.specs.declared.mode.Order.{Order};

/// What a word has had: two 1s of one number, or the 1s of these numbers, as bits of a set, the first number the lowest.
#[derive(Clone, Copy, PartialEq, Eq)]
pub(crate) enum Label {
    Lost,
    Seen(u32),
}

impl Label {
    /// The label once the number that these others stand before has one 1 more.
    pub(crate) fn with_number(self, before: u32) -> Label
        requires label { IsSmall self }
        requires few { before < 2 ^ 31 }
        ensures { (orders : List Order) (place : ℕ) → IsNumberAt orders place → before + 1 ≡ 2 ^ rank orders place → IsLabelWith orders place self result }
    {
        match self {
            Label::Lost => Label::Lost,
            Label::Seen(set) => {
                let own = before + 1;
                if set / own % 2 == 1 {
                    Label::Lost
                } else {
                    Label::Seen(set + own)
                }
            }
        }
    }

    /// Whether each of these numbers has had its 1, and none a second.
    pub(crate) fn is_all(self, numbers: u32) -> bool
        ensures { IsTrue result ↔ (self ≡ Seen numbers) }
    {
        match self {
            Label::Lost => false,
            Label::Seen(set) => set == numbers,
        }
    }
}
