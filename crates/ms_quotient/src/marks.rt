ghost use Rattle.std.specs.Prelude.{◌≡◌};
ghost use Rattle.ms_quotient.specs.Closure.{no_marks};
ghost use Rattle.ms_quotient.specs.Way.{union};

/// What has been met: some Yes, some No, some Undefined, some word that encodes an assignment.
#[derive(Clone, Copy)]
pub struct Marks {
    pub yes: bool,
    pub no: bool,
    pub undefined: bool,
    pub encoding: bool,
}

impl Marks {
    pub fn none() -> Marks
        ensures { result ≡ no_marks }
    {
        Marks {
            yes: false,
            no: false,
            undefined: false,
            encoding: false,
        }
    }

    /// The marks of both.
    pub fn with(self, other: Marks) -> Marks
        ensures { result ≡ union self other }
    {
        Marks {
            yes: self.yes || other.yes,
            no: self.no || other.no,
            undefined: self.undefined || other.undefined,
            encoding: self.encoding || other.encoding,
        }
    }
}
