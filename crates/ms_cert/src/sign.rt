ghost use Rattle.std.specs.Prelude.{◌≡◌};
ghost use Rattle.ms_cert.specs.Certificate.{is_sign};

use ms_dfa::FileSign;

/// Whether two signs are one.
pub(crate) fn is_same(one: FileSign, other: FileSign) -> bool
    ensures { result ≡ is_sign one other }
{
    one == other
}
