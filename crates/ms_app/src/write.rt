ghost use Rattle.std.specs.Prelude.{◌≡◌, ◌<◌, ℕ, IfErr, OnOk, length, []};
ghost use Rattle.ms_edge.specs.Counts.{Rose};
ghost use Rattle.ms_app.specs.inner.Files.{HaveOwnNames, pairs_of};
ghost use Rattle.ms_app.specs.Written.{AreHeld, AreHeldUpTo};

use crate::files::AutomatonFile;
use ms_edge::Files;

/// Writes the files one after the other, or stops at the first that is not written, whose number it gives. It takes no memory.
pub fn write_each<F: Files>(written: &[AutomatonFile], files: &mut F) -> Result<(), usize>
    requires { HaveOwnNames (pairs_of written.now) }
    ensures written { OnOk result (AreHeld (F.told files.old).held (F.told files.new).held (pairs_of written.now)) }
    ensures stopped { IfErr result (λ count. AreHeldUpTo count (F.told files.old).held (F.told files.new).held (pairs_of written.now)) }
    ensures untouched { pairs_of written.now ≡ [] → F.told files.new ≡ F.told files.old }
    ensures within { IfErr result (λ count. count < length written.now) }
    ensures cause { IfErr result (λ count. Rose (F.told files.old).faults (F.told files.new).faults) }
{
    for place in 0..written.len() {
        let file = &written[place];
        match files.write(file.name.text(), file.bytes.slice()) {
            Ok(()) => {}
            Err(_) => return Err(place),
        }
    }
    Ok(())
}
