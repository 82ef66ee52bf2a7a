ghost use Rattle.std.specs.Prelude.{◌↔◌, ◌<◌, ◌^◌, IsTrue, length};
ghost use Rattle.ms_cert.specs.inner.Separation.{SpellTrees};

use crate::cert::TreeLine;

/// Whether the lines spell one tree.
pub(crate) fn is_one_tree(lines: &[TreeLine]) -> bool
    requires { length lines.now < 2 ^ 63 }
    ensures { IsTrue result ↔ SpellTrees 1 lines.now }
{
    let mut open = 1usize;
    for line in lines {
        if open == 0 {
            return false;
        }
        match line {
            TreeLine::At(_) => open -= 1,
            TreeLine::By(_, _) => open += 1,
        }
    }
    open == 0
}
