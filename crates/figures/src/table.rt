// The table of worked figures, which is proved.
ghost use Rattle.std.specs.Prelude.{◌≡◌, length};
ghost use Rattle.figures.specs.Figures.{FiguresHold, figures};

/// How many figures the table has. Each is true under the definitions.
#[tactic(auto, using(crate::proofs::Worked::figures_hold))]
pub fn proved_figures() -> usize
    ensures count { result ≡ length figures }
    ensures hold { FiguresHold }
{
    25
}
