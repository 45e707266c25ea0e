// The worked figures, as one list with one proof.
#![tactic(auto)]

ghost use Rattle.figures.specs.Figures.{Figures};

// The figures stand: the checker computes each of them over the definitions that the contracts cite.
#[tactic(auto, using(crate::proofs::Computed::figures))]
pub fn figures_stand() -> bool
    ensures { Figures }
{
    true
}
