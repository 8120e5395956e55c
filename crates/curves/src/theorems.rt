// What holds of the definitions themselves.
ghost use Rattle.curves.specs.Figures.{Figures};
ghost use Rattle.curves.specs.Price.{SeesTicksAlone};

// The worked figures, as one table of theorems.
#[tactic(auto, using(crate::proofs::Checked::figures))]
pub fn figures_stand()
    ensures { Figures }
{}

// Equal tables behind different curves have the same price.
#[tactic(auto, using(crate::proofs::Rules::price_same))]
pub fn price_sees_ticks_alone()
    ensures { SeesTicksAlone }
{}
