// What holds of the definitions themselves.
ghost use Rattle.clearing.specs.Figures.{WorkedFigures};

// All worked figures, of curves, prices and block orders, as one table of theorems.
pub fn worked_figures_stand()
    ensures { WorkedFigures }
{}
