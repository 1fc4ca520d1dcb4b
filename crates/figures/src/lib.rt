//! The worked figures of docs/RULES.md, of the definitions.
#![tactic(auto)]

ghost use Rattle.figures.specs.Figures.{AllFigures};
ghost use Rattle.figures.specs.Twelfth.{TwelfthFigures};

/// Every worked figure follows from the definitions.
pub fn figures_stand()
    ensures { AllFigures }
{}

/// So do the virtual times and the allowances after the twelfth call of the worked run.
pub fn twelfth_figures_stand()
    ensures { TwelfthFigures }
{}
