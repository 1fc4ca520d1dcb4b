//! The cell as a definition, and one function for each thing that is proved of it, so that the
//! check asks for its proof.
#![tactic(auto)]

ghost use Rattle.std.specs.Prelude.{ℕ};
ghost use Rattle.model.specs.Calls.{new};
ghost use Rattle.model.specs.Figures.{FiguresStand};
ghost use Rattle.model.specs.Further.{AllPromises};
ghost use Rattle.chooser.specs.Meaning.{meant};

use chooser::Chooser;

/// All that a new cell promises, whatever its keep, whatever chooser it was made with and in
/// whatever state that was.
pub fn keeps_its_promises<C: Chooser>()
    ensures { (keep : ℕ) (c : C) → AllPromises {C = C} (meant C.Chooser) (new keep c) }
{}

/// The worked figures, of a new cell with any keep and chooser.
pub fn reproduces_the_figures<C: Chooser>()
    ensures { FiguresStand {C = C} (meant C.Chooser) }
{}
