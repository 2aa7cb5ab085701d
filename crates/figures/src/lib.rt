//! The worked figures, proved of the definitions that the code is proved against.
#![tactic(auto)]

ghost use Rattle.figures.specs.Figures.{FiguresHold};

/// Every figure of the list holds.
pub fn figures_hold()
    ensures law { FiguresHold }
{}
