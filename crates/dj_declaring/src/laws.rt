//! What holds of the pass, of the variables at the head of a body, and of the bodies that are made of trees.

ghost use Rattle.dj_declaring.specs.Passes.{PassBreaks, PassMakesLawful, PassMakesListsLawful};
ghost use Rattle.dj_declaring.specs.Occurring.{OccurringAreFound};
ghost use Rattle.dj_declaring.specs.Starting.{CopiesHold, HeadsBegin, HeadsGiveTypes, HeadsGiveValues, HeadsMayStand};
ghost use Rattle.dj_declaring.specs.Labels.{FreeLabelIsLacking};
ghost use Rattle.dj_declaring.specs.Declaring.{DeclareIsTyped, DeclareShows};

/// One pass makes a tree lawful, and tells how the made one completes.
pub fn one_pass_makes_trees_lawful()
    ensures lawful { PassMakesLawful }
    ensures breaks { PassBreaks }
    ensures lists { PassMakesListsLawful }
{}

/// Each variable that a tree names is found, or isn't looked for.
pub fn occurring_variables_are_found()
    ensures found { OccurringAreFound }
{}

/// The head of a body may stand where the body begins, and gives the variables that its tree names the types and the
/// values that they have in a graph.
pub fn heads_may_stand()
    ensures may_stand { HeadsMayStand }
    ensures types { HeadsGiveTypes }
    ensures begin { HeadsBegin }
    ensures values { HeadsGiveValues }
    ensures copies { CopiesHold }
{}

/// The body that is made of a tree is typed, and shows what the tree shows; and there is a label that the tree lacks.
pub fn declared_bodies_are_typed()
    ensures typed { DeclareIsTyped }
    ensures shows { DeclareShows }
    ensures free { FreeLabelIsLacking }
{}
