// What is promised of figures and classes: the function carries a theorem in each clause, and does nothing else.
ghost use Rattle.plural.specs.Promise.{FiguresExactly, FiguresReadBack, ClassesBelowSix, ClassExactly};

pub fn promise()
    ensures figures_exactly { FiguresExactly }
    ensures figures_read_back { FiguresReadBack }
    ensures classes_below_six { ClassesBelowSix }
    ensures class_exactly { ClassExactly }
{}
