// What is promised of saying: the function carries a theorem, and does nothing else.
ghost use Rattle.render.specs.Promise.{SameClasses};

pub fn promise()
    ensures same_classes { SameClasses }
{}
